// Are registers in the ranges that a turn needs? Each function takes what its phase has, part by part, as the steps of `routes` do.
ghost use Rattle.std.specs.Prelude.{◌<◌, T};
ghost use Rattle.routes.specs.Machine.Builds.{BuildOk, Building};
ghost use Rattle.routes.specs.Machine.Checks.{CheckOk, CleanIn, AtPiece};
ghost use Rattle.routes.specs.Machine.Cpus.{WorkOk};
ghost use Rattle.routes.specs.Machine.Finishes.{FinishOk};
ghost use Rattle.routes.specs.Machine.Lookups.{LookupOk};
ghost use Rattle.routes.specs.Machine.Obtains.{ObtainOk};
ghost use Rattle.routes.specs.Machine.Recycles.{RecycleOk};
ghost use Rattle.routes.specs.Machine.Retires.{RetireOk};
ghost use Rattle.routes.specs.Machine.Scans.{ScanOk};
ghost use Rattle.routes.specs.Machine.Updates.{UpdateOk};

use own::{OwnWords, piece_at};
use routes::lookup::Lookup;
use routes::make_prefix;
use routes::update::Phase;
use routes::update::build::Build;
use routes::update::check::Check;
use routes::update::finish::Finish;
use routes::update::job::Job;
use routes::update::obtain::Obtain;
use routes::update::recycle::Recycle;
use routes::update::retire::Retire;
use routes::update::scan::Scan;
use routes::work::Work;

fn lookup_ok(l: Lookup) -> bool
    ensures sound { T result → LookupOk l }
    ensures exact { LookupOk l → T result }
{
    match l {
        Lookup::Epoch { .. } => true,
        Lookup::Announce { epoch, .. } | Lookup::Root { epoch, .. } | Lookup::Leave { epoch, .. } =>
            epoch < u64::MAX,
        Lookup::Node { epoch, level, .. } => epoch < u64::MAX && level <= 8,
    }
}

// Is piece k of an update a clean prefix?
fn clean_in(own: &OwnWords, k: u32) -> bool
    ensures sound { T result → CleanIn own.now k }
    ensures exact { k < 8 → CleanIn own.now k → T result }
{
    if k >= 8 {
        return false;
    }
    let piece = piece_at(own, k);
    make_prefix(piece.len, piece.bits).is_ok()
}

// Is piece k in hand, with no more blocks asked for than nine for each before it?
fn at_piece(job: Job, k: u32) -> bool
    ensures sound { T result → AtPiece job k }
    ensures exact { AtPiece job k → T result }
{
    k < job.size && job.size <= 8 && job.need <= 9 * k
}

fn check_ok(job: Job, s: Check, own: &OwnWords) -> bool
    ensures sound { T result → CheckOk job s own.now }
    ensures exact { CheckOk job s own.now → T result }
{
    match s {
        Check::Piece { k } => at_piece(job, k),
        Check::Root { k } | Check::Route { k, .. } => at_piece(job, k) && clean_in(own, k),
        Check::Slot { k, level, .. } => {
            at_piece(job, k) && clean_in(own, k) && (level as u64) < piece_at(own, k).len / 4
        }
        Check::Reject { .. } => true,
    }
}

fn obtain_ok(job: Job, s: Obtain) -> bool
    ensures sound { T result → ObtainOk job s }
    ensures exact { ObtainOk job s → T result }
{
    match s {
        Obtain::Get => job.got < job.need && job.need <= 72,
        Obtain::Undo => 0 < job.got && job.got <= 72,
        Obtain::Full => true,
    }
}

fn recycle_ok(job: Job, s: Recycle) -> bool
    ensures sound { T result → RecycleOk job s }
    ensures exact { RecycleOk job s → T result }
{
    match s {
        Recycle::SetHead { .. } => job.got < job.need && job.need <= 72,
        Recycle::Head | Recycle::RetiredAt { .. } | Recycle::Next { .. } | Recycle::SetTail => true,
    }
}

fn scan_ok(s: Scan) -> bool
    ensures sound { T result → ScanOk s }
    ensures exact { ScanOk s → T result }
{
    match s {
        Scan::ForNode { q, stamp, .. } => q < 16 && stamp < u64::MAX,
        Scan::ForLimit { q, .. } => q < 16,
    }
}

// Is piece k in hand, and clean?
fn building(job: Job, k: u32, own: &OwnWords) -> bool
    ensures sound { T result → Building job k own.now }
    ensures exact { Building job k own.now → T result }
{
    k < job.size && job.size <= 8 && clean_in(own, k)
}

fn build_ok(job: Job, s: Build, own: &OwnWords) -> bool
    ensures sound { T result → BuildOk job s own.now }
    ensures exact { BuildOk job s own.now → T result }
{
    match s {
        Build::Root => true,
        Build::Read { k, level, word, .. } => {
            building(job, k, own)
                && (level as u64) <= piece_at(own, k).len / 4
                && word < 31
                && job.retired <= 72
        }
        Build::Edit { k, have } => {
            if !building(job, k, own) {
                return false;
            }
            let deep = piece_at(own, k).len / 4;
            (have as u64) <= deep + 1 && job.retired <= 72 && (job.used as u64) + deep < 72
        }
        Build::Write {
            k,
            first,
            level,
            word,
        } => {
            k < job.size
                && job.size <= 8
                && level <= 8
                && first < 72
                && first + (level as u32) < 72
                && word < 31
        }
    }
}

fn retire_ok(job: Job, s: Retire) -> bool
    ensures sound { T result → RetireOk job s }
    ensures exact { RetireOk job s → T result }
{
    match s {
        Retire::SetEpoch { epoch } => epoch < u64::MAX,
        Retire::SetAt { i, .. } | Retire::SetNext { i, .. } => i < 72,
        Retire::SetTail => 0 < job.retired && job.retired <= 72,
        Retire::Epoch | Retire::Tail | Retire::SetHead | Retire::Link { .. } | Retire::Fence =>
            true,
    }
}

fn finish_ok(job: Job, s: Finish) -> bool
    ensures sound { T result → FinishOk job s }
    ensures exact { FinishOk job s → T result }
{
    match s {
        Finish::Unused => job.used < 72,
        Finish::Unlock => true,
    }
}

fn update_ok(job: Job, phase: Phase, own: &OwnWords) -> bool
    ensures sound { T result → UpdateOk job phase own.now }
    ensures exact { UpdateOk job phase own.now → T result }
{
    match phase {
        Phase::Refuse | Phase::Lock | Phase::Publish(_) | Phase::Reclaim(_) => true,
        Phase::Check(s) => check_ok(job, s, own),
        Phase::Obtain(s) => obtain_ok(job, s),
        Phase::Recycle(s) => recycle_ok(job, s),
        Phase::Scan(s) => scan_ok(s),
        Phase::Build(s) => build_ok(job, s, own),
        Phase::Retire(s) => retire_ok(job, s),
        Phase::Finish(s) => finish_ok(job, s),
    }
}

pub fn work_ok(work: Work, own: &OwnWords) -> bool
    ensures sound { T result → WorkOk work own.now }
    ensures exact { WorkOk work own.now → T result }
{
    match work {
        Work::Idle => true,
        Work::Lookup(l) => lookup_ok(l),
        Work::Update(job, phase) => update_ok(job, phase, own),
    }
}
