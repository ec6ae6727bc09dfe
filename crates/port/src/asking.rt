// What the next turn of a processor asks of the memory. Each function takes what its phase has, part by part, as the steps of `routes` do.
ghost use Rattle.std.specs.Prelude.{◌≡◌, ◌+◌, ◌<◌};
ghost use Rattle.routes.specs.declared.act.Act.TheVariants.{Swap};
ghost use Rattle.routes.specs.Machine.Builds.{BuildOk, build_act};
ghost use Rattle.routes.specs.Machine.Checks.{CheckOk, check_act};
ghost use Rattle.routes.specs.Machine.Cpus.{WorkOk, act};
ghost use Rattle.routes.specs.Machine.Finishes.{FinishOk, finish_act};
ghost use Rattle.routes.specs.Machine.Lookups.{LookupOk, lookup_act};
ghost use Rattle.routes.specs.Machine.Obtains.{ObtainOk, obtain_act};
ghost use Rattle.routes.specs.Machine.Publishes.{publish_act};
ghost use Rattle.routes.specs.Machine.Reclaims.{reclaim_act};
ghost use Rattle.routes.specs.Machine.Recycles.{recycle_act};
ghost use Rattle.routes.specs.Machine.Retires.{RetireOk, retire_act};
ghost use Rattle.routes.specs.Machine.Scans.{ScanOk, scan_act};
ghost use Rattle.routes.specs.Machine.Updates.{UpdateOk, update_act};

use own::{OwnWords, fresh_at, image_word, retired_at};
use routes::act::Act;
use routes::header::{ACTIVE, EPOCH, HEADER, LIMBO_HEAD, LIMBO_TAIL, ROOT, WRITER};
use routes::lookup::Lookup;
use routes::node::{NEXT_RETIRED, RETIRED_AT, ROUTES};
use routes::update::Phase;
use routes::update::build::Build;
use routes::update::check::{Check, prefix_at};
use routes::update::finish::Finish;
use routes::update::job::Job;
use routes::update::obtain::Obtain;
use routes::update::publish::Publish;
use routes::update::reclaim::Reclaim;
use routes::update::recycle::Recycle;
use routes::update::retire::{Retire, follower};
use routes::update::scan::Scan;
use routes::work::Work;
use words::{nib, route_place};

fn unlock(p: u32) -> Act
    ensures { result ≡ Swap 0 0 (p + 1) 0 }
{
    Act::Swap {
        block: HEADER,
        word: WRITER,
        old: u64::from(p) + 1,
        new: 0,
    }
}

fn lookup_asks(p: u32, l: Lookup) -> Act
    requires { (LookupOk l) × (p < 16) }
    ensures { result ≡ lookup_act p l }
{
    match l {
        Lookup::Epoch { .. } => Act::Load {
            block: HEADER,
            word: EPOCH,
        },
        Lookup::Announce { epoch, .. } => Act::Swap {
            block: HEADER,
            word: ACTIVE + p,
            old: 0,
            new: epoch + 1,
        },
        Lookup::Root { .. } => Act::Load {
            block: HEADER,
            word: ROOT,
        },
        Lookup::Node {
            address,
            level,
            node,
            ..
        } => Act::Load {
            block: node,
            word: nib(level, address),
        },
        Lookup::Leave { epoch, .. } => Act::Swap {
            block: HEADER,
            word: ACTIVE + p,
            old: epoch + 1,
            new: 0,
        },
    }
}

fn check_asks(p: u32, job: Job, s: Check, own: &OwnWords) -> Act
    requires { CheckOk job s own.now }
    ensures { result ≡ check_act p s own.now }
{
    match s {
        Check::Piece { .. } => Act::Pause,
        Check::Root { .. } => Act::Load {
            block: HEADER,
            word: ROOT,
        },
        Check::Slot { k, level, node } => Act::Load {
            block: node,
            word: nib(level, prefix_at(own, k).bits),
        },
        Check::Route { k, node } => {
            let prefix = prefix_at(own, k);
            Act::Load {
                block: node,
                word: ROUTES + route_place(prefix.len, prefix.bits),
            }
        }
        Check::Reject { .. } => unlock(p),
    }
}

fn obtain_asks(p: u32, job: Job, s: Obtain, own: &OwnWords) -> Act
    requires { ObtainOk job s }
    ensures { result ≡ obtain_act p job s own.now }
{
    match s {
        Obtain::Get => Act::Obtain,
        Obtain::Undo => Act::Release {
            block: fresh_at(own, job.got - 1),
        },
        Obtain::Full => unlock(p),
    }
}

fn recycle_asks(s: Recycle) -> Act
    ensures { result ≡ recycle_act s }
{
    match s {
        Recycle::Head => Act::Load {
            block: HEADER,
            word: LIMBO_HEAD,
        },
        Recycle::RetiredAt { node } => Act::Load {
            block: node,
            word: RETIRED_AT,
        },
        Recycle::Next { node, .. } => Act::Load {
            block: node,
            word: NEXT_RETIRED,
        },
        Recycle::SetHead { next, .. } => Act::Store {
            block: HEADER,
            word: LIMBO_HEAD,
            x: next as u64,
        },
        Recycle::SetTail => Act::Store {
            block: HEADER,
            word: LIMBO_TAIL,
            x: 0,
        },
    }
}

fn scan_asks(s: Scan) -> Act
    requires { ScanOk s }
    ensures { result ≡ scan_act s }
{
    match s {
        Scan::ForNode { q, .. } | Scan::ForLimit { q, .. } => Act::Load {
            block: HEADER,
            word: ACTIVE + q,
        },
    }
}

fn build_asks(job: Job, s: Build, own: &OwnWords) -> Act
    requires { BuildOk job s own.now }
    ensures { result ≡ build_act s own.now }
{
    match s {
        Build::Root => Act::Load {
            block: HEADER,
            word: ROOT,
        },
        Build::Read { word, node, .. } => Act::Load { block: node, word },
        Build::Edit { .. } => Act::Pause,
        Build::Write {
            first,
            level,
            word,
            ..
        } => {
            Act::Store {
                block: fresh_at(own, first + level as u32),
                word,
                x: image_word(own, level, word),
            }
        }
    }
}

fn publish_asks(job: Job, s: Publish) -> Act
    ensures { result ≡ publish_act job s }
{
    match s {
        Publish::FenceNodes | Publish::FenceRoot => Act::Fence,
        Publish::SetRoot => Act::Store {
            block: HEADER,
            word: ROOT,
            x: job.root as u64,
        },
    }
}

fn retire_asks(job: Job, s: Retire, own: &OwnWords) -> Act
    requires { RetireOk job s }
    ensures { result ≡ retire_act job s own.now }
{
    match s {
        Retire::Epoch => Act::Load {
            block: HEADER,
            word: EPOCH,
        },
        Retire::SetEpoch { epoch } => Act::Store {
            block: HEADER,
            word: EPOCH,
            x: epoch + 1,
        },
        Retire::SetAt { i, epoch } => Act::Store {
            block: retired_at(own, i),
            word: RETIRED_AT,
            x: epoch,
        },
        Retire::SetNext { i, .. } => Act::Store {
            block: retired_at(own, i),
            word: NEXT_RETIRED,
            x: follower(job, i, own) as u64,
        },
        Retire::Tail => Act::Load {
            block: HEADER,
            word: LIMBO_TAIL,
        },
        Retire::SetHead => Act::Store {
            block: HEADER,
            word: LIMBO_HEAD,
            x: retired_at(own, 0) as u64,
        },
        Retire::Link { tail } => Act::Store {
            block: tail,
            word: NEXT_RETIRED,
            x: retired_at(own, 0) as u64,
        },
        Retire::SetTail => Act::Store {
            block: HEADER,
            word: LIMBO_TAIL,
            x: retired_at(own, job.retired - 1) as u64,
        },
        Retire::Fence => Act::Fence,
    }
}

fn reclaim_asks(s: Reclaim) -> Act
    ensures { result ≡ reclaim_act s }
{
    match s {
        Reclaim::Head { .. } => Act::Load {
            block: HEADER,
            word: LIMBO_HEAD,
        },
        Reclaim::RetiredAt { node, .. } => Act::Load {
            block: node,
            word: RETIRED_AT,
        },
        Reclaim::Next { node, .. } => Act::Load {
            block: node,
            word: NEXT_RETIRED,
        },
        Reclaim::SetHead { next, .. } => Act::Store {
            block: HEADER,
            word: LIMBO_HEAD,
            x: next as u64,
        },
        Reclaim::SetTail { .. } => Act::Store {
            block: HEADER,
            word: LIMBO_TAIL,
            x: 0,
        },
        Reclaim::Release { node, .. } => Act::Release { block: node },
    }
}

fn finish_asks(p: u32, job: Job, s: Finish, own: &OwnWords) -> Act
    requires { FinishOk job s }
    ensures { result ≡ finish_act p job s own.now }
{
    match s {
        Finish::Unused => Act::Release {
            block: fresh_at(own, job.used),
        },
        Finish::Unlock => unlock(p),
    }
}

fn update_asks(p: u32, job: Job, phase: Phase, own: &OwnWords) -> Act
    requires { UpdateOk job phase own.now }
    ensures { result ≡ update_act p job phase own.now }
{
    match phase {
        Phase::Refuse => Act::Pause,
        Phase::Lock => Act::Swap {
            block: HEADER,
            word: WRITER,
            old: 0,
            new: u64::from(p) + 1,
        },
        Phase::Check(s) => check_asks(p, job, s, own),
        Phase::Obtain(s) => obtain_asks(p, job, s, own),
        Phase::Recycle(s) => recycle_asks(s),
        Phase::Scan(s) => scan_asks(s),
        Phase::Build(s) => build_asks(job, s, own),
        Phase::Publish(s) => publish_asks(job, s),
        Phase::Retire(s) => retire_asks(job, s, own),
        Phase::Reclaim(s) => reclaim_asks(s),
        Phase::Finish(s) => finish_asks(p, job, s, own),
    }
}

// What the next turn of processor p asks, which has this under way.
pub fn asks(p: u32, work: Work, own: &OwnWords) -> Act
    requires { (WorkOk work own.now) × (p < 16) }
    ensures { result ≡ act p work own.now }
{
    match work {
        Work::Idle => Act::Pause,
        Work::Lookup(l) => lookup_asks(p, l),
        Work::Update(job, phase) => update_asks(p, job, phase, own),
    }
}
