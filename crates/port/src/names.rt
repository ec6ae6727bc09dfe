// Short names of what a processor has under way, for people: functions that hand out a text, which a Display could only write.
ghost use Rattle.std.specs.Prelude.{◌≡◌};
ghost use Rattle.port.specs.Names.{lookup_name, check_name, obtain_name, recycle_name, scan_name, build_name, publish_name, retire_name, reclaim_name, finish_name, phase_name, work_name};

use routes::lookup::Lookup;
use routes::update::Phase;
use routes::update::build::Build;
use routes::update::check::Check;
use routes::update::finish::Finish;
use routes::update::obtain::Obtain;
use routes::update::publish::Publish;
use routes::update::reclaim::Reclaim;
use routes::update::recycle::Recycle;
use routes::update::retire::Retire;
use routes::update::scan::Scan;
use routes::work::Work;

fn lookup_name(l: Lookup) -> &'static str
    ensures { result.now ≡ lookup_name l }
{
    match l {
        Lookup::Epoch { .. } => "lookup epoch",
        Lookup::Announce { .. } => "lookup announce",
        Lookup::Root { .. } => "lookup root",
        Lookup::Node { .. } => "lookup node",
        Lookup::Leave { .. } => "lookup leave",
    }
}

fn check_name(s: Check) -> &'static str
    ensures { result.now ≡ check_name s }
{
    match s {
        Check::Piece { .. } => "check piece",
        Check::Root { .. } => "check root",
        Check::Slot { .. } => "check slot",
        Check::Route { .. } => "check route",
        Check::Reject { .. } => "reject",
    }
}

fn obtain_name(s: Obtain) -> &'static str
    ensures { result.now ≡ obtain_name s }
{
    match s {
        Obtain::Get => "obtain",
        Obtain::Undo => "obtain undo",
        Obtain::Full => "obtain full",
    }
}

fn recycle_name(s: Recycle) -> &'static str
    ensures { result.now ≡ recycle_name s }
{
    match s {
        Recycle::Head => "recycle head",
        Recycle::RetiredAt { .. } => "recycle stamp",
        Recycle::Next { .. } => "recycle next",
        Recycle::SetHead { .. } => "recycle set head",
        Recycle::SetTail => "recycle set tail",
    }
}

fn scan_name(s: Scan) -> &'static str
    ensures { result.now ≡ scan_name s }
{
    match s {
        Scan::ForNode { .. } => "scan for node",
        Scan::ForLimit { .. } => "scan for limit",
    }
}

fn build_name(s: Build) -> &'static str
    ensures { result.now ≡ build_name s }
{
    match s {
        Build::Root => "build root",
        Build::Read { .. } => "build read",
        Build::Edit { .. } => "build edit",
        Build::Write { .. } => "build write",
    }
}

fn publish_name(s: Publish) -> &'static str
    ensures { result.now ≡ publish_name s }
{
    match s {
        Publish::FenceNodes => "publish fence nodes",
        Publish::SetRoot => "publish root",
        Publish::FenceRoot => "publish fence root",
    }
}

fn retire_name(s: Retire) -> &'static str
    ensures { result.now ≡ retire_name s }
{
    match s {
        Retire::Epoch => "retire epoch",
        Retire::SetEpoch { .. } => "retire set epoch",
        Retire::SetAt { .. } => "retire stamp",
        Retire::SetNext { .. } => "retire set next",
        Retire::Tail => "retire tail",
        Retire::SetHead => "retire set head",
        Retire::Link { .. } => "retire link",
        Retire::SetTail => "retire set tail",
        Retire::Fence => "retire fence",
    }
}

fn reclaim_name(s: Reclaim) -> &'static str
    ensures { result.now ≡ reclaim_name s }
{
    match s {
        Reclaim::Head { .. } => "reclaim head",
        Reclaim::RetiredAt { .. } => "reclaim stamp",
        Reclaim::Next { .. } => "reclaim next",
        Reclaim::SetHead { .. } => "reclaim set head",
        Reclaim::SetTail { .. } => "reclaim set tail",
        Reclaim::Release { .. } => "reclaim release",
    }
}

fn finish_name(s: Finish) -> &'static str
    ensures { result.now ≡ finish_name s }
{
    match s {
        Finish::Unused => "release unused",
        Finish::Unlock => "unlock",
    }
}

fn phase_name(phase: Phase) -> &'static str
    ensures { result.now ≡ phase_name phase }
{
    match phase {
        Phase::Refuse => "refuse",
        Phase::Lock => "lock",
        Phase::Check(s) => check_name(s),
        Phase::Obtain(s) => obtain_name(s),
        Phase::Recycle(s) => recycle_name(s),
        Phase::Scan(s) => scan_name(s),
        Phase::Build(s) => build_name(s),
        Phase::Publish(s) => publish_name(s),
        Phase::Retire(s) => retire_name(s),
        Phase::Reclaim(s) => reclaim_name(s),
        Phase::Finish(s) => finish_name(s),
    }
}

pub fn state_name(work: Work) -> &'static str
    ensures { result.now ≡ work_name work }
{
    match work {
        Work::Idle => "idle",
        Work::Lookup(l) => lookup_name(l),
        Work::Update(_, phase) => phase_name(phase),
    }
}
