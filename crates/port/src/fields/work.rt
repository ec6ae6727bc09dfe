// What is under way: nothing, a lookup, or an update in one of its phases.
ghost use Rattle.std.specs.Prelude.{◌≡◌, Some as Some'};
ghost use Rattle.std.specs.Result.{result_ok};
ghost use Rattle.routes.specs.declared.work.Work.TheVariants.{Update};
ghost use Rattle.port.specs.Fields.{phase_of, work_of};

use super::{Fields, Registers, UnknownState, in_state};
use routes::lookup::Lookup;
use routes::update::Phase;
use routes::update::build::Build;
use routes::update::check::Check;
use routes::update::finish::Finish;
use routes::update::job::Job;
use routes::update::obtain::Obtain;
use routes::update::publish::Publish;
use routes::update::reclaim::Reclaim;
use routes::update::recycle::Recycle;
use routes::update::retire::Retire;
use routes::update::scan::Scan;
use routes::work::Work;

fn update_registers(job: Job, phase: Phase) -> Registers
    ensures { work_of result ≡ Some' (Update job phase) }
{
    let (phase, fields) = match phase {
        Phase::Refuse => (2, in_state(0)),
        Phase::Lock => (3, in_state(0)),
        Phase::Check(s) => (4, Fields::from(s)),
        Phase::Obtain(s) => (5, Fields::from(s)),
        Phase::Recycle(s) => (6, Fields::from(s)),
        Phase::Scan(s) => (7, Fields::from(s)),
        Phase::Build(s) => (8, Fields::from(s)),
        Phase::Publish(s) => (9, Fields::from(s)),
        Phase::Retire(s) => (10, Fields::from(s)),
        Phase::Reclaim(s) => (11, Fields::from(s)),
        Phase::Finish(s) => (12, Fields::from(s)),
    };
    Registers { phase, job, fields }
}

impl From<Work> for Registers {
    ghost from_gives = { λ k r. work_of r ≡ Some' k };

    fn from(work: Work) -> Registers {
        match work {
            Work::Idle => Registers {
                phase: 0,
                job: Job::default(),
                fields: in_state(0),
            },
            Work::Lookup(lookup) => Registers {
                phase: 1,
                job: Job::default(),
                fields: lookup.into(),
            },
            Work::Update(job, phase) => update_registers(job, phase),
        }
    }
}

// The phase of this number, in the state that the fields say.
fn phase_of(phase: u32, f: Fields) -> Result<Phase, UnknownState>
    ensures { result_ok result ≡ phase_of phase f }
{
    match phase {
        2 => Ok(Phase::Refuse),
        3 => Ok(Phase::Lock),
        4 => Check::try_from(f).map(Phase::Check),
        5 => Obtain::try_from(f).map(Phase::Obtain),
        6 => Recycle::try_from(f).map(Phase::Recycle),
        7 => Scan::try_from(f).map(Phase::Scan),
        8 => Build::try_from(f).map(Phase::Build),
        9 => Publish::try_from(f).map(Phase::Publish),
        10 => Retire::try_from(f).map(Phase::Retire),
        11 => Reclaim::try_from(f).map(Phase::Reclaim),
        12 => Finish::try_from(f).map(Phase::Finish),
        _ => Err(UnknownState),
    }
}

impl TryFrom<Registers> for Work {
    type Error = UnknownState;

    ghost try_from_gives = { λ r k. result_ok k ≡ work_of r };

    fn try_from(r: Registers) -> Result<Work, UnknownState> {
        match r.phase {
            0 => Ok(Work::Idle),
            1 => Lookup::try_from(r.fields).map(Work::Lookup),
            _ => Ok(Work::Update(r.job, phase_of(r.phase, r.fields)?)),
        }
    }
}
