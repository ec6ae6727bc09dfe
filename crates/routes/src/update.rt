// An update, a turn at a time: its phases, each a machine in a file of its own.
ghost use Rattle.std.specs.Prelude.{◌≡◌};
ghost use Rattle.routes.specs.Machine.Updates.{UpdateReady, UpdateMoved, after_lock};

use super::header::try_lock;
use super::refusal::Refusal;
use super::{Answer, Memory};
use own::OwnWords;
use std::ops::ControlFlow;
use std::ops::ControlFlow::{Break, Continue};

pub mod build;
pub mod check;
pub mod finish;
pub mod job;
pub mod obtain;
pub mod publish;
pub mod reclaim;
pub mod recycle;
pub mod retire;
pub mod scan;

#[derive(Clone, Copy)]
pub enum Phase {
    // the number of pieces is 0 or above 8
    Refuse,
    Lock,
    Check(check::Check),
    Obtain(obtain::Obtain),
    Recycle(recycle::Recycle),
    Scan(scan::Scan),
    Build(build::Build),
    Publish(publish::Publish),
    Retire(retire::Retire),
    Reclaim(reclaim::Reclaim),
    Finish(finish::Finish),
}

// An update that is still under way, or its answer.
pub type UpdateNext = ControlFlow<Answer, (job::Job, Phase)>;

// The lock was free, so it is ours now; or it has to be tried again.
fn after_lock(was: u64) -> Phase
    ensures { result ≡ after_lock was }
{
    if was == 0 {
        Phase::Check(check::Check::Piece { k: 0 })
    } else {
        Phase::Lock
    }
}

// Five parameters, for of one struct behind `&mut` each contract would have to say what stays; and a match, for where an update is stands in its registers.
pub fn step_update<M: Memory>(
    job: job::Job,
    phase: Phase,
    w: &mut M,
    p: u32,
    own: &mut OwnWords,
) -> UpdateNext
    requires ready { UpdateReady (M.mem w.old) p job phase own.old }
    ensures moved { UpdateMoved p job phase (M.mem w.old) own.old result (M.mem w.new) own.new }
    ensures unseen { M.seen w.new ≡ M.seen w.old }
{
    match phase {
        Phase::Refuse => Break(Answer::No(u8::from(Refusal::PieceCount))),
        Phase::Lock => Continue((job, after_lock(try_lock(w, p)))),
        Phase::Check(s) => check::step_check(job, s, w, p, own),
        Phase::Obtain(s) => obtain::step_obtain(job, s, w, p, own),
        Phase::Recycle(s) => recycle::step_recycle(job, s, w, p, own),
        Phase::Scan(s) => Continue((job, scan::step_scan(s, w, p))),
        Phase::Build(s) => build::step_build(job, s, w, p, own),
        Phase::Publish(s) => Continue((job, publish::step_publish(job, s, w, p))),
        Phase::Retire(s) => Continue((job, retire::step_retire(job, s, w, p, own))),
        Phase::Reclaim(s) => Continue((job, reclaim::step_reclaim(job, s, w, p))),
        Phase::Finish(s) => finish::step_finish(job, s, w, p, own),
    }
}
