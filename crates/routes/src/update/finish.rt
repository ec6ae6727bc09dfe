// Finish: fresh blocks that were not used go back, and the lock is given up in the turn in which the update is told.
ghost use Rattle.std.specs.Prelude.{◌≡◌};
ghost use Rattle.routes.specs.Machine.Finishes.{FinishReady, FinishMoved, finishing as finishing_of};

use super::job::Job;
use super::{Phase, UpdateNext};
use crate::access::give_back;
use crate::header::unlock;
use crate::{Answer, Memory};
use own::{OwnWords, fresh_at};
use std::ops::ControlFlow::{Break, Continue};

#[derive(Clone, Copy)]
pub enum Finish {
    Unused,
    Unlock,
}

// Where an update goes when it has reclaimed: to its unused blocks, or to the end.
pub fn finishing(job: Job) -> Phase
    ensures { result ≡ finishing_of job }
{
    Phase::Finish(if job.used < job.got {
        Finish::Unused
    } else {
        Finish::Unlock
    })
}

pub fn step_finish<M: Memory>(job: Job, s: Finish, w: &mut M, p: u32, own: &OwnWords) -> UpdateNext
    requires ready { FinishReady (M.mem w.old) p job s own.now }
    ensures moved { FinishMoved p job s (M.mem w.old) own.now result (M.mem w.new) }
    ensures unseen { M.seen w.new ≡ M.seen w.old }
{
    match s {
        Finish::Unused => {
            give_back(w, p, fresh_at(own, job.used));
            let job = Job {
                used: job.used + 1,
                ..job
            };
            Continue((job, finishing(job)))
        }
        Finish::Unlock => {
            let _was = unlock(w, p);
            Break(Answer::Done)
        }
    }
}
