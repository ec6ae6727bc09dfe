// Obtain: all blocks that the update may need, before it builds anything, so that nothing can fail later.
ghost use Rattle.std.specs.Prelude.{◌≡◌};
ghost use Rattle.routes.specs.declared.update.obtain.Obtain.TheVariants.{Get as AtGet, Undo as AtUndo};
ghost use Rattle.routes.specs.Machine.Obtains.{ObtainReady, ObtainMoved, gathering as gathering_of, undoing as undoing_of};

use super::build::Build;
use super::job::Job;
use super::recycle::Recycle;
use super::{Phase, UpdateNext};
use crate::access::give_back;
use crate::header::unlock;
use crate::pool::obtain;
use crate::{Answer, Memory};
use own::{OwnWords, fresh_at};
use std::ops::ControlFlow::{Break, Continue};

#[derive(Clone, Copy)]
pub enum Obtain {
    Get,
    // there is no room: what was got goes back
    Undo,
    Full,
}

// With one block more: on to the next, or to build if all are there.
pub fn gathering(job: Job) -> UpdateNext
    ensures { result ≡ gathering_of job }
{
    if job.got < job.need {
        Continue((job, Phase::Obtain(Obtain::Get)))
    } else {
        Continue((job, Phase::Build(Build::Root)))
    }
}

// There is no room for the update: what was got goes back, one block a turn.
pub fn undoing(job: Job) -> UpdateNext
    ensures { result ≡ undoing_of job }
{
    if job.got > 0 {
        Continue((job, Phase::Obtain(Obtain::Undo)))
    } else {
        Continue((job, Phase::Obtain(Obtain::Full)))
    }
}

fn get<M: Memory>(job: Job, w: &mut M, p: u32, own: &mut OwnWords) -> UpdateNext
    requires ready { ObtainReady (M.mem w.old) p job AtGet own.old }
    ensures moved { ObtainMoved p job AtGet (M.mem w.old) own.old result (M.mem w.new) own.new }
    ensures unseen { M.seen w.new ≡ M.seen w.old }
{
    match obtain(w, p) {
        Some(block) => {
            block.keep(own, job.got);
            gathering(Job {
                got: job.got + 1,
                ..job
            })
        }
        None => Continue((job, Phase::Recycle(Recycle::Head))),
    }
}

fn undo<M: Memory>(job: Job, w: &mut M, p: u32, own: &mut OwnWords) -> UpdateNext
    requires ready { ObtainReady (M.mem w.old) p job AtUndo own.old }
    ensures moved { ObtainMoved p job AtUndo (M.mem w.old) own.old result (M.mem w.new) own.new }
    ensures unseen { M.seen w.new ≡ M.seen w.old }
{
    let got = job.got - 1;
    give_back(w, p, fresh_at(own, got));
    undoing(Job { got, ..job })
}

pub fn step_obtain<M: Memory>(
    job: Job,
    s: Obtain,
    w: &mut M,
    p: u32,
    own: &mut OwnWords,
) -> UpdateNext
    requires ready { ObtainReady (M.mem w.old) p job s own.old }
    ensures moved { ObtainMoved p job s (M.mem w.old) own.old result (M.mem w.new) own.new }
    ensures unseen { M.seen w.new ≡ M.seen w.old }
{
    match s {
        Obtain::Get => get(job, w, p, own),
        Obtain::Undo => undo(job, w, p, own),
        Obtain::Full => {
            let _was = unlock(w, p);
            Break(Answer::Full)
        }
    }
}
