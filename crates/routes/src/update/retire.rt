// Retire: the epoch is raised, and the nodes that were replaced go behind the tail of limbo, each with the epoch in which it was retired.
ghost use Rattle.std.specs.Prelude.{◌≡◌, ◌<◌};
ghost use Rattle.routes.specs.declared.update.retire.Retire.TheVariants.{SetNext as AtSetNext};
ghost use Rattle.routes.specs.Machine.Retires.{RetireReady, RetireMoved, follower_in, after_epoch, after_next, after_tail};

use super::Phase;
use super::job::Job;
use super::scan::Scan;
use crate::Memory;
use crate::access::{fence, load, store};
use crate::header::{EPOCH, HEADER, LIMBO_HEAD, LIMBO_TAIL};
use crate::node::{NEXT_RETIRED, RETIRED_AT};
use own::{OwnWords, retired_at};
use words::block_of;

#[derive(Clone, Copy)]
pub enum Retire {
    Epoch,
    SetEpoch { epoch: u64 },
    // node i of those replaced
    SetAt { i: u32, epoch: u64 },
    SetNext { i: u32, epoch: u64 },
    Tail,
    // limbo was empty: the first of those replaced is its head
    SetHead,
    Link { tail: u32 },
    SetTail,
    Fence,
}

// The epoch is raised: the replaced nodes are next, if there are any.
fn after_epoch(job: Job, epoch: u64) -> Phase
    ensures { result ≡ after_epoch job epoch }
{
    if job.retired > 0 {
        Phase::Retire(Retire::SetAt { i: 0, epoch })
    } else {
        Phase::Retire(Retire::Fence)
    }
}

// Node i has its epoch and its link: on to the next, or to the tail of limbo.
fn after_next(job: Job, i: u32, epoch: u64) -> Phase
    requires { i < 72 }
    ensures { result ≡ after_next job i epoch }
{
    if i + 1 < job.retired {
        Phase::Retire(Retire::SetAt { i: i + 1, epoch })
    } else {
        Phase::Retire(Retire::Tail)
    }
}

// Where the replaced nodes go: behind the tail of limbo, or to its head if it has none.
fn after_tail(tail: u32) -> Phase
    ensures { result ≡ after_tail tail }
{
    if tail == 0 {
        Phase::Retire(Retire::SetHead)
    } else {
        Phase::Retire(Retire::Link { tail })
    }
}

// The replaced node after node i, or 0, as the word that links them holds it.
pub fn follower(job: Job, i: u32, own: &OwnWords) -> u32
    requires { i < 72 }
    ensures { result ≡ follower_in job i own.now }
{
    if i + 1 < job.retired {
        retired_at(own, i + 1)
    } else {
        0
    }
}

fn set_next<M: Memory>(job: Job, i: u32, epoch: u64, w: &mut M, p: u32, own: &OwnWords) -> Phase
    requires ready { RetireReady (M.mem w.old) p job (AtSetNext i epoch) own.now }
    ensures moved { RetireMoved p job (AtSetNext i epoch) (M.mem w.old) own.now result (M.mem w.new) }
    ensures unseen { M.seen w.new ≡ M.seen w.old }
{
    let next = u64::from(follower(job, i, own));
    store(w, p, retired_at(own, i), NEXT_RETIRED, next);
    after_next(job, i, epoch)
}

pub fn step_retire<M: Memory>(job: Job, s: Retire, w: &mut M, p: u32, own: &OwnWords) -> Phase
    requires ready { RetireReady (M.mem w.old) p job s own.now }
    ensures moved { RetireMoved p job s (M.mem w.old) own.now result (M.mem w.new) }
    ensures unseen { M.seen w.new ≡ M.seen w.old }
{
    match s {
        Retire::Epoch => {
            let epoch = load(w, p, HEADER, EPOCH);
            Phase::Retire(Retire::SetEpoch { epoch })
        }
        Retire::SetEpoch { epoch } => {
            store(w, p, HEADER, EPOCH, epoch + 1);
            after_epoch(job, epoch)
        }
        Retire::SetAt { i, epoch } => {
            store(w, p, retired_at(own, i), RETIRED_AT, epoch);
            Phase::Retire(Retire::SetNext { i, epoch })
        }
        Retire::SetNext { i, epoch } => set_next(job, i, epoch, w, p, own),
        Retire::Tail => after_tail(block_of(load(w, p, HEADER, LIMBO_TAIL))),
        Retire::SetHead => {
            store(w, p, HEADER, LIMBO_HEAD, u64::from(retired_at(own, 0)));
            Phase::Retire(Retire::SetTail)
        }
        Retire::Link { tail } => {
            store(w, p, tail, NEXT_RETIRED, u64::from(retired_at(own, 0)));
            Phase::Retire(Retire::SetTail)
        }
        Retire::SetTail => {
            let last = u64::from(retired_at(own, job.retired - 1));
            store(w, p, HEADER, LIMBO_TAIL, last);
            Phase::Retire(Retire::Fence)
        }
        Retire::Fence => {
            fence(w, p);
            Phase::Scan(Scan::ForLimit {
                q: 0,
                limit: u64::MAX,
            })
        }
    }
}
