// Reclaim: retired nodes that nobody can be reading go back to the pool, the oldest first.
ghost use Rattle.std.specs.Prelude.{◌≡◌};
ghost use Rattle.routes.specs.declared.act.Act.TheVariants.{Release};
ghost use Rattle.routes.specs.Machine.Acts.{MayDo, Did};
ghost use Rattle.routes.specs.Machine.Reclaims.{ReclaimMoved, reclaim_act, oldest as oldest_of, stamped as stamped_of, released as released_of, unlinked as unlinked_of};

use super::Phase;
use super::finish::finishing;
use super::job::Job;
use super::scan::GracePeriod;
use crate::Memory;
use crate::access::{give_back, load, store};
use crate::header::{HEADER, LIMBO_HEAD, LIMBO_TAIL};
use crate::node::{NEXT_RETIRED, RETIRED_AT};
use words::block_of;

// One update gives back at most so many, more than it can retire.
pub const MOST_RELEASED: u32 = 2048;

// grace: what the scan has shown. left: how many may still go.
// Each state names its own registers, as they stand in words that C programs keep, and hands them on one by one.
#[derive(Clone, Copy)]
pub enum Reclaim {
    Head {
        grace: GracePeriod,
        left: u32,
    },
    RetiredAt {
        grace: GracePeriod,
        left: u32,
        node: u32,
    },
    Next {
        grace: GracePeriod,
        left: u32,
        node: u32,
    },
    SetHead {
        grace: GracePeriod,
        left: u32,
        node: u32,
        next: u32,
    },
    SetTail {
        grace: GracePeriod,
        left: u32,
        node: u32,
    },
    Release {
        grace: GracePeriod,
        left: u32,
        node: u32,
    },
}

// A node that nobody can be reading, by what the scan has shown, goes back to the pool.
fn release<M: Memory>(w: &mut M, p: u32, node: u32, _grace: GracePeriod)
    requires { MayDo (M.mem w.old) p (Release node) }
    ensures did { Did p (Release node) (M.mem w.old) 0 (M.mem w.new) }
    ensures unseen { M.seen w.new ≡ M.seen w.old }
{
    give_back(w, p, node);
}

// The head of limbo is what followed the node: if that was nothing, limbo has no tail either.
fn unlinked(grace: GracePeriod, left: u32, node: u32, next: u32) -> Phase
    ensures { result ≡ unlinked_of grace left node next }
{
    if next == 0 {
        Phase::Reclaim(Reclaim::SetTail { grace, left, node })
    } else {
        Phase::Reclaim(Reclaim::Release { grace, left, node })
    }
}

// One of those left has gone: on to the next, or to the end.
fn released(job: Job, grace: GracePeriod, left: u32) -> Phase
    ensures { result ≡ released_of job grace left }
{
    if left > 1 {
        Phase::Reclaim(Reclaim::Head {
            grace,
            left: left - 1,
        })
    } else {
        finishing(job)
    }
}

// The oldest retired node, if there is one: else the update is at its end.
fn oldest(job: Job, grace: GracePeriod, left: u32, node: u32) -> Phase
    ensures { result ≡ oldest_of job grace left node }
{
    if node == 0 {
        finishing(job)
    } else {
        Phase::Reclaim(Reclaim::RetiredAt { grace, left, node })
    }
}

// It was retired in this epoch: it may go, or none may that is in limbo.
fn stamped(job: Job, grace: GracePeriod, left: u32, node: u32, stamp: u64) -> Phase
    ensures { result ≡ stamped_of job grace left node stamp }
{
    if grace.covers(stamp) {
        Phase::Reclaim(Reclaim::Next { grace, left, node })
    } else {
        finishing(job)
    }
}

pub fn step_reclaim<M: Memory>(job: Job, s: Reclaim, w: &mut M, p: u32) -> Phase
    requires may { MayDo (M.mem w.old) p (reclaim_act s) }
    ensures moved { ReclaimMoved p job s (M.mem w.old) result (M.mem w.new) }
    ensures unseen { M.seen w.new ≡ M.seen w.old }
{
    match s {
        Reclaim::Head { grace, left } => {
            let node = block_of(load(w, p, HEADER, LIMBO_HEAD));
            oldest(job, grace, left, node)
        }
        Reclaim::RetiredAt { grace, left, node } => {
            let stamp = load(w, p, node, RETIRED_AT);
            stamped(job, grace, left, node, stamp)
        }
        Reclaim::Next { grace, left, node } => {
            let next = block_of(load(w, p, node, NEXT_RETIRED));
            Phase::Reclaim(Reclaim::SetHead {
                grace,
                left,
                node,
                next,
            })
        }
        Reclaim::SetHead {
            grace,
            left,
            node,
            next,
        } => {
            store(w, p, HEADER, LIMBO_HEAD, u64::from(next));
            unlinked(grace, left, node, next)
        }
        Reclaim::SetTail { grace, left, node } => {
            store(w, p, HEADER, LIMBO_TAIL, 0);
            Phase::Reclaim(Reclaim::Release { grace, left, node })
        }
        Reclaim::Release { grace, left, node } => {
            release(w, p, node, grace);
            released(job, grace, left)
        }
    }
}
