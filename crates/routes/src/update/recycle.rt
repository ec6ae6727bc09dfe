// Recycle: where the pool has no block left, the oldest retired node becomes a fresh block, once nobody can be reading it.
ghost use Rattle.std.specs.Prelude.{◌≡◌, ◌<◌, slice_set};
ghost use Rattle.own.specs.Layout.{fresh_at};
ghost use Rattle.routes.specs.declared.update.recycle.Recycle.TheVariants.{SetHead as AtSetHead};
ghost use Rattle.routes.specs.Machine.Recycles.{RecycleReady, RecycleMoved, oldest as oldest_of, unlinked as unlinked_of};

use super::job::Job;
use super::obtain::{gathering, undoing};
use super::scan::{GracePeriod, Scan};
use super::{Phase, UpdateNext};
use crate::Memory;
use crate::access::{load, store};
use crate::header::{HEADER, LIMBO_HEAD, LIMBO_TAIL};
use crate::node::{NEXT_RETIRED, RETIRED_AT};
use own::{OwnWords, keep_fresh};
use std::ops::ControlFlow::Continue;
use words::block_of;

// grace: what the scan has shown of the node.
#[derive(Clone, Copy)]
pub enum Recycle {
    Head,
    RetiredAt {
        node: u32,
    },
    Next {
        node: u32,
        grace: GracePeriod,
    },
    SetHead {
        node: u32,
        next: u32,
        grace: GracePeriod,
    },
    SetTail,
}

// The oldest retired node, if there is one: else there is no room for the update.
fn oldest(job: Job, node: u32) -> UpdateNext
    ensures { result ≡ oldest_of job node }
{
    if node == 0 {
        undoing(job)
    } else {
        Continue((job, Phase::Recycle(Recycle::RetiredAt { node })))
    }
}

// A node that nobody can be reading, by what the scan has shown, is a fresh block.
fn reuse(own: &mut OwnWords, at: u32, node: u32, _grace: GracePeriod)
    requires { at < 72 }
    ensures { own.new ≡ slice_set own.old (fresh_at at) node }
{
    keep_fresh(own, at, node);
}

// The head of limbo is what followed the node: if that was nothing, limbo has no tail either.
fn unlinked(job: Job, next: u32) -> UpdateNext
    ensures { result ≡ unlinked_of job next }
{
    if next == 0 {
        Continue((job, Phase::Recycle(Recycle::SetTail)))
    } else {
        gathering(job)
    }
}

fn set_head<M: Memory>(
    job: Job,
    node: u32,
    next: u32,
    grace: GracePeriod,
    w: &mut M,
    p: u32,
    own: &mut OwnWords,
) -> UpdateNext
    requires ready { RecycleReady (M.mem w.old) p job (AtSetHead node next grace) own.old }
    ensures moved { RecycleMoved p job (AtSetHead node next grace) (M.mem w.old) own.old result (M.mem w.new) own.new }
    ensures unseen { M.seen w.new ≡ M.seen w.old }
{
    store(w, p, HEADER, LIMBO_HEAD, u64::from(next));
    reuse(own, job.got, node, grace);
    unlinked(
        Job {
            got: job.got + 1,
            ..job
        },
        next,
    )
}

pub fn step_recycle<M: Memory>(
    job: Job,
    s: Recycle,
    w: &mut M,
    p: u32,
    own: &mut OwnWords,
) -> UpdateNext
    requires ready { RecycleReady (M.mem w.old) p job s own.old }
    ensures moved { RecycleMoved p job s (M.mem w.old) own.old result (M.mem w.new) own.new }
    ensures unseen { M.seen w.new ≡ M.seen w.old }
{
    match s {
        Recycle::Head => oldest(job, block_of(load(w, p, HEADER, LIMBO_HEAD))),
        Recycle::RetiredAt { node } => {
            let stamp = load(w, p, node, RETIRED_AT);
            Continue((job, Phase::Scan(Scan::ForNode { q: 0, node, stamp })))
        }
        Recycle::Next { node, grace } => {
            let next = block_of(load(w, p, node, NEXT_RETIRED));
            Continue((job, Phase::Recycle(Recycle::SetHead { node, next, grace })))
        }
        Recycle::SetHead { node, next, grace } => set_head(job, node, next, grace, w, p, own),
        Recycle::SetTail => {
            store(w, p, HEADER, LIMBO_TAIL, 0);
            gathering(job)
        }
    }
}
