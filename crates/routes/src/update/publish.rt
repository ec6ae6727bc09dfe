// Publish: the new tree takes the place of the old one.
ghost use Rattle.std.specs.Prelude.{◌≡◌};
ghost use Rattle.routes.specs.Machine.Acts.{MayDo};
ghost use Rattle.routes.specs.Machine.Publishes.{PublishMoved, publish_act};

use super::Phase;
use super::job::Job;
use super::retire::Retire;
use crate::Memory;
use crate::access::{fence, store};
use crate::header::{HEADER, ROOT};

#[derive(Clone, Copy)]
pub enum Publish {
    // all new nodes have arrived
    FenceNodes,
    // the update takes effect when this store arrives
    SetRoot,
    // the root has arrived before the epoch is raised
    FenceRoot,
}

pub fn step_publish<M: Memory>(job: Job, s: Publish, w: &mut M, p: u32) -> Phase
    requires may { MayDo (M.mem w.old) p (publish_act job s) }
    ensures moved { PublishMoved p job s (M.mem w.old) result (M.mem w.new) }
    ensures unseen { M.seen w.new ≡ M.seen w.old }
{
    match s {
        Publish::FenceNodes => {
            fence(w, p);
            Phase::Publish(Publish::SetRoot)
        }
        Publish::SetRoot => {
            store(w, p, HEADER, ROOT, u64::from(job.root));
            Phase::Publish(Publish::FenceRoot)
        }
        Publish::FenceRoot => {
            fence(w, p);
            Phase::Retire(Retire::Epoch)
        }
    }
}
