// A lookup, a turn at a time.
ghost use Rattle.std.specs.Prelude.{◌≡◌, ◌+◌, ◌*◌, ◌<◌, ◌≤◌};
ghost use Rattle.words.specs.Slots.{InRange};
ghost use Rattle.routes.specs.Machine.Acts.{MayDo};
ghost use Rattle.routes.specs.declared.lookup.Lookup.TheVariants.{Node as AtNode};
ghost use Rattle.routes.specs.Machine.Lookups.{LookupOk, LookupMoved, lookup_act, after_root};
ghost use Rattle.routes.specs.Tree.Walks.{better as better_of};

use super::access::{load, swap};
use super::header::{ACTIVE, EPOCH, HEADER, ROOT};
use super::{Answer, Memory};
use std::ops::ControlFlow;
use std::ops::ControlFlow::{Break, Continue};
use words::{Slot, block_of, nib};

// Where a lookup is: its address, the epoch that it loaded, and on its way down the level, the node and the longest route so far, as it would be told.
#[derive(Clone, Copy)]
pub enum Lookup {
    Epoch {
        address: u32,
    },
    Announce {
        address: u32,
        epoch: u64,
    },
    Root {
        address: u32,
        epoch: u64,
    },
    Node {
        address: u32,
        epoch: u64,
        level: u8,
        node: u32,
        best: Answer,
    },
    Leave {
        epoch: u64,
        best: Answer,
    },
}

// A lookup that is still under way, or its answer.
pub type LookupNext = ControlFlow<Answer, Lookup>;

// The route of a slot at this level, if it has one, is longer than what was found above.
fn better(level: u8, slot: Slot, best: Answer) -> Answer
    requires { (level ≤ 8) × (InRange slot.fit) }
    ensures { result ≡ better_of level slot.fit best }
{
    slot.fit.map_or(best, |fit| Answer::Found(4 * level + fit.extra, fit.tells))
}

// From the root on, if there is one: else nothing is found.
fn after_root(address: u32, epoch: u64, root: u32) -> LookupNext
    ensures { result ≡ after_root address epoch root }
{
    if root == 0 {
        Continue(Lookup::Leave {
            epoch,
            best: Answer::Nothing,
        })
    } else {
        Continue(Lookup::Node {
            address,
            epoch,
            level: 0,
            node: root,
            best: Answer::Nothing,
        })
    }
}

// A slot of a node: on to its child, or the end of the way.
fn look_into<M: Memory>(
    address: u32,
    epoch: u64,
    level: u8,
    node: u32,
    best: Answer,
    w: &mut M,
    p: u32,
) -> LookupNext
    requires ok { LookupOk (AtNode address epoch level node best) }
    requires may { MayDo (M.mem w.old) p (lookup_act p (AtNode address epoch level node best)) }
    ensures moved { LookupMoved p (AtNode address epoch level node best) (M.mem w.old) result (M.mem w.new) }
    ensures unseen { M.seen w.new ≡ M.seen w.old }
{
    let slot = Slot::unpack(load(w, p, node, nib(level, address)));
    let best = better(level, slot, best);
    if slot.child == 0 || level == 8 {
        Continue(Lookup::Leave { epoch, best })
    } else {
        Continue(Lookup::Node {
            address,
            epoch,
            level: level + 1,
            node: slot.child,
            best,
        })
    }
}

pub fn step_lookup<M: Memory>(l: Lookup, w: &mut M, p: u32) -> LookupNext
    requires ok { LookupOk l }
    requires may { MayDo (M.mem w.old) p (lookup_act p l) }
    ensures moved { LookupMoved p l (M.mem w.old) result (M.mem w.new) }
    ensures unseen { M.seen w.new ≡ M.seen w.old }
{
    match l {
        Lookup::Epoch { address } => {
            let epoch = load(w, p, HEADER, EPOCH);
            Continue(Lookup::Announce { address, epoch })
        }
        Lookup::Announce { address, epoch } => {
            // all others see the announcement, for a swap is also a fence
            let _was = swap(w, p, HEADER, ACTIVE + p, 0, epoch + 1);
            Continue(Lookup::Root { address, epoch })
        }
        Lookup::Root { address, epoch } => {
            let root = block_of(load(w, p, HEADER, ROOT));
            after_root(address, epoch, root)
        }
        Lookup::Node {
            address,
            epoch,
            level,
            node,
            best,
        } => look_into(address, epoch, level, node, best, w, p),
        Lookup::Leave { epoch, best } => {
            let _was = swap(w, p, HEADER, ACTIVE + p, epoch + 1, 0);
            Break(best)
        }
    }
}
