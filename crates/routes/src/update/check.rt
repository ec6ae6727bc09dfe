// Check: is each piece clean, and is what it takes out there?
ghost use Rattle.std.specs.Prelude.{◌≡◌, ◌<◌, ◌≤◌};
ghost use Rattle.routes.specs.declared.update.check.Check.TheVariants.{Root as AtRoot, Slot as AtSlot, Route as AtRoute};
ghost use Rattle.routes.specs.Machine.Checks.{AtPiece, CleanIn, CheckReady, CheckMoved, piece_in, passed as passed_of, looked_at, entered, found_route, decided as decided_of};

use super::job::Job;
use super::obtain::Obtain;
use super::{Phase, UpdateNext};
use crate::access::load;
use crate::header::{HEADER, ROOT, unlock};
use crate::node::ROUTES;
use crate::prefix::Prefix;
use crate::refusal::{Refusal, make_prefix};
use crate::{Answer, Memory};
use own::{Earlier, OwnWords, last_before, piece_at};
use std::ops::ControlFlow::{Break, Continue};
use words::{block_of, nib, route_place};

// Piece k is in hand: at first it is looked at by itself, then looked up from the root down to its route.
#[derive(Clone, Copy)]
pub enum Check {
    Piece { k: u32 },
    Root { k: u32 },
    Slot { k: u32, level: u8, node: u32 },
    Route { k: u32, node: u32 },
    Reject { why: Refusal },
}

// Piece k of an update, which is not past its size, and its prefix, which is clean.
#[derive(Clone, Copy)]
struct InHand {
    job: Job,
    k: u32,
    prefix: Prefix,
    ghost at: { AtPiece job k },
}

impl InHand {
    // It has passed: on to the next, or to the blocks that all of them need.
    fn passed(self) -> UpdateNext
        ensures { result ≡ passed_of self.job self.k self.prefix.len }
    {
        let InHand { job, k, prefix } = self;
        let job = Job {
            need: job.need + u32::from(prefix.len) / 4 + 1,
            ..job
        };
        if k + 1 < job.size {
            Continue((job, Phase::Check(Check::Piece { k: k + 1 })))
        } else {
            Continue((job, Phase::Obtain(Obtain::Get)))
        }
    }

    // On from a node of this level on the way to its route; there is none where the way ends.
    fn enter(self, level: u8, node: u32) -> Result<UpdateNext, Refusal>
        ensures { result ≡ entered self.job self.k self.prefix.len level node }
    {
        let InHand { job, k, prefix } = self;
        if node == 0 {
            return Err(Refusal::AbsentRoute);
        }
        let next = if level == prefix.len / 4 {
            Check::Route { k, node }
        } else {
            Check::Slot { k, level, node }
        };
        Ok(Continue((job, Phase::Check(next))))
    }

    // Its route is there, or not.
    fn find_route(self, word: u64) -> Result<UpdateNext, Refusal>
        ensures { result ≡ found_route self.job self.k self.prefix.len word }
    {
        if word == 0 {
            return Err(Refusal::AbsentRoute);
        }
        Ok(self.passed())
    }
}

// What piece k comes to before anything is loaded.
fn look_at(job: Job, k: u32, own: &OwnWords) -> Result<UpdateNext, Refusal>
    requires { AtPiece job k }
    ensures { result ≡ looked_at job k own.now }
{
    let piece = piece_at(own, k);
    let prefix = make_prefix(piece.len, piece.bits)?;
    let hand = InHand { job, k, prefix };
    if piece.puts {
        return Ok(hand.passed());
    }
    match last_before(own, k) {
        Earlier::Put => Ok(hand.passed()),
        Earlier::Taken => Err(Refusal::AbsentRoute),
        Earlier::Never => Ok(Continue((job, Phase::Check(Check::Root { k })))),
    }
}

// A refusal leads to Reject.
fn decided(job: Job, r: Result<UpdateNext, Refusal>) -> UpdateNext
    ensures { result ≡ decided_of job r }
{
    r.unwrap_or_else(|why| Continue((job, Phase::Check(Check::Reject { why }))))
}

// The prefix of piece k, which is clean.
pub fn prefix_at(own: &OwnWords, k: u32) -> Prefix
    requires { (k < 8) × (CleanIn own.now k) }
    ensures { (result.len ≡ (piece_in own.now k).len) × ((result.bits ≡ (piece_in own.now k).bits) × (result.len ≤ 32)) }
{
    let piece = piece_at(own, k);
    Prefix {
        len: piece.len as u8,
        bits: piece.bits as u32,
    }
}

fn check_root<M: Memory>(job: Job, k: u32, w: &mut M, p: u32, own: &OwnWords) -> UpdateNext
    requires ready { CheckReady (M.mem w.old) p job (AtRoot k) own.now }
    ensures moved { CheckMoved p job (AtRoot k) (M.mem w.old) own.now result (M.mem w.new) }
    ensures unseen { M.seen w.new ≡ M.seen w.old }
{
    let hand = InHand {
        job,
        k,
        prefix: prefix_at(own, k),
    };
    let root = block_of(load(w, p, HEADER, ROOT));
    decided(job, hand.enter(0, root))
}

fn check_slot<M: Memory>(
    job: Job,
    k: u32,
    level: u8,
    node: u32,
    w: &mut M,
    p: u32,
    own: &OwnWords,
) -> UpdateNext
    requires ready { CheckReady (M.mem w.old) p job (AtSlot k level node) own.now }
    ensures moved { CheckMoved p job (AtSlot k level node) (M.mem w.old) own.now result (M.mem w.new) }
    ensures unseen { M.seen w.new ≡ M.seen w.old }
{
    let hand = InHand {
        job,
        k,
        prefix: prefix_at(own, k),
    };
    let child = block_of(load(w, p, node, nib(level, hand.prefix.bits)));
    decided(job, hand.enter(level + 1, child))
}

fn check_route<M: Memory>(
    job: Job,
    k: u32,
    node: u32,
    w: &mut M,
    p: u32,
    own: &OwnWords,
) -> UpdateNext
    requires ready { CheckReady (M.mem w.old) p job (AtRoute k node) own.now }
    ensures moved { CheckMoved p job (AtRoute k node) (M.mem w.old) own.now result (M.mem w.new) }
    ensures unseen { M.seen w.new ≡ M.seen w.old }
{
    let hand = InHand {
        job,
        k,
        prefix: prefix_at(own, k),
    };
    let place = ROUTES + route_place(hand.prefix.len, hand.prefix.bits);
    let word = load(w, p, node, place);
    decided(job, hand.find_route(word))
}

pub fn step_check<M: Memory>(job: Job, s: Check, w: &mut M, p: u32, own: &OwnWords) -> UpdateNext
    requires ready { CheckReady (M.mem w.old) p job s own.now }
    ensures moved { CheckMoved p job s (M.mem w.old) own.now result (M.mem w.new) }
    ensures unseen { M.seen w.new ≡ M.seen w.old }
{
    match s {
        Check::Piece { k } => decided(job, look_at(job, k, own)),
        Check::Root { k } => check_root(job, k, w, p, own),
        Check::Slot { k, level, node } => check_slot(job, k, level, node, w, p, own),
        Check::Route { k, node } => check_route(job, k, node, w, p, own),
        Check::Reject { why } => {
            let _was = unlock(w, p);
            Break(Answer::No(u8::from(why)))
        }
    }
}
