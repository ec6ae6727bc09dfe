// Memory that many processors share, and the world that uses it, as traits; and the turns that they take.
#![tactic(auto)]

ghost use Rattle.std.specs.Prelude.{◌≡◌, ℕ, ◌+◌, ◌*◌, ◌<◌, ◌≤◌, T, List, [], ◌∷◌, length};
ghost use Rattle.routes.specs.Memory.{Mem, AtStart, MayTouch, MayRelease, Arrives, Obtains, sees, stored, fenced, swapped, released, counted, allowed};
ghost use Rattle.routes.specs.Routes.{Event, Told, Turned, Explained};
ghost use Rattle.routes.specs.Asked.{Next};
ghost use Rattle.routes.specs.Promise.{FindsLongest, OneRoute, OnlyWhatFits, OldestFirst};
ghost use Rattle.routes.specs.Examples.{ExamplesHold};
ghost use Rattle.routes.specs.Machine.Cpus.{Ready, Stepped, Begun};

mod access;
pub mod act;
pub mod header;
pub mod laws;
mod limits;
pub mod lookup;
pub mod node;
mod pool;
mod prefix;
mod refusal;
pub mod update;
pub mod work;

pub use limits::{BLOCK_WORDS, MOST_BLOCKS, MOST_CPUS};
use lookup::step_lookup;
use own::OwnWords;
pub use prefix::Prefix;
pub use refusal::{Refusal, UnknownRefusal, make_prefix};
use std::ops::ControlFlow::{Break, Continue};
use update::step_update;
use work::{Work, begin_update, note_pieces};

#[derive(Clone, Copy)]
pub enum Ask {
    Find(u32),
    Change(u32),
}

// One piece of a change: a route is put in, or taken out.
#[derive(Clone, Copy)]
pub struct Piece {
    pub puts: bool,
    pub len: u8,
    pub bits: u32,
    pub tells: u32,
}

#[derive(Clone, Copy)]
pub enum Answer {
    Found(u8, u32),
    Nothing,
    Done,
    Full,
    No(u8),
}

#[derive(Clone, Copy)]
pub enum Turn {
    Begin(Ask),
    Go,
    Over,
}

// What a processor may ask: the memory, and the pool of its blocks.
// Stores of any processor arrive, the oldest first, during each call.
pub trait Memory {
    ghost mem: { Self → Mem };

    ghost seen: { Self → List Event };

    fn cpus(&self) -> u32
        ensures { result ≡ (mem self.now).cpus };

    fn blocks(&self) -> u32
        ensures { result ≡ (mem self.now).blocks };

    fn load(&mut self, p: u32, block: u32, word: u32) -> u64
        requires { MayTouch (mem self.old) p block word }
        ensures { (result ≡ sees p block word (mem self.old)) × ((Arrives (counted (mem self.old)) (mem self.new)) × (seen self.new ≡ seen self.old)) };

    fn store(&mut self, p: u32, block: u32, word: u32, x: u64)
        requires { MayTouch (mem self.old) p block word }
        ensures { (Arrives (counted (stored p block word x (mem self.old))) (mem self.new)) × (seen self.new ≡ seen self.old) };
    // all that this processor stored has arrived
    fn fence(&mut self, p: u32)
        requires { (0 < (mem self.old).left) × ((p ≡ (mem self.old).who) × (p < (mem self.old).cpus)) }
        ensures { (Arrives (counted (fenced p (mem self.old))) (mem self.new)) × (seen self.new ≡ seen self.old) };
    // the same, and then, if the word is old, it's new, in one moment; what it was is handed back
    fn swap(&mut self, p: u32, block: u32, word: u32, old: u64, new: u64) -> u64
        requires { MayTouch (mem self.old) p block word }
        ensures { (result ≡ (fenced p (mem self.old)).val block word) × ((Arrives (counted (swapped p block word old new (mem self.old))) (mem self.new)) × (seen self.new ≡ seen self.old)) };
    // a block of the pool, which holds anything
    fn obtain(&mut self, p: u32) -> Option<u32>
        requires { (0 < (mem self.old).left) × ((p ≡ (mem self.old).who) × (p < (mem self.old).cpus)) }
        ensures { (Obtains (mem self.old) result (mem self.new)) × (seen self.new ≡ seen self.old) };

    fn release(&mut self, p: u32, block: u32)
        requires { MayRelease (mem self.old) p block }
        ensures { (Arrives (counted (released block (mem self.old))) (mem self.new)) × (seen self.new ≡ seen self.old) };
}

// What a processor doesn't see: whose turn it is, and who asks.
pub trait World: Memory {
    // which processor is next, with one thing to ask of the memory: something begins on one that has nothing under way, or one that has goes on
    fn next(&mut self, pieces: &mut [Piece]) -> (u32, Turn)
        requires { length pieces.old ≡ 8 }
        ensures { (Next result.1 result.0 pieces.new (Self.mem self.old) (Self.seen self.old) (Self.seen self.new)) × (Arrives (allowed result.0 (Self.mem self.old)) (Self.mem self.new)) };
    // It had a turn, and what it tells it may tell: that is the promise.
    // (Who notes it in finite memory may say that there's no more room; then all is over.)
    fn turned(&mut self, p: u32) -> bool
        requires { Explained (Self.mem self.old).cpus (Self.mem self.old).blocks (Turned p ∷ Self.seen self.old) }
        ensures { (Self.mem self.new ≡ Self.mem self.old) × ((T result → Self.seen self.new ≡ Turned p ∷ Self.seen self.old)) };

    fn told(&mut self, p: u32, a: Answer) -> bool
        requires { Explained (Self.mem self.old).cpus (Self.mem self.old).blocks (Told p a ∷ Self.seen self.old) }
        ensures { (Self.mem self.new ≡ Self.mem self.old) × ((T result → Self.seen self.new ≡ Told p a ∷ Self.seen self.old)) };
}

// What a processor has in its registers, beside 4,096 words of its own.
#[derive(Clone, Copy)]
pub struct Cpu {
    pub work: Work,
}

impl Cpu {
    // As it starts.
    pub fn new() -> Cpu
        ensures { result.work ≡ Work.Idle }
    {
        Cpu { work: Work::Idle }
    }

    // Something begins. Nothing is asked of the memory.
    pub fn begin(&mut self, own: &mut [u64], k: Ask, pieces: &[Piece])
        requires lent { (length own.old ≡ 4096) × (length pieces.now ≡ 8) }
        ensures begun { Begun k pieces.now own.old self.new own.new }
    {
        match k {
            Ask::Find(address) => {
                self.work = Work::Lookup(lookup::Lookup::Epoch { address });
            }
            Ask::Change(size) => {
                let Some(own) = own.as_mut_array() else {
                    unreachable!()
                };
                let Some(pieces) = pieces.as_array() else {
                    unreachable!()
                };
                note_pieces(own, pieces);
                self.work = begin_update(size);
            }
        }
    }

    // One turn, in which at most one thing is asked of the memory.
    pub fn step<M: Memory>(&mut self, w: &mut M, p: u32, own: &mut [u64]) -> Option<Answer>
        requires once { 1 ≤ (M.mem w.old).left }
        requires ready { Ready (M.mem w.old) p self.old own.old }
        ensures stepped { Stepped p (M.mem w.old) self.old own.old result (M.mem w.new) self.new own.new }
        ensures unseen { M.seen w.new ≡ M.seen w.old }
    {
        let Some(own) = own.as_mut_array() else {
            unreachable!()
        };
        self.take_turn(w, p, own)
    }

    // The same, on own words whose type says how many they are.
    fn take_turn<M: Memory>(&mut self, w: &mut M, p: u32, own: &mut OwnWords) -> Option<Answer>
        requires once { 1 ≤ (M.mem w.old).left }
        requires ready { Ready (M.mem w.old) p self.old own.old }
        ensures stepped { Stepped p (M.mem w.old) self.old own.old result (M.mem w.new) self.new own.new }
        ensures unseen { M.seen w.new ≡ M.seen w.old }
    {
        let next = match self.work {
            Work::Idle => return None,
            Work::Lookup(l) => step_lookup(l, w, p).map_continue(Work::Lookup),
            Work::Update(job, phase) => {
                let next = step_update(job, phase, w, p, own);
                next.map_continue(|(job, phase)| Work::Update(job, phase))
            }
        };
        match next {
            Continue(work) => {
                self.work = work;
                None
            }
            Break(answer) => {
                self.work = Work::Idle;
                Some(answer)
            }
        }
    }
}

// THE MAIN PROMISE. Whichever processors take turns, whatever they are asked, and whenever stores arrive.
// Its text is given, and so are the parameters of `begin` and `step`: loops and slices stay as they stand there.
pub fn turns<W: Memory + World>(
    w: &mut W,
    cpus: &mut [Cpu],
    own: &mut [u64],
    pieces: &mut [Piece],
    many: u64,
)
    requires starts { AtStart (W.mem w.old) }
    requires unseen { W.seen w.old ≡ [] }
    requires lent { (length cpus.old ≡ (W.mem w.old).cpus) × ((length own.old ≡ 4096 * (W.mem w.old).cpus) × (length pieces.old ≡ 8)) }
{
    for i in 0..cpus.len() {
        cpus[i] = Cpu::new();
    }
    let mut t: u64 = 0;
    while t < many {
        t += 1;
        let (p, turn) = w.next(pieces);
        match turn {
            Turn::Begin(k) => {
                let i = p as usize;
                let c = &mut cpus[i];
                c.begin(&mut own[i * 4096..i * 4096 + 4096], k, pieces);
            }
            Turn::Go => {
                let i = p as usize;
                let c = &mut cpus[i];
                let a = c.step(w, p, &mut own[i * 4096..i * 4096 + 4096]);
                if !w.turned(p) {
                    return;
                }
                if let Some(x) = a {
                    if !w.told(p, x) {
                        return;
                    }
                }
            }
            Turn::Over => {
                return;
            }
        }
    }
}

// A processor's registers are few; what is more is its words.
pub fn cpu_is_small() -> bool
    ensures { T result }
{
    std::mem::size_of::<Cpu>() <= 256
}

// What is promised beside, each a theorem that a contract names.
pub fn finds_longest() -> u8
    ensures { FindsLongest }
{
    0
}

pub fn one_route() -> u8
    ensures { (OneRoute) × (OnlyWhatFits) }
{
    0
}

pub fn oldest_first() -> u8
    ensures { OldestFirst }
{
    0
}

// The worked examples come out as they should.
pub fn examples_hold() -> u8
    ensures { ExamplesHold }
{
    0
}
