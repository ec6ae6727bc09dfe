// Whose turn it is, what begins, and what is told.
ghost use Rattle.std.specs.Prelude.{◌≡◌, ◌<◌, not, T};
ghost use Rattle.routes.specs.Asked.{Next};
ghost use Rattle.routes.specs.Memory.{allowed, Arrives};
ghost use Rattle.routes.specs.Routes.{under};
ghost use Rattle.memory.specs.Memories.{mem_of};
ghost use Rattle.world.specs.Journals.{seen_of};

use crate::schedule::{Move, Schedule};
use crate::world::ScheduledWorld;
use routes::{Answer, Ask, Memory, Piece, Turn, World};

impl<S: Schedule> ScheduledWorld<'_, '_, '_, '_, '_, S> {
    // Is there such a processor, with nothing under way? One function for each question, as each lets another fact be concluded.
    fn may_begin(&self, p: u32) -> bool
        ensures { T result → (p < (mem_of self.now.memory.now).cpus) × T (not (under p (seen_of self.now.journal.now))) }
    {
        p < self.memory.cpus() && !self.busy[p as usize]
    }

    // Is there such a processor, with something under way?
    fn may_go(&self, p: u32) -> bool
        ensures { T result → (p < (mem_of self.now.memory.now).cpus) × T (under p (seen_of self.now.journal.now)) }
    {
        p < self.memory.cpus() && self.busy[p as usize]
    }

    // Something begins on a processor, unless there is no room to note it.
    fn begin(&mut self, p: u32, ask: Ask, pieces: &[Piece; 8]) -> (u32, Turn)
        requires { (p < (mem_of self.old.memory.now).cpus) × T (not (under p (seen_of self.old.journal.now))) }
        ensures next { Next result.1 result.0 pieces.now (mem_of self.old.memory.now) (seen_of self.old.journal.now) (seen_of self.new.journal.now) }
        ensures allowed { mem_of self.new.memory.now ≡ allowed result.0 (mem_of self.old.memory.now) }
    {
        if !self.journal.asked(p, ask, pieces) {
            return self.give(0, Turn::Over);
        }
        self.busy[p as usize] = true;
        self.memory.allow(p);
        (p, Turn::Begin(ask))
    }

    // A turn of a processor, or 0 where all is over, with one thing to ask.
    fn give(&mut self, p: u32, turn: Turn) -> (u32, Turn)
        ensures next { result ≡ (p, turn) }
        ensures unseen { seen_of self.new.journal.now ≡ seen_of self.old.journal.now }
        ensures allowed { mem_of self.new.memory.now ≡ allowed result.0 (mem_of self.old.memory.now) }
    {
        self.memory.allow(p);
        (p, turn)
    }

    // What the schedule says next, of what may be.
    fn next_turn(&mut self, pieces: &mut [Piece; 8]) -> (u32, Turn)
        ensures next { Next result.1 result.0 pieces.new (mem_of self.old.memory.now) (seen_of self.old.journal.now) (seen_of self.new.journal.now) }
        ensures arrives { Arrives (allowed result.0 (mem_of self.old.memory.now)) (mem_of self.new.memory.now) }
    {
        // a count, since nothing is known of a schedule: it may ask for ever for what may not be
        for _ in 0..u64::MAX {
            match self.schedule.next(&self.busy, pieces) {
                Move::Begin { cpu, ask } => {
                    if self.may_begin(cpu) {
                        return self.begin(cpu, ask, pieces);
                    }
                }
                Move::Go { cpu } => {
                    if self.may_go(cpu) {
                        return self.give(cpu, Turn::Go);
                    }
                }
                Move::Arrive { cpu } => {
                    self.arrive(cpu);
                }
                Move::Over => break,
            }
        }
        self.give(0, Turn::Over)
    }
}

impl<S: Schedule> World for ScheduledWorld<'_, '_, '_, '_, '_, S> {
    fn next(&mut self, pieces: &mut [Piece]) -> (u32, Turn) {
        match pieces.as_mut_array() {
            Some(row) => self.next_turn(row),
            // a row of another length is lent by no caller
            None => self.give(0, Turn::Over),
        }
    }

    fn turned(&mut self, p: u32) -> bool {
        if !self.journal.turned(p) {
            return false;
        }
        self.schedule.turned(p)
    }

    fn told(&mut self, p: u32, a: Answer) -> bool {
        if !self.journal.told(p, a) {
            return false;
        }
        self.busy[p as usize] = false;
        self.schedule.told(p, a)
    }
}
