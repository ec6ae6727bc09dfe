// A list of moves as the schedule of a world.
use crate::list::MoveList;
use memory::LateStore;
use routes::act::Act;
use routes::{Answer, Piece};
use world::{Move, Schedule};

impl Schedule for MoveList<'_> {
    fn next(&mut self, busy: &[bool], pieces: &mut [Piece; 8]) -> Move {
        loop {
            if let Some(next) = self.advance(busy, pieces) {
                return next;
            }
        }
    }

    fn asked(&mut self, _cpu: u32, _act: Act, _reply: u64) {}

    fn arrived(&mut self, _cpu: u32, _store: LateStore) {}

    fn turned(&mut self, _cpu: u32) -> bool {
        self.turns = self.turns.saturating_add(1);
        true
    }

    fn told(&mut self, _cpu: u32, _answer: Answer) -> bool {
        true
    }
}
