// Who takes turns, what begins, and which stores arrive.
use memory::LateStore;
use routes::act::Act;
use routes::{Answer, Ask, Piece};

// What comes next.
#[derive(Clone, Copy)]
pub enum Move {
    // Something begins on a processor; the pieces of a change stand in the lent row. Where it has something under way, this is passed over.
    Begin { cpu: u32, ask: Ask },
    // A turn of a processor. Where it has nothing under way, this is passed over.
    Go { cpu: u32 },
    // The oldest store of a processor arrives, if it has one.
    Arrive { cpu: u32 },
    // All is over.
    Over,
}

// Decides what comes next, and is shown what happens. Nothing is promised of it: a world is one whatever its schedule does.
pub trait Schedule {
    // What comes next, by which processors have something under way; the row is for the pieces of a change that begins.
    fn next(&mut self, busy: &[bool], pieces: &mut [Piece; 8]) -> Move;

    // A processor asked something of the memory in its turn, and this was the reply.
    fn asked(&mut self, cpu: u32, act: Act, reply: u64);

    // A store of a processor arrived.
    fn arrived(&mut self, cpu: u32, store: LateStore);

    // A turn of a processor is over; shall it go on?
    fn turned(&mut self, cpu: u32) -> bool;

    // A processor is told something; shall it go on?
    fn told(&mut self, cpu: u32, answer: Answer) -> bool;
}
