// A world in memory: the memory of crates/memory, a schedule that says whose turn it is and what begins, and a journal of what was seen.
#![tactic(auto)]

mod access;
mod journal;
mod notes;
mod playing;
mod schedule;
mod turn;
mod world;

pub use journal::{ASKED_CHANGE, ASKED_FIND, Journal, TOLD};
pub use playing::play;
pub use schedule::{Move, Schedule};
pub use world::ScheduledWorld;
