// The turns of a processor whose memory is elsewhere: what it asks next, and what it has when the reply is there.
#![tactic(auto)]

mod asking;
mod fields;
mod names;
mod ok;
mod registers;
mod reply;
mod turn;

pub use asking::asks;
pub use names::state_name;
pub use ok::work_ok;
pub use registers::{REGISTER_WORDS, RegisterWords, restore, save};
pub use turn::{NotReady, after, next_act};
