// A schedule that is a list of moves in words of 64 bits, for callers that are not scripts.
#![tactic(auto)]

mod list;
mod listed;
mod playing;
mod schedule;

pub use list::MoveList;
pub use listed::{Listed, all_moves, read_move};
pub use playing::{Played, Refused, play_moves};
