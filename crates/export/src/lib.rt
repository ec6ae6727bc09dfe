// What Rust and C programs call: plain numbers and lent words. Nothing that a caller passes is trusted.
#![tactic(auto)]

mod begin;
mod play;
mod processor;
mod refusal;
mod structs;
mod turn;

pub use play::PlayedWords;
pub use structs::{ActWords, ToldWords};
