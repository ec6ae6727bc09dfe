// The words of a node: which of them an address or a route has, and what a slot or a route word holds.
#![tactic(auto)]

mod address;
mod slot;

pub use address::{candidate, nib, route_place};
pub use slot::{Fit, Slot, best_fit, block_of, low_half, route_word, unpacks_what_it_packs};
