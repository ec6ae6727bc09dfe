// A guard at run time: whether the next turn of a processor may be taken.
#![tactic(auto)]

mod ready;

pub use port::asks;
pub use ready::{Guard, NotAllowed, guarded_step, may_step};
