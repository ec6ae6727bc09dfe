// A memory that processors share, in memory: lent slices, with the stores of each processor arriving late.
#![tactic(auto)]

mod access;
mod arrive;
mod guard;
mod late_row;
mod layout;
mod lent;
mod look;
mod pool;
mod row;
mod shared;
mod size;
mod start;

pub use layout::{Layout, MemoryError};
pub use lent::LentMemory;
pub use row::LateStore;
pub use shared::SharedMemory;
pub use size::{BLOCK_WORDS, LEAST_BLOCKS, MOST_BLOCKS, MOST_CPUS};
