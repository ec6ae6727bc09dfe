// How large a memory is.

// words of a block
pub const BLOCK_WORDS: usize = routes::BLOCK_WORDS as usize;
// of processors at most, and of rows
pub const MOST_CPUS: usize = routes::MOST_CPUS as usize;
// of blocks
pub const LEAST_BLOCKS: u32 = 256;

pub use routes::MOST_BLOCKS;
