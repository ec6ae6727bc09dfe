// How large a memory may be.

// Of processors at most.
pub const MOST_CPUS: u32 = 16;
// The words of a block.
pub const BLOCK_WORDS: u32 = 48;
// Of blocks at most.
pub const MOST_BLOCKS: u32 = 1_048_576;
