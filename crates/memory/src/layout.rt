// How many processors and blocks a memory has, and how long its rows are.
ghost use Rattle.std.specs.Prelude.{◌*◌, ◌<◌, ◌≤◌};

// Why slices cannot be a memory: its processors, its blocks, or the length of one of the slices is wrong.
#[derive(Clone, Copy)]
pub enum MemoryError {
    // 1 to 16 processors
    Cpus,
    // 256 to 1,048,576 blocks
    Blocks,
    // 48 words for each block
    Words,
    // a mark for each block
    Marks,
    // a place for each block
    Stack,
    // as many places, one at least, for each of 16 processors
    Rows,
}

#[derive(Clone, Copy)]
pub struct Layout {
    pub cpus: u32,
    pub blocks: u32,
    // so many stores of a processor can wait
    pub room: usize,
    ghost some: { 1 ≤ cpus },
    ghost few: { cpus ≤ 16 },
    ghost least: { 256 ≤ blocks },
    ghost most: { blocks ≤ 1048576 },
    ghost roomy: { 0 < room },
    ghost slots: { 16 * room < 18446744073709551616 },
}
