// What one turn asks of the memory.
#[derive(Clone, Copy)]
pub enum Act {
    Load {
        block: u32,
        word: u32,
    },
    Store {
        block: u32,
        word: u32,
        x: u64,
    },
    Fence,
    Swap {
        block: u32,
        word: u32,
        old: u64,
        new: u64,
    },
    Obtain,
    Release {
        block: u32,
    },
    // nothing is asked
    Pause,
}
