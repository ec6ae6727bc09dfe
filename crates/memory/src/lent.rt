// What a caller lends for a memory, in C too: slices side by side.
use crate::row::LateStore;

// The words of the blocks, a mark for each block, a place on the stack for each block, and 16 rows of late stores.
#[derive(Drop)]
pub struct LentMemory<'a> {
    pub words: &'a mut [u64],
    pub held: &'a mut [bool],
    pub free: &'a mut [u32],
    pub late: &'a mut [LateStore],
}
