// The memory itself.
ghost use Rattle.std.specs.Prelude.{◌≡◌, ◌*◌, length};
ghost use Rattle.memory.specs.Pools.{StackFree, StackApart, AllCounted};
ghost use Rattle.memory.specs.Rings.{RowsIn, StoresIn};

use crate::layout::Layout;
use crate::row::{LateStore, Row};
use crate::size::MOST_CPUS;

// The words of the blocks, a mark for each block that is held, the stack of those that are free, and 16 rows of late stores; side by side, since the facts below name each.
#[derive(Drop)]
pub struct SharedMemory<'a> {
    pub(crate) words: &'a mut [u64],
    pub(crate) held: &'a mut [bool],
    pub(crate) free: &'a mut [u32],
    pub(crate) late: &'a mut [LateStore],
    pub(crate) rows: [Row; MOST_CPUS],
    pub(crate) layout: Layout,
    // how many blocks are free; a count beside the stack, which the caller lends
    pub(crate) free_count: usize,
    // how often it may still be asked in this turn
    pub(crate) left: u32,
    // whose turn it is
    pub(crate) who: u32,
    ghost wide: { length words.now ≡ 48 * layout.blocks },
    ghost marked: { length held.now ≡ layout.blocks },
    ghost stacked: { length free.now ≡ layout.blocks },
    ghost rowed: { length late.now ≡ 16 * layout.room },
    ghost sixteen: { length rows ≡ 16 },
    ghost unheld: { StackFree layout.blocks held.now free.now free_count },
    ghost apart: { StackApart free.now free_count },
    ghost counted: { AllCounted layout.blocks held.now free_count },
    ghost inside: { RowsIn layout.room rows },
    ghost bound: { StoresIn layout.blocks late.now },
}
