// A memory is made of lent slices.
ghost use Rattle.std.specs.Prelude.{◌≡◌, ℕ, ◌-◌, ◌<◌, ◌≤◌, length, Some, MatchResult, ◌==◌, slice_index, slice_index_or};
ghost use Rattle.routes.specs.Memory.{AtStart};
ghost use Rattle.memory.specs.Words.{val_of};
ghost use Rattle.memory.specs.Pools.{held_of};
ghost use Rattle.memory.specs.Rings.{no_store};
ghost use Rattle.memory.specs.Layouts.{misfit, LentFor, LaidOut};
ghost use Rattle.memory.specs.Memories.{mem_of};

use crate::layout::{Layout, MemoryError};
use crate::lent::LentMemory;
use crate::row::{LateStore, Row};
use crate::shared::SharedMemory;
use crate::size::{BLOCK_WORDS, LEAST_BLOCKS, MOST_BLOCKS, MOST_CPUS};

impl Layout {
    // The layout of so many processors and blocks in slices that are as long as they have to be.
    pub fn new(
        cpus: u32,
        blocks: u32,
        words: &[u64],
        held: &[bool],
        free: &[u32],
        late: &[LateStore],
    ) -> Result<Layout, MemoryError>
        ensures { MatchResult result (LaidOut cpus blocks (length words.now) (length held.now) (length free.now) (length late.now)) (λ e. misfit cpus blocks (length words.now) (length held.now) (length free.now) (length late.now) ≡ Some e) }
    {
        if cpus == 0 || cpus as usize > MOST_CPUS {
            return Err(MemoryError::Cpus);
        }
        if !(LEAST_BLOCKS..=MOST_BLOCKS).contains(&blocks) {
            return Err(MemoryError::Blocks);
        }
        if words.len() != BLOCK_WORDS * blocks as usize {
            return Err(MemoryError::Words);
        }
        if held.len() != blocks as usize {
            return Err(MemoryError::Marks);
        }
        if free.len() != blocks as usize {
            return Err(MemoryError::Stack);
        }
        if late.is_empty() || late.len() % MOST_CPUS != 0 {
            return Err(MemoryError::Rows);
        }
        Ok(Layout {
            cpus,
            blocks,
            room: late.len() / MOST_CPUS,
        })
    }
}

// Block 0 is noughts.
fn clear_first(words: &mut [u64])
    requires { 48 ≤ length words.old }
    ensures noughts { (w : ℕ) → w < 48 → slice_index words.new w ≡ 0 }
    ensures kept { (i : ℕ) → 48 ≤ i → slice_index words.new i ≡ slice_index words.old i }
{
    words[..BLOCK_WORDS].fill(0);
}

// Block 0 is held, and no other.
fn hold_first(held: &mut [bool])
    requires { 0 < length held.old }
    ensures { (b : ℕ) → held_of held.new b ≡ (b == 0) }
{
    held.fill(false);
    held[0] = true;
}

// All others are on the stack, block 1 on top.
fn stack_others(free: &mut [u32], blocks: u32)
    requires { (length free.old ≡ blocks) × (0 < blocks) }
    ensures { (i : ℕ) → i < blocks - 1 → slice_index free.new i ≡ blocks - 1 - i }
{
    let others = blocks - 1;
    for (i, place) in free[..others as usize].iter_mut().enumerate() {
        *place = others - i as u32;
    }
}

// No row has a store.
fn clear_rows(late: &mut [LateStore])
    ensures { (i : ℕ) → slice_index_or late.new i no_store ≡ no_store }
{
    late.fill(LateStore::default());
}

impl<'a> SharedMemory<'a> {
    // A memory as it starts. Block 0 is noughts; the words of the others stay as they are.
    // It takes a layout that was made before: a Result of a memory, a struct with `&mut` and ghost fields, gets no proof.
    pub fn new(layout: Layout, lent: LentMemory<'a>) -> SharedMemory<'a>
        requires { LentFor layout (length lent.words.now) (length lent.held.now) (length lent.free.now) (length lent.late.now) }
        ensures starts { AtStart (mem_of result) }
        ensures sized { (result.layout ≡ layout) × ((mem_of result).left ≡ 0) }
        ensures kept { (b w : ℕ) → 0 < b → (mem_of result).val b w ≡ val_of lent.entry.words.now b w }
    {
        let LentMemory {
            words,
            held,
            free,
            late,
        } = lent;
        clear_first(words);
        hold_first(held);
        stack_others(free, layout.blocks);
        clear_rows(late);
        let rows = [Row { first: 0, many: 0 }; MOST_CPUS];
        let free_count = layout.blocks as usize - 1;
        SharedMemory {
            words,
            held,
            free,
            late,
            rows,
            layout,
            free_count,
            left: 0,
            who: 0,
        }
    }
}
