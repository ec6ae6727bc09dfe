// Blocks are got from the pool and given back.
ghost use Rattle.std.specs.Prelude.{◌≡◌, ℕ, ◌-◌, ◌<◌, false, T, MatchOption, slice_index};
ghost use Rattle.routes.specs.Memory.{Arrives, Obtains, released};
ghost use Rattle.memory.specs.Pools.{held_of};
ghost use Rattle.memory.specs.Memories.{mem_of};

use crate::shared::SharedMemory;

impl SharedMemory<'_> {
    // The block on top of the stack, which nobody holds; none if all are held.
    fn top_free(&self) -> Option<u32>
        ensures top { MatchOption result (self.now.free_count ≡ 0) (λ b. (0 < self.now.free_count) × (b ≡ slice_index self.now.free.now (self.now.free_count - 1))) }
        ensures free { MatchOption result ((b : ℕ) → b < self.now.layout.blocks → T (held_of self.now.held.now b)) (λ b. (b < self.now.layout.blocks) × (held_of self.now.held.now b ≡ false)) }
    {
        let top = self.free_count.checked_sub(1)?;
        Some(self.free[top])
    }

    // A block is got.
    pub(crate) fn take_block(&mut self) -> Option<u32>
        requires { 0 < self.old.left }
        ensures { Obtains (mem_of self.old) result (mem_of self.new) }
    {
        self.left -= 1;
        let block = self.top_free()?;
        self.held[block as usize] = true;
        self.free_count -= 1;
        Some(block)
    }

    // A block is given back.
    pub(crate) fn put_back(&mut self, block: u32)
        requires inside { block < self.old.layout.blocks }
        requires held { T ((mem_of self.old).held block) }
        ensures { Arrives (released block (mem_of self.old)) (mem_of self.new) }
    {
        let top = self.free_count;
        self.free[top] = block;
        self.held[block as usize] = false;
        self.free_count = top + 1;
    }
}
