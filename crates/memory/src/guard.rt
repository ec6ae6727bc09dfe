// Whose turn it is, and whether what a processor would ask may be asked.
ghost use Rattle.std.specs.Prelude.{◌≡◌, ◌<◌, T};
ghost use Rattle.routes.specs.Memory.{MayTouch, MayRelease, allowed};
ghost use Rattle.memory.specs.Pools.{held_count};
ghost use Rattle.memory.specs.Memories.{MayAsk, mem_of};

use crate::shared::SharedMemory;
use crate::size::BLOCK_WORDS;

impl SharedMemory<'_> {
    // It is a processor's turn, with one thing to ask.
    pub fn allow(&mut self, p: u32)
        ensures { mem_of self.new ≡ allowed p (mem_of self.old) }
    {
        self.left = 1;
        self.who = p;
    }

    // How many blocks are held.
    pub fn held_blocks(&self) -> u32
        ensures { result ≡ held_count (mem_of self.now).blocks (mem_of self.now).held }
    {
        self.layout.blocks - self.free_count as u32
    }

    // May a processor ask for a fence or a block?
    pub fn may_ask(&self, p: u32) -> bool
        ensures sound { T result → MayAsk (mem_of self.now) p }
        ensures exact { MayAsk (mem_of self.now) p → T result }
    {
        0 < self.left && p == self.who && p < self.layout.cpus
    }

    // May it load, store or swap a word?
    pub fn may_touch(&self, p: u32, block: u32, word: u32) -> bool
        ensures sound { T result → MayTouch (mem_of self.now) p block word }
        ensures exact { MayTouch (mem_of self.now) p block word → T result }
    {
        self.may_ask(p)
            && block < self.layout.blocks
            && self.held[block as usize]
            && (word as usize) < BLOCK_WORDS
    }

    // May it give a block back?
    pub fn may_release(&self, p: u32, block: u32) -> bool
        ensures sound { T result → MayRelease (mem_of self.now) p block }
        ensures exact { MayRelease (mem_of self.now) p block → T result }
    {
        0 < block && self.may_touch(p, block, 0) && self.none_late_to(block)
    }
}
