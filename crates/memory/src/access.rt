// What processors ask of the memory. Processors, blocks and words are plain numbers below the memory's counts, as the trait hands them over.
ghost use Rattle.std.specs.Prelude.{◌≡◌, ◌<◌, []};
ghost use Rattle.routes.specs.Memory.{MayTouch, Arrives, sees, fenced, swapped, counted};
ghost use Rattle.memory.specs.Memories.{mem_of};

use crate::arrive::word_at;
use crate::shared::SharedMemory;
use routes::Memory;

impl SharedMemory<'_> {
    // What a processor sees in a word.
    fn seen_by(&self, p: u32, block: u32, word: u32) -> u64
        requires { (p < 16) × ((block < self.now.layout.blocks) × (word < 48)) }
        ensures { result ≡ sees p block word (mem_of self.now) }
    {
        self.late_row(p as usize)
            .newest(block, word)
            .unwrap_or(self.words[word_at(block, word)])
    }

    // A fence, and then, if a word is old, it is new; what it was.
    fn exchange(&mut self, p: u32, block: u32, word: u32, old: u64, new: u64) -> u64
        requires { MayTouch (mem_of self.old) p block word }
        ensures was { result ≡ (fenced p (mem_of self.old)).val block word }
        ensures then { Arrives (counted (swapped p block word old new (mem_of self.old))) (mem_of self.new) }
    {
        self.left -= 1;
        self.arrive_all(p);
        let at = word_at(block, word);
        let was = self.words[at];
        if was == old {
            self.words[at] = new;
        }
        was
    }
}

impl Memory for SharedMemory<'_> {
    ghost mem = { mem_of };

    ghost seen = { λ _. [] };

    fn cpus(&self) -> u32 {
        self.layout.cpus
    }

    fn blocks(&self) -> u32 {
        self.layout.blocks
    }

    fn load(&mut self, p: u32, block: u32, word: u32) -> u64 {
        self.left -= 1;
        self.seen_by(p, block, word)
    }

    fn store(&mut self, p: u32, block: u32, word: u32, x: u64) {
        self.left -= 1;
        self.append(p, block, word, x);
    }

    fn fence(&mut self, p: u32) {
        self.left -= 1;
        self.arrive_all(p);
    }

    fn swap(&mut self, p: u32, block: u32, word: u32, old: u64, new: u64) -> u64 {
        self.exchange(p, block, word, old, new)
    }

    fn obtain(&mut self, _p: u32) -> Option<u32> {
        self.take_block()
    }

    fn release(&mut self, _p: u32, block: u32) {
        self.left -= 1;
        self.put_back(block);
    }
}
