// What processors ask goes to the memory, and the schedule is shown it.
ghost use Rattle.std.specs.Prelude.{◌≡◌, ◌<◌, T, length};
ghost use Rattle.routes.specs.Memory.{fenced, Arrives};
ghost use Rattle.memory.specs.Memories.{mem_of};
ghost use Rattle.world.specs.Journals.{seen_of};
ghost use Rattle.world.specs.Replies.{reply_of};

use crate::schedule::Schedule;
use crate::world::ScheduledWorld;
use routes::Memory;
use routes::act::Act;

// A block that was got and 1, or 0: one number, as a caller in C replies with it.
fn reply_of(got: Option<u32>) -> u64
    ensures { result ≡ reply_of got }
{
    got.map_or(0, |block| block as u64 + 1)
}

impl<S: Schedule> ScheduledWorld<'_, '_, '_, '_, '_, S> {
    // The oldest store of a processor arrives, if it has one; true if it had.
    pub(crate) fn arrive(&mut self, p: u32) -> bool
        ensures arrives { Arrives (mem_of self.old.memory.now) (mem_of self.new.memory.now) }
        ensures still { fenced p (mem_of self.new.memory.now) ≡ fenced p (mem_of self.old.memory.now) }
        ensures fewer { T result → length ((mem_of self.new.memory.now).late p) < length ((mem_of self.old.memory.now).late p) }
        ensures unseen { seen_of self.new.journal.now ≡ seen_of self.old.journal.now }
    {
        let Some(store) = self.memory.arrive_oldest(p) else {
            return false;
        };
        self.schedule.arrived(p, store);
        true
    }

    // The stores of a processor arrive, one by one, so that the schedule is shown each: memory's own loop shows none.
    fn arrive_each(&mut self, p: u32)
        ensures still { fenced p (mem_of self.new.memory.now) ≡ fenced p (mem_of self.old.memory.now) }
        ensures unseen { seen_of self.new.journal.now ≡ seen_of self.old.journal.now }
    {
        while self.arrive(p) {}
    }
}

impl<S: Schedule> Memory for ScheduledWorld<'_, '_, '_, '_, '_, S> {
    ghost mem = { λ w. mem_of w.memory.now };

    ghost seen = { λ w. seen_of w.journal.now };

    fn cpus(&self) -> u32 {
        self.memory.cpus()
    }

    fn blocks(&self) -> u32 {
        self.memory.blocks()
    }

    fn load(&mut self, p: u32, block: u32, word: u32) -> u64 {
        let x = self.memory.load(p, block, word);
        self.schedule.asked(p, Act::Load { block, word }, x);
        x
    }

    fn store(&mut self, p: u32, block: u32, word: u32, x: u64) {
        self.memory.store(p, block, word, x);
        self.schedule.asked(p, Act::Store { block, word, x }, 0);
    }

    fn fence(&mut self, p: u32) {
        self.arrive_each(p);
        self.memory.fence(p);
        self.schedule.asked(p, Act::Fence, 0);
    }

    fn swap(&mut self, p: u32, block: u32, word: u32, old: u64, new: u64) -> u64 {
        self.arrive_each(p);
        let was = self.memory.swap(p, block, word, old, new);
        self.schedule.asked(
            p,
            Act::Swap {
                block,
                word,
                old,
                new,
            },
            was,
        );
        was
    }

    fn obtain(&mut self, p: u32) -> Option<u32> {
        let got = self.memory.obtain(p);
        self.schedule.asked(p, Act::Obtain, reply_of(got));
        got
    }

    fn release(&mut self, p: u32, block: u32) {
        self.memory.release(p, block);
        self.schedule.asked(p, Act::Release { block }, 0);
    }
}
