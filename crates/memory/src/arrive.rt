// Stores arrive.
ghost use Rattle.std.specs.Prelude.{◌≡◌, ℕ, ◌<◌, length};
ghost use Rattle.routes.specs.Memory.{Arrives, oldest, fenced, stored};
ghost use Rattle.memory.specs.Words.{word_at};
ghost use Rattle.std.specs.Option.{option_map};
ghost use Rattle.memory.specs.Rings.{any_late, store_of, first_of};
ghost use Rattle.memory.specs.Memories.{mem_of};

use crate::row::{LateStore, Row, place_of, wrap};
use crate::shared::SharedMemory;
use crate::size::{BLOCK_WORDS, MOST_CPUS};

// Where a word of a block stands.
pub fn word_at(block: u32, word: u32) -> usize
    ensures { result ≡ word_at block word }
{
    BLOCK_WORDS * block as usize + word as usize
}

impl SharedMemory<'_> {
    // The oldest store of a processor arrives, and is handed back; none if it has none.
    pub fn arrive_oldest(&mut self, p: u32) -> Option<LateStore>
        ensures arrives { mem_of self.new ≡ oldest p ((mem_of self.old).late p) (mem_of self.old) }
        ensures told { option_map store_of result ≡ first_of ((mem_of self.old).late p) }
        ensures same { self.new.layout ≡ self.old.layout }
    {
        let i = p as usize;
        let row = *self.rows.get(i)?;
        let many = row.many.checked_sub(1)?;
        let store = self.late[MOST_CPUS * row.first + i];
        self.words[word_at(store.block, store.word)] = store.x;
        self.rows[i] = Row {
            first: wrap(self.layout.room, row.first + 1),
            many,
        };
        Some(store)
    }

    // The oldest store of a processor arrives; false if it has none.
    pub fn arrive(&mut self, p: u32) -> bool
        ensures arrives { mem_of self.new ≡ oldest p ((mem_of self.old).late p) (mem_of self.old) }
        ensures told { result ≡ any_late ((mem_of self.old).late p) }
        ensures same { self.new.layout ≡ self.old.layout }
    {
        self.arrive_oldest(p).is_some()
    }

    // All stores of a processor arrive.
    pub(crate) fn arrive_all(&mut self, p: u32)
        ensures { mem_of self.new ≡ fenced p (mem_of self.old) }
    {
        while self.arrive(p) {}
    }

    // A row that is full lets its oldest store arrive.
    // (p < 16 stays a clause: the calls of Memory, whose text is fixed, give a plain u32.)
    fn make_room(&mut self, p: u32)
        requires { p < 16 }
        ensures later { (b w x : ℕ) → Arrives (stored p b w x (mem_of self.old)) (stored p b w x (mem_of self.new)) }
        ensures room { length ((mem_of self.new).late p) < self.new.layout.room }
        ensures same { self.new.layout.blocks ≡ self.old.layout.blocks }
    {
        if self.rows[p as usize].many == self.layout.room {
            self.arrive(p);
        }
    }

    // A store is put behind the last of a row that has room for it.
    fn push(&mut self, p: u32, block: u32, word: u32, x: u64)
        requires whose { p < 16 }
        requires target { (block < self.old.layout.blocks) × (word < 48) }
        requires room { length ((mem_of self.old).late p) < self.old.layout.room }
        ensures { mem_of self.new ≡ stored p block word x (mem_of self.old) }
    {
        let i = p as usize;
        let Row { first, many } = self.rows[i];
        let at = place_of(self.layout.room, i, first, many);
        self.late[at] = LateStore { block, word, x };
        self.rows[i] = Row {
            first,
            many: many + 1,
        };
    }

    // A store is made: it is put behind the last of its row.
    pub(crate) fn append(&mut self, p: u32, block: u32, word: u32, x: u64)
        requires whose { p < 16 }
        requires target { (block < self.old.layout.blocks) × (word < 48) }
        ensures { Arrives (stored p block word x (mem_of self.old)) (mem_of self.new) }
    {
        self.make_room(p);
        self.push(p, block, word, x);
    }
}
