// Rows of late stores are looked through, store by store. Places in a row are plain numbers, counted from its oldest store.
ghost use Rattle.std.specs.Prelude.{◌≡◌, ℕ, ◌+◌, ◌<◌, T, MatchOption, slice_index_or};
ghost use Rattle.routes.specs.Memory.{last_late, none_to};
ghost use Rattle.memory.specs.Rings.{no_store, place_of};
ghost use Rattle.memory.specs.Rows.{first_stores, stores_of};
ghost use Rattle.memory.specs.Memories.{mem_of};

use crate::late_row::LateRow;
use crate::row::{LateStore, place_of};
use crate::shared::SharedMemory;
use crate::size::MOST_CPUS;

impl LateRow<'_> {
    // The store that is k behind the oldest.
    fn store(&self, k: usize) -> LateStore
        requires { k < self.now.room }
        ensures { result ≡ slice_index_or self.now.late.now (place_of self.now.room self.now.p self.now.row.first k) no_store }
    {
        self.late[place_of(self.room, self.p, self.row.first, k)]
    }

    // What that store puts into a word, if it goes there.
    fn put_by(&self, k: usize, block: u32, word: u32) -> Option<u64>
        requires { k < self.now.room }
        ensures { MatchOption result ((old : ℕ) → last_late block word (first_stores self.now (k + 1)) old ≡ last_late block word (first_stores self.now k) old) (λ x. (old : ℕ) → last_late block word (first_stores self.now (k + 1)) old ≡ x) }
    {
        let store = self.store(k);
        (block == store.block && word == store.word).then_some(store.x)
    }

    // What the newest store to a word puts there, if there is one.
    pub fn newest(&self, block: u32, word: u32) -> Option<u64>
        ensures { MatchOption result ((old : ℕ) → last_late block word (stores_of self.now) old ≡ old) (λ x. (old : ℕ) → last_late block word (stores_of self.now) old ≡ x) }
    {
        // not find_map, with which search finds no proof
        for k in (0..self.row.many).rev() {
            if let Some(x) = self.put_by(k, block, word) {
                return Some(x);
            }
        }
        None
    }

    // Does no store go to a block?
    pub fn none_to(&self, block: u32) -> bool
        ensures { result ≡ none_to block (stores_of self.now) }
    {
        (0..self.row.many).all(|k| block != self.store(k).block)
    }
}

impl SharedMemory<'_> {
    // The row of a processor.
    pub(crate) fn late_row(&self, p: usize) -> LateRow<'_>
        requires { p < 16 }
        ensures { stores_of result ≡ (mem_of self.now).late p }
    {
        LateRow {
            late: self.late,
            room: self.layout.room,
            p,
            row: self.rows[p],
        }
    }

    // Does no store of any processor go to a block?
    pub(crate) fn none_late_to(&self, block: u32) -> bool
        ensures none { T result → (q : ℕ) → T (none_to block ((mem_of self.now).late q)) }
        ensures some { ((q : ℕ) → T (none_to block ((mem_of self.now).late q))) → T result }
    {
        (0..MOST_CPUS).all(|p| self.late_row(p).none_to(block))
    }
}
