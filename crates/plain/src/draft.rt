// The copy of a table that a change works on, with room for its pieces beyond what a table has.
ghost use Rattle.std.specs.Prelude.{◌≡◌, ◌≤◌, [], length};

use crate::entry::Entry;
use crate::size::SLOTS;
use arrayvec::ArrayVec;

mod edit;
mod pieces;

// That it has room is a clause, the one that push of an ArrayVec asks for.
#[derive(Drop)]
pub struct Draft {
    pub entries: ArrayVec<Entry, SLOTS>,
}

impl Draft {
    // No routes.
    pub fn new() -> Draft
        ensures { result.entries.items ≡ [] }
    {
        Draft {
            entries: ArrayVec::new(),
        }
    }

    // An empty draft has these entries then.
    pub fn fill(&mut self, entries: &[Entry])
        requires empty { self.old.entries.items ≡ [] }
        requires room { length entries.now ≤ 2056 }
        ensures { self.new.entries.items ≡ entries.now }
    {
        self.entries.try_extend_from_slice(entries).unwrap();
    }
}
