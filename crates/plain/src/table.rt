// The table.
ghost use Rattle.std.specs.Prelude.{◌≡◌, ◌≤◌, length};

use crate::entry::Entry;
use crate::size::ROOM;

mod lookup;
mod update;

// Its routes are the first so many entries, the newest last. An array with a count beside it: no ArrayVec is Copy, and a table is.
#[derive(Clone, Copy)]
pub struct PlainTable {
    entries: [Entry; ROOM],
    many: usize,
    ghost room: { many ≤ 2048 },
    ghost slots: { length entries ≡ 2048 },
}
