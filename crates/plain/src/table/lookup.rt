// Making a table, and asking it.
ghost use Rattle.std.specs.Prelude.{◌≡◌, ◌≤◌, [], take};
ghost use Rattle.routes.specs.Routes.{find};
ghost use Rattle.plain.specs.Tables.{table_routes};

use super::PlainTable;
use crate::entry::Entry;
use crate::size::ROOM;
use routes::Answer;

impl PlainTable {
    // A table with no routes.
    pub fn new() -> PlainTable
        ensures { table_routes result ≡ [] }
    {
        PlainTable {
            entries: [Entry::default(); ROOM],
            many: 0,
        }
    }

    // How many routes it has.
    pub fn len(&self) -> usize
        ensures value { result ≡ self.now.many }
        ensures fits { result ≤ 2048 }
    {
        self.many
    }

    // The entries of its routes.
    pub(super) fn used(&self) -> &[Entry]
        ensures { result.now ≡ take self.now.many self.now.entries }
    {
        &self.entries[..self.many]
    }

    // The longest route that fits an address, or nothing.
    pub fn find(&self, address: u32) -> Answer
        ensures { result ≡ find address (table_routes self.now) }
    {
        self.used()
            .iter()
            .filter(|e| e.fits(address))
            .max_by_key(|e| e.prefix.len)
            .map_or(Answer::Nothing, |e| Answer::Found(e.prefix.len, e.tells))
    }
}
