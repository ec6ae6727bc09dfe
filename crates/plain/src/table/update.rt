// Changing a table.
ghost use Rattle.std.specs.Prelude.{◌≡◌, []};
ghost use Rattle.plain.specs.Changes.{Changed, Drafted, Kept};
ghost use Rattle.plain.specs.Tables.{table_routes};

use super::PlainTable;
use crate::change_error::ChangeError;
use crate::draft::Draft;
use crate::entry::Entry;
use crate::size::{MOST_PIECES, ROOM};
use routes::{Piece, Refusal};

impl PlainTable {
    // All pieces of a change, one after the other, or none: a table that is not changed is as it was.
    pub fn change(&mut self, pieces: &[Piece]) -> Result<(), ChangeError>
        ensures { Changed pieces.now self.old result self.new }
    {
        let mut draft = Draft::new();
        self.drafted(pieces, &mut draft)?;
        self.keep(&draft.entries)
    }

    // A draft that is empty becomes a copy after all the pieces, which may have more routes than a table has room for.
    // It is the caller's: a draft is large, and a result with one in it would be copied on its way.
    fn drafted(&self, pieces: &[Piece], draft: &mut Draft) -> Result<(), Refusal>
        requires { draft.old.entries.items ≡ [] }
        ensures { Drafted pieces.now (table_routes self.now) result draft.new }
    {
        if pieces.is_empty() || pieces.len() > MOST_PIECES {
            return Err(Refusal::PieceCount);
        }
        draft.fill(self.used());
        draft.apply_all(pieces)
    }

    // The entries of a draft are the table's, if there is room for them.
    fn keep(&mut self, entries: &[Entry]) -> Result<(), ChangeError>
        ensures { Kept entries.now self.old result self.new }
    {
        if entries.len() > ROOM {
            return Err(ChangeError::NoRoom);
        }
        for (i, entry) in entries.iter().enumerate() {
            self.entries[i] = *entry;
        }
        self.many = entries.len();
        Ok(())
    }
}
