// The pieces of a change, one after the other.
ghost use Rattle.std.specs.Prelude.{◌+◌, ◌<◌, ◌≤◌, length};
ghost use Rattle.arrayvec.specs.ArrayVec.{array_vec_len};
ghost use Rattle.plain.specs.Changes.{Applied, AppliedAll};
ghost use Rattle.plain.specs.Tables.{draft_routes};

use super::Draft;
use routes::{Piece, Refusal, make_prefix};

impl Draft {
    // One piece: a route is put in, or taken out, which must be there.
    #[tactic(auto, unfolding(routes::specs::Routes::piece))]
    pub fn apply(&mut self, piece: Piece) -> Result<(), Refusal>
        requires { array_vec_len self.old.entries < 2056 }
        ensures applied { Applied piece (draft_routes self.old) result (draft_routes self.new) }
        ensures more { array_vec_len self.new.entries ≤ array_vec_len self.old.entries + 1 }
    {
        let prefix = make_prefix(piece.len as u64, piece.bits as u64)?;
        if piece.puts {
            self.put_in(prefix, piece.tells);
        } else if self.contains(prefix) {
            self.take_out(prefix);
        } else {
            return Err(Refusal::AbsentRoute);
        }
        Ok(())
    }

    // All pieces, up to the first that is turned away.
    #[tactic(auto, unfolding(routes::specs::Routes::pieces))]
    pub fn apply_all(&mut self, pieces: &[Piece]) -> Result<(), Refusal>
        requires { array_vec_len self.old.entries + length pieces.now ≤ 2056 }
        ensures { AppliedAll pieces.now (draft_routes self.old) result (draft_routes self.new) }
    {
        for piece in pieces {
            self.apply(*piece)?;
        }
        Ok(())
    }
}
