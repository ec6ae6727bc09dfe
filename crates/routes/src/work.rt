// What a processor has under way, and how it begins.
ghost use Rattle.std.specs.Prelude.{◌≡◌};
ghost use Rattle.routes.specs.Machine.Begins.{noted as noted_of, begin_update, PiecesFit, StoredAs};

use super::Piece;
use super::lookup::Lookup;
use super::update::Phase;
use super::update::job::Job;
use own::{OwnWords, PieceWords, write_piece};

#[derive(Clone, Copy)]
pub enum Work {
    Idle,
    Lookup(Lookup),
    Update(Job, Phase),
}

// A piece as it stands among the own words.
impl From<Piece> for PieceWords {
    ghost from_gives = { StoredAs };

    fn from(piece: Piece) -> PieceWords {
        PieceWords {
            puts: piece.puts,
            len: u64::from(piece.len),
            bits: u64::from(piece.bits),
            tells: u64::from(piece.tells),
        }
    }
}

// All eight pieces of the lent row, among the own words.
pub fn note_pieces(own: &mut OwnWords, pieces: &[Piece; 8])
    ensures words { own.new ≡ noted_of pieces.now own.old 8 }
    ensures fits { PiecesFit pieces.now 8 }
{
    for (k, piece) in (0..).zip(pieces) {
        write_piece(own, k, PieceWords::from(*piece));
    }
}

// An update of so many pieces: it waits for the lock, or is turned away at once.
pub fn begin_update(size: u32) -> Work
    ensures { result ≡ begin_update size }
{
    let job = Job {
        size,
        ..Job::default()
    };
    if size == 0 || size > 8 {
        Work::Update(job, Phase::Refuse)
    } else {
        Work::Update(job, Phase::Lock)
    }
}
