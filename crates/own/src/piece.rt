// The pieces of a change, as they were asked for.
ghost use Rattle.std.specs.Prelude.{◌≡◌, ◌<◌, length};
ghost use Rattle.own.specs.Layout.{words_of};
ghost use Rattle.own.specs.Pieces.{piece_of, piece_written, later_of, earlier_of, ReadsWhatItWrote};

use super::layout::{OwnWords, piece_word_at};

// A piece as it was asked for; nothing is known of its numbers yet.
#[derive(Clone, Copy)]
pub struct PieceWords {
    pub puts: bool,
    pub len: u64,
    pub bits: u64,
    pub tells: u64,
}

// What earlier pieces of a change do with a route.
#[derive(Clone, Copy)]
pub enum Earlier {
    Never,
    Put,
    Taken,
}

// Writes a piece as number k.
#[tactic(auto, unfolding(crate::specs::Pieces::piece_written))]
pub fn write_piece(own: &mut OwnWords, k: u32, piece: PieceWords)
    requires { k < 8 }
    ensures { own.new ≡ piece_written own.old k piece }
{
    own[piece_word_at(k, 0)] = u64::from(piece.puts);
    own[piece_word_at(k, 1)] = piece.len;
    own[piece_word_at(k, 2)] = piece.bits;
    own[piece_word_at(k, 3)] = piece.tells;
}

// Piece k.
pub fn piece_at(own: &OwnWords, k: u32) -> PieceWords
    requires { k < 8 }
    ensures { result ≡ piece_of (words_of own.now) k }
{
    PieceWords {
        puts: own[piece_word_at(k, 0)] != 0,
        len: own[piece_word_at(k, 1)],
        bits: own[piece_word_at(k, 2)],
        tells: own[piece_word_at(k, 3)],
    }
}

// What is done with the route of a piece, after another piece.
fn later(seen: Earlier, piece: PieceWords, other: PieceWords) -> Earlier
    ensures { result ≡ later_of seen piece other }
{
    if piece.len == other.len && piece.bits == other.bits {
        if other.puts {
            Earlier::Put
        } else {
            Earlier::Taken
        }
    } else {
        seen
    }
}

// What the last piece before k does that has the length and bits of piece k.
pub fn last_before(own: &OwnWords, k: u32) -> Earlier
    requires { k < 8 }
    ensures { result ≡ earlier_of (words_of own.now) (piece_of (words_of own.now) k) k }
{
    let piece = piece_at(own, k);
    let mut seen = Earlier::Never;
    for j in 0..k {
        seen = later(seen, piece, piece_at(own, j));
    }
    seen
}

// A piece that was written is read as it was, and other pieces stay.
pub fn reads_what_it_wrote() -> u8
    ensures { ReadsWhatItWrote }
{
    0
}
