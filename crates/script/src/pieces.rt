// The pieces of a change.
ghost use Rattle.std.specs.Prelude.{◌≡◌, slice_set};
ghost use Rattle.script.specs.Pieces.{put_of, take_of, piece_of, no_pieces, with_piece, change_of};

use crate::expected::Expected;
use crate::keyword::{Keyword, keyword_of};
use crate::line_words::Words;
use crate::reading::{read_count, read_prefix};
use routes::Piece;

// What stands where there is no piece.
pub const BLANK: Piece = Piece {
    puts: false,
    len: 0,
    bits: 0,
    tells: 0,
};

// How many pieces a change has, and the first eight.
// No ArrayVec: a processor is handed a row of eight, and more than eight are counted.
#[derive(Clone, Copy)]
pub struct Change {
    pub count: u32,
    pub pieces: [Piece; 8],
}

// A piece that puts a route in, after its first word.
fn put(mut words: Words) -> Result<Piece, Expected>
    ensures { result ≡ put_of words.entry.rest.now }
{
    let place = read_prefix(words.next())?;
    let tells = read_count(words.next())?;
    words.end(Expected::CommaOrEnd)?;
    Ok(Piece {
        puts: true,
        len: place.len,
        bits: place.bits,
        tells,
    })
}

// A piece that takes a route out, after its first word.
fn take(mut words: Words) -> Result<Piece, Expected>
    ensures { result ≡ take_of words.entry.rest.now }
{
    let place = read_prefix(words.next())?;
    words.end(Expected::CommaOrEnd)?;
    Ok(Piece {
        puts: false,
        len: place.len,
        bits: place.bits,
        tells: 0,
    })
}

fn read_piece(text: &[u8]) -> Result<Piece, Expected>
    ensures { result ≡ piece_of text.now }
{
    let mut words = Words::new(text);
    match keyword_of(words.next()) {
        Some(Keyword::Put) => put(words),
        Some(Keyword::Take) => take(words),
        _ => Err(Expected::Piece),
    }
}

// A piece goes into its place, if there is one; not by get_mut, of which no clause says what a write leaves.
fn put_at(pieces: &mut [Piece], at: usize, piece: Piece)
    ensures { pieces.new ≡ slice_set pieces.old at piece }
{
    if at < pieces.len() {
        pieces[at] = piece;
    }
}

impl Change {
    fn new() -> Change
        ensures { result ≡ no_pieces }
    {
        Change {
            count: 0,
            pieces: [BLANK; 8],
        }
    }

    // A piece more: all are counted, and the first eight are kept.
    fn keep(&mut self, piece: Piece)
        ensures { self.new ≡ with_piece self.old piece }
    {
        put_at(&mut self.pieces, self.count as usize, piece);
        self.count = self.count.saturating_add(1);
    }
}

// The pieces between commas.
pub fn read_change(text: &[u8]) -> Result<Change, Expected>
    ensures { result ≡ change_of text.now }
{
    let mut change = Change::new();
    for part in text.split(|b| *b == b',') {
        change.keep(read_piece(part)?);
    }
    Ok(change)
}
