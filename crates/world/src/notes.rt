// What an event says, in words; no From, since pieces and answers are of another crate. A caller in Rust or C reads the kinds.
ghost use Rattle.std.specs.Prelude.{◌≡◌};
ghost use Rattle.world.specs.Notes.{first_word, second_word, piece_of, told_word, told_of};

use routes::{Answer, Piece};

// Whether a piece puts in or takes out, and its length.
pub fn first_word(piece: Piece) -> u64
    ensures value { result ≡ first_word piece }
{
    u64::from(piece.puts) + 2 * piece.len as u64
}

// Its bits, and what it tells.
pub fn second_word(piece: Piece) -> u64
    ensures value { result ≡ second_word piece }
    ensures back { piece_of (first_word piece) (second_word piece) ≡ piece }
{
    piece.bits as u64 + 0x1_0000_0000 * piece.tells as u64
}

// What was told.
pub fn told_word(answer: Answer) -> u64
    ensures value { result ≡ told_word answer }
    ensures back { told_of result ≡ answer }
{
    match answer {
        Answer::Nothing => 0,
        Answer::Done => 1,
        Answer::Full => 2,
        Answer::Found(len, tells) => 3 + 8 * len as u64 + 2048 * tells as u64,
        Answer::No(why) => 4 + 8 * why as u64,
    }
}
