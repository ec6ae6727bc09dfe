// Something begins, on a processor that has nothing under way.
ghost use Rattle.std.specs.Prelude.{◌≡◌, ◌<◌, length};
ghost use Rattle.routes.specs.declared.Ask.TheVariants.{Change, Find};
ghost use Rattle.export.specs.Begins.{Started, may_begin, Begun, BegunWith, may_update, piece_fits as piece_fits_of, pieces_fit as pieces_fit_of, piece_in, pieces_in};

use crate::refusal::{Refusal, load};
use own::OWN_WORDS;
use port::{RegisterWords, save};
use routes::lookup::Lookup;
use routes::work::Work;
use routes::{Ask, Cpu, Piece};
use std::array;
use words::low_half;

// Eight pieces, each with four words.
type PiecesWords = [u64; 32];

// Registers as a processor starts with them.
pub fn start(registers: &mut [u64]) -> Result<(), Refusal>
    ensures { Started registers.old result registers.new }
{
    let registers: &mut RegisterWords = registers.as_mut_array().ok_or(Refusal::Length)?;
    save(Cpu::new(), registers);
    Ok(())
}

// Has the processor nothing under way?
fn may_begin(registers: &RegisterWords) -> Result<(), Refusal>
    ensures { result ≡ may_begin registers.now }
{
    match load(registers)?.work {
        Work::Idle => Ok(()),
        _ => Err(Refusal::Busy),
    }
}

pub fn begin_lookup(registers: &mut [u64], address: u32) -> Result<(), Refusal>
    ensures may { result ≡ may_begin registers.old }
    ensures begun { Begun (Find address) registers.old result registers.new }
{
    let registers: &mut RegisterWords = registers.as_mut_array().ok_or(Refusal::Length)?;
    may_begin(registers)?;
    save(
        Cpu {
            work: Work::Lookup(Lookup::Epoch { address }),
        },
        registers,
    );
    Ok(())
}

fn piece_fits(words: &PiecesWords, k: usize) -> bool
    requires { k < 8 }
    ensures { result ≡ piece_fits_of words.now k }
{
    let at = 4 * k;
    words[at] < 2
        && words[at + 1] < 256
        && words[at + 2] < 0x1_0000_0000
        && words[at + 3] < 0x1_0000_0000
}

// Are the numbers of all pieces such as they can be? All are looked at before one is taken, as a call that is refused touches nothing.
fn pieces_fit(words: &PiecesWords) -> bool
    ensures { result ≡ pieces_fit_of words.now }
{
    (0..8).all(|k| piece_fits(words, k))
}

fn piece_in(words: &PiecesWords, k: usize) -> Piece
    requires { k < 8 }
    ensures { result ≡ piece_in words.now k }
{
    let at = 4 * k;
    Piece {
        puts: words[at] == 1,
        len: (words[at + 1] % 256) as u8,
        bits: low_half(words[at + 2]),
        tells: low_half(words[at + 3]),
    }
}

fn pieces_in(words: &PiecesWords) -> [Piece; 8]
    ensures { result ≡ pieces_in words.now }
{
    array::from_fn(|k| piece_in(words, k))
}

// An update can begin if the words and the pieces are such as they can be, and nothing is under way.
pub fn begin_update(
    registers: &mut [u64],
    own: &mut [u64],
    size: u32,
    pieces: &[u64],
) -> Result<(), Refusal>
    ensures may { result ≡ may_update registers.old own.old pieces.now }
    ensures begun { Begun (Change size) registers.old result registers.new }
    ensures noted { BegunWith (Change size) pieces.now own.old result own.new }
{
    if own.len() != OWN_WORDS {
        return Err(Refusal::Length);
    }
    let pieces: &PiecesWords = pieces.as_array().ok_or(Refusal::Length)?;
    if !pieces_fit(pieces) {
        return Err(Refusal::Value);
    }
    let registers: &mut RegisterWords = registers.as_mut_array().ok_or(Refusal::Length)?;
    may_begin(registers)?;
    let mut cpu = Cpu::new();
    cpu.begin(own, Ask::Change(size), &pieces_in(pieces));
    save(cpu, registers);
    Ok(())
}
