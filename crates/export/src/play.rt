// A list of moves for programs in Rust or C, played by `turns` on a memory in lent slices.
ghost use Rattle.std.specs.Prelude.{◌≡◌, length};
ghost use Rattle.export.specs.Plays.{refused_number, WhyNot, PlayedBy, Unplayed};

use memory::{LateStore, LentMemory, MemoryError};
use moves::{Played, Refused, play_moves};

// How a list was played.
#[repr(C)]
#[derive(Clone, Copy)]
pub struct PlayedWords {
    // words of the list that were read
    pub moves: u64,
    // turns that were taken
    pub turns: u64,
    // events of the journal, and words noted of them
    pub events: u64,
    pub notes: u64,
    // what was to begin on a processor that had something under way
    pub passed: u64,
    // blocks that are held
    pub held: u32,
    pub spare: u32,
}

// The number of a refusal: a function and no From, since `Refused` and `u32` are both of other crates, and C programs alone know the numbers.
fn refused_number(refused: Refused) -> u32
    ensures { result ≡ refused_number refused }
{
    match refused {
        Refused::Memory(MemoryError::Cpus) => 1,
        Refused::Memory(MemoryError::Blocks) => 2,
        Refused::Memory(MemoryError::Words) => 3,
        Refused::Memory(MemoryError::Marks) => 4,
        Refused::Memory(MemoryError::Stack) => 5,
        Refused::Memory(MemoryError::Rows) => 6,
        Refused::Own => 7,
        Refused::Moves => 8,
    }
}

impl From<Played> for PlayedWords {
    ghost from_gives = { PlayedBy };

    fn from(played: Played) -> PlayedWords {
        PlayedWords {
            moves: played.moves as u64,
            turns: played.turns,
            events: played.events as u64,
            notes: played.noted as u64,
            passed: played.passed,
            held: played.held,
            spare: 0,
        }
    }
}

// Plays a list of moves from a fresh start; what was seen stands in the journal then. 0, or why it is not played, and then nothing is touched.
#[unsafe(no_mangle)]
pub extern "C" fn dezhavin_play(
    cpus: u32,
    blocks: u32,
    words: &mut [u64],
    held: &mut [bool],
    free: &mut [u32],
    late: &mut [LateStore],
    own: &mut [u64],
    moves: &[u64],
    kinds: &mut [u8],
    notes: &mut [u64],
    out: &mut PlayedWords,
) -> u32
    ensures why { WhyNot result (record { cpus = cpus; blocks = blocks; words = length words.old; held = length held.old; free = length free.old; late = length late.old; own = length own.old }) moves.now }
    ensures memory { Unplayed result ((words.new ≡ words.old) × (held.new ≡ held.old) × (free.new ≡ free.old) × (late.new ≡ late.old)) }
    ensures others { Unplayed result ((own.new ≡ own.old) × (kinds.new ≡ kinds.old) × (notes.new ≡ notes.old) × (out.new ≡ out.old)) }
{
    let lent = LentMemory {
        words,
        held,
        free,
        late,
    };
    match play_moves(cpus, blocks, lent, own, moves, kinds, notes) {
        Ok(played) => {
            *out = played.into();
            0
        }
        Err(refused) => refused_number(refused),
    }
}
