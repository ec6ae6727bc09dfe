// A list of moves is played by `turns` on a fresh memory in lent slices.
ghost use Rattle.std.specs.Prelude.{◌≡◌, length, IfErr, MatchResult, OnErr};
ghost use Rattle.moves.specs.declared.playing.Refused.TheVariants.{Memory};
ghost use Rattle.moves.specs.Plays.{Playable, RefusedFor};

use crate::list::MoveList;
use crate::listed::all_moves;
use memory::{Layout, LentMemory, MemoryError, SharedMemory};
use own::OWN_WORDS;
use world::{Journal, play};

// Why a list is not played.
#[derive(Clone, Copy)]
pub enum Refused {
    // the slices cannot be a memory
    Memory(MemoryError),
    // not 4,096 own words for each processor
    Own,
    // the list has something that is no move
    Moves,
}

impl From<MemoryError> for Refused {
    ghost from_gives = { λ e r. r ≡ Memory e };

    fn from(error: MemoryError) -> Refused {
        Refused::Memory(error)
    }
}

// How a list was played.
#[derive(Clone, Copy)]
pub struct Played {
    // words of the list that were read
    pub moves: usize,
    // turns that were taken
    pub turns: u64,
    // what was to begin on a processor that had something under way
    pub passed: u64,
    // events of the journal, and words noted of them
    pub events: usize,
    pub noted: usize,
    // blocks that are held
    pub held: u32,
}

// The layout of slices in which a list can be played.
fn layout_for(
    cpus: u32,
    blocks: u32,
    lent: &LentMemory<'_>,
    own: &[u64],
    moves: &[u64],
) -> Result<Layout, Refused>
    ensures { MatchResult result (Playable (record { cpus = cpus; blocks = blocks; words = length lent.now.words.now; held = length lent.now.held.now; free = length lent.now.free.now; late = length lent.now.late.now; own = length own.now }) moves.now) (RefusedFor (record { cpus = cpus; blocks = blocks; words = length lent.now.words.now; held = length lent.now.held.now; free = length lent.now.free.now; late = length lent.now.late.now; own = length own.now }) moves.now) }
{
    let layout = Layout::new(cpus, blocks, lent.words, lent.held, lent.free, lent.late)?;
    if own.len() != OWN_WORDS * cpus as usize {
        return Err(Refused::Own);
    }
    if !all_moves(moves, cpus) {
        return Err(Refused::Moves);
    }
    Ok(layout)
}

// Plays a list, and says how; or why not, and then nothing is touched.
pub fn play_moves(
    cpus: u32,
    blocks: u32,
    lent: LentMemory<'_>,
    own: &mut [u64],
    moves: &[u64],
    kinds: &mut [u8],
    notes: &mut [u64],
) -> Result<Played, Refused>
    ensures why { IfErr result (RefusedFor (record { cpus = cpus; blocks = blocks; words = length lent.entry.words.now; held = length lent.entry.held.now; free = length lent.entry.free.now; late = length lent.entry.late.now; own = length own.old }) moves.now) }
    ensures memory { OnErr result ((lent.exit.0.now ≡ lent.entry.words.now) × (lent.exit.1.0.now ≡ lent.entry.held.now) × (lent.exit.1.1.0.now ≡ lent.entry.free.now) × (lent.exit.1.1.1.0.now ≡ lent.entry.late.now)) }
    ensures others { OnErr result ((own.new ≡ own.old) × (kinds.new ≡ kinds.old) × (notes.new ≡ notes.old)) }
{
    let checked = layout_for(cpus, blocks, &lent, own, moves);
    // taken apart: of a struct that is dropped a proof doesn't know what it leaves
    let LentMemory {
        words,
        held,
        free,
        late,
    } = lent;
    let layout = checked?;
    let mut memory = SharedMemory::new(
        layout,
        LentMemory {
            words,
            held,
            free,
            late,
        },
    );
    let mut journal = Journal::new(kinds, notes);
    let mut list = MoveList::new(moves, cpus);
    play(&mut memory, &mut journal, own, &mut list);
    Ok(Played {
        moves: list.at,
        turns: list.turns,
        passed: list.passed,
        events: journal.events,
        noted: journal.noted,
        held: memory.held_blocks(),
    })
}
