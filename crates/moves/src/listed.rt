// Moves in words. The first word of a move is its kind, 16 times its processor and 256 times a number; a change has two words more for each piece, of the first eight.
// A move stands at a place in the words, not in front of what is left of them: the caller is told how many were read.
ghost use Rattle.std.specs.Prelude.{◌≡◌, ◌+◌, ◌*◌, ◌<◌, ◌≤◌, T, length, MatchOption};
ghost use Rattle.moves.specs.Moves.{kept_of, body_of, width_of, head_of, PiecesFit, IsMove, AllMoves};

// Kinds are numbers: a caller in Rust or C writes the list.
const GO: u64 = 0;

const ARRIVE: u64 = 1;

const FIND: u64 = 2;

const CHANGE: u64 = 3;
// Past the first word of a piece: 0 or 1, and twice a length.
const PAST_FIRST: u64 = 512;

// A move as it is listed.
#[derive(Clone, Copy)]
pub enum Listed {
    // So many turns of a processor, while it has something under way.
    Go { cpu: u32, turns: u64 },
    // So many stores of a processor arrive.
    Arrive { cpu: u32, stores: u64 },
    Find { cpu: u32, address: u32 },
    Change { cpu: u32, size: u32 },
}

// How many pieces of a change are listed.
pub fn kept(size: u32) -> usize
    ensures { result ≡ kept_of size }
{
    size.min(8) as usize
}

impl Listed {
    // How many pieces it has in words.
    fn body(self) -> usize
        ensures { result ≡ body_of self }
    {
        match self {
            Listed::Change { size, .. } => kept(size),
            _ => 0,
        }
    }

    // How many words it takes.
    pub fn width(self) -> usize
        ensures value { result ≡ width_of self }
        ensures small { result ≤ 17 }
    {
        1 + 2 * self.body()
    }
}

// The move that a first word says.
fn read_head(word: u64, cpus: u32) -> Option<Listed>
    ensures { result ≡ head_of cpus word }
{
    let cpu = (word / 16 % 16) as u32;
    let x = word / 256;
    if cpu >= cpus {
        return None;
    }
    Some(match word % 16 {
        GO => Listed::Go { cpu, turns: x },
        ARRIVE => Listed::Arrive { cpu, stores: x },
        FIND => Listed::Find {
            cpu,
            address: u32::try_from(x).ok()?,
        },
        CHANGE => Listed::Change {
            cpu,
            size: u32::try_from(x).ok()?,
        },
        _ => return None,
    })
}

// Do so many pieces stand in words from a place on?
fn pieces_fit(words: &[u64], at: usize, count: usize) -> bool
    requires { (at ≤ length words.now) × (count ≤ 8) }
    ensures sound { T result → PiecesFit count words.now at }
    ensures exact { PiecesFit count words.now at → T result }
{
    // most moves have none, and a list is read twice
    if count == 0 {
        return true;
    }
    let Some(pieces) = words.get(at..at + 2 * count) else {
        return false;
    };
    let (pairs, _) = pieces.as_chunks::<2>();
    pairs.iter().all(|pair| pair[0] < PAST_FIRST)
}

// The move that stands in words at a place, if one does.
pub fn read_move(words: &[u64], at: usize, cpus: u32) -> Option<Listed>
    ensures { MatchOption result ((l : Listed) → IsMove cpus words.now at l → ⊥) (IsMove cpus words.now at) }
{
    let listed = read_head(*words.get(at)?, cpus)?;
    pieces_fit(words, at + 1, listed.body()).then_some(listed)
}

// Are words moves, one after the other, and nothing else?
pub fn all_moves(words: &[u64], cpus: u32) -> bool
    ensures sound { T result → AllMoves cpus words.now 0 }
    ensures exact { AllMoves cpus words.now 0 → T result }
{
    let mut at = 0;
    while let Some(listed) = read_move(words, at, cpus) {
        at += listed.width();
    }
    at == words.len()
}
