// A list of moves, and how far it is played.
ghost use Rattle.std.specs.Prelude.{◌≡◌, ℕ, ◌+◌, ◌*◌, ◌<◌, ◌≤◌, false, length, Some, None, slice_index_or};
ghost use Rattle.world.specs.Notes.{piece_of};
ghost use Rattle.moves.specs.Moves.{PiecesFit, piece_at, blank};
ghost use Rattle.moves.specs.Lists.{busy_of, left_of, comes_of, doing_of, begun, TakenUp, Advanced};

use crate::listed::{Listed, kept, read_move};
use routes::{Ask, Piece};
use world::Move;

// What is left of the present move.
#[derive(Clone, Copy)]
pub enum Doing {
    Reading,
    Going { cpu: u32, left: u64 },
    Arriving { cpu: u32, left: u64 },
}

#[derive(Clone, Copy)]
pub struct MoveList<'a> {
    words: &'a [u64],
    cpus: u32,
    // how many words are read, which the caller is told
    pub at: usize,
    doing: Doing,
    // turns that were taken
    pub turns: u64,
    // what was to begin on a processor that had something under way
    pub passed: u64,
}

// Has a processor something under way?
fn is_busy(busy: &[bool], cpu: u32) -> bool
    ensures { result ≡ slice_index_or busy.now cpu false }
{
    busy.get(cpu as usize).copied().unwrap_or(false)
}

// A piece in two words; no From, since both are of other crates.
fn read_piece(first: u64, second: u64) -> Piece
    requires { first < 512 }
    ensures { result ≡ piece_of first second }
{
    Piece {
        puts: first % 2 == 1,
        len: (first / 2) as u8,
        bits: (second % 0x1_0000_0000) as u32,
        tells: (second / 0x1_0000_0000) as u32,
    }
}

// The pieces that stand in words from a place on go into the row.
fn read_pieces(words: &[u64], at: usize, count: usize, row: &mut [Piece])
    requires { (PiecesFit count words.now at) × (count ≤ length row.old) }
    ensures { (k : ℕ) → k < count → slice_index_or row.new k blank ≡ piece_at words.now (at + 2 * k) }
{
    let (pairs, _) = words[at..at + 2 * count].as_chunks::<2>();
    // not a zip with iter_mut, of which a proof knows the length alone
    for (k, [first, second]) in pairs.iter().enumerate() {
        row[k] = read_piece(*first, *second);
    }
}

// What is to be done of a move.
impl From<Listed> for Doing {
    ghost from_gives = { λ l r. r ≡ doing_of l };

    fn from(listed: Listed) -> Doing {
        match listed {
            Listed::Go { cpu, turns } => Doing::Going { cpu, left: turns },
            Listed::Arrive { cpu, stores } => Doing::Arriving { cpu, left: stores },
            _ => Doing::Reading,
        }
    }
}

impl<'a> MoveList<'a> {
    // Nothing is played yet.
    pub fn new(words: &'a [u64], cpus: u32) -> MoveList<'a>
        ensures list { (result.words.now ≡ words.now) × (result.cpus ≡ cpus) }
        ensures start { (result.at ≡ 0) × ((result.doing ≡ Doing.Reading) × ((result.turns ≡ 0) × (result.passed ≡ 0))) }
    {
        MoveList {
            words,
            cpus,
            at: 0,
            doing: Doing::Reading,
            turns: 0,
            passed: 0,
        }
    }
}

impl MoveList<'_> {
    // What comes next by the present move; none where nothing is left of it.
    fn go_on(&mut self, busy: &[bool]) -> Option<Move>
        ensures comes { result ≡ comes_of self.old.doing (busy_of self.old.doing busy.now) }
        ensures left { self.new.doing ≡ left_of self.old.doing (busy_of self.old.doing busy.now) }
        ensures same { (self.new.words.now ≡ self.old.words.now) × ((self.new.cpus ≡ self.old.cpus) × (self.new.at ≡ self.old.at)) }
    {
        let (next, doing) = match self.doing {
            Doing::Going { cpu, left } if left > 0 && is_busy(busy, cpu) => {
                let left = left - 1;
                (Some(Move::Go { cpu }), Doing::Going { cpu, left })
            }
            Doing::Arriving { cpu, left } if left > 0 => {
                let left = left - 1;
                (Some(Move::Arrive { cpu }), Doing::Arriving { cpu, left })
            }
            _ => (None, Doing::Reading),
        };
        self.doing = doing;
        next
    }

    // Something begins on a processor, unless it is busy.
    fn begin(&mut self, busy: &[bool], cpu: u32, ask: Ask) -> Option<Move>
        ensures begins { result ≡ begun (slice_index_or busy.now cpu false) cpu ask }
        ensures same { (self.new.words.now ≡ self.old.words.now) × ((self.new.cpus ≡ self.old.cpus) × ((self.new.at ≡ self.old.at) × (self.new.doing ≡ self.old.doing))) }
    {
        if is_busy(busy, cpu) {
            self.passed = self.passed.saturating_add(1);
            return None;
        }
        Some(Move::Begin { cpu, ask })
    }

    // The next move is taken up.
    fn take_up(&mut self, busy: &[bool], row: &mut [Piece; 8]) -> Option<Move>
        ensures took { TakenUp busy.now self.old.cpus self.old.words.now self.old.at result self.new row.new }
        ensures same { self.new.words.now ≡ self.old.words.now }
    {
        let at = self.at;
        let Some(listed) = read_move(self.words, at, self.cpus) else {
            return Some(Move::Over);
        };
        self.at += listed.width();
        self.doing = Doing::from(listed);
        match listed {
            Listed::Find { cpu, address } => self.begin(busy, cpu, Ask::Find(address)),
            Listed::Change { cpu, size } => {
                read_pieces(self.words, at + 1, kept(size), row);
                self.begin(busy, cpu, Ask::Change(size))
            }
            Listed::Go { .. } | Listed::Arrive { .. } => None,
        }
    }

    // What comes next by the present move, or by the next one; none where that has nothing.
    pub(crate) fn advance(&mut self, busy: &[bool], row: &mut [Piece; 8]) -> Option<Move>
        ensures comes { Advanced (comes_of self.old.doing (busy_of self.old.doing busy.now)) busy.now self.old result self.new row.new }
        ensures forth { result ≡ None → (self.old.at < self.new.at) × (self.old.at < length self.old.words.now) }
        ensures same { self.new.words.now ≡ self.old.words.now }
    {
        // not `or_else`: of what its closure changes nothing would be known
        if let Some(next) = self.go_on(busy) {
            return Some(next);
        }
        self.take_up(busy, row)
    }
}
