// Stores that have not arrived, and the rows in which they wait.
ghost use Rattle.std.specs.Prelude.{◌≡◌, ◌*◌, ◌<◌};
ghost use Rattle.memory.specs.Rings.{wrapped, place_of};

use crate::size::MOST_CPUS;

// A store that has not arrived.
#[repr(C)]
#[derive(Clone, Copy, Default)]
pub struct LateStore {
    pub block: u32,
    pub word: u32,
    pub x: u64,
}

// One processor's row: the slot of its oldest store, and how many there are. A row that is full lets its oldest store arrive.
// A ring by hand: the stores stand in memory that the caller lends.
#[derive(Clone, Copy)]
pub struct Row {
    pub first: usize,
    pub many: usize,
}

// Slots go round.
pub fn wrap(room: usize, slot: usize) -> usize
    ensures { result ≡ wrapped room slot }
{
    if slot < room { slot } else { slot - room }
}

// Where the store stands that is k behind the first of processor p's row.
pub fn place_of(room: usize, p: usize, first: usize, k: usize) -> usize
    requires { (p < 16) × ((first < room) × ((k < room) × (16 * room < 18446744073709551616))) }
    ensures { result ≡ place_of room p first k }
{
    MOST_CPUS * wrap(room, first + k) + p
}
