// The late stores of one processor.
ghost use Rattle.std.specs.Prelude.{◌≡◌, ◌*◌, ◌<◌, ◌≤◌, length};

use crate::row::{LateStore, Row};

// A row, with the slots in which it stands.
#[derive(Clone, Copy)]
pub struct LateRow<'a> {
    pub late: &'a [LateStore],
    pub room: usize,
    pub p: usize,
    pub row: Row,
    ghost ring: { length late.now ≡ 16 * room },
    ghost slots: { 16 * room < 18446744073709551616 },
    ghost whose: { p < 16 },
    ghost start: { row.first < room },
    ghost fits: { row.many ≤ room },
}
