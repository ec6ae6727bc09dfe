// The world: a memory, a journal, and a schedule that decides what comes next.
ghost use Rattle.std.specs.Prelude.{◌≡◌, length};
ghost use Rattle.world.specs.Journals.{seen_of};
ghost use Rattle.world.specs.Worlds.{MarksUnder};

use crate::journal::Journal;
use memory::{MOST_CPUS, SharedMemory};

#[derive(Drop)]
pub struct ScheduledWorld<'m, 'w, 'j, 'n, 's, S> {
    pub memory: &'m mut SharedMemory<'w>,
    pub journal: &'j mut Journal<'n>,
    // which processors have something under way
    pub busy: [bool; MOST_CPUS],
    pub schedule: &'s mut S,
    ghost sixteen: { length busy ≡ 16 },
    ghost marks: { MarksUnder busy (seen_of journal.now) },
}
