// A schedule is played by `turns` on a fresh memory in lent slices.
ghost use Rattle.std.specs.Prelude.{◌≡◌, ◌*◌, [], length};
ghost use Rattle.routes.specs.Memory.{AtStart};
ghost use Rattle.memory.specs.Memories.{mem_of};
ghost use Rattle.world.specs.Journals.{seen_of};

use crate::journal::Journal;
use crate::schedule::Schedule;
use crate::world::ScheduledWorld;
use memory::{MOST_CPUS, SharedMemory};
use routes::{Cpu, Memory, Piece, turns};

fn run<S: Schedule>(
    world: &mut ScheduledWorld<'_, '_, '_, '_, '_, S>,
    cpus: &mut [Cpu],
    own: &mut [u64],
    pieces: &mut [Piece],
)
    requires starts { (AtStart (mem_of world.old.memory.now)) × (seen_of world.old.journal.now ≡ []) }
    requires lent { (length cpus.old ≡ (mem_of world.old.memory.now).cpus) × ((length own.old ≡ 4096 * (mem_of world.old.memory.now).cpus) × (length pieces.old ≡ 8)) }
{
    turns(world, cpus, own, pieces, u64::MAX);
}

// Plays a schedule, with the own words of all processors in one row, as `turns` takes them.
pub fn play<S: Schedule>(
    memory: &mut SharedMemory<'_>,
    journal: &mut Journal<'_>,
    own: &mut [u64],
    schedule: &mut S,
)
    requires starts { (AtStart (mem_of memory.old)) × (seen_of journal.old ≡ []) }
    requires lent { length own.old ≡ 4096 * (mem_of memory.old).cpus }
{
    let mut cpus = [Cpu::new(); MOST_CPUS];
    // Piece, whose text is fixed, has no Default
    let mut pieces = [Piece {
        puts: false,
        len: 0,
        bits: 0,
        tells: 0,
    }; 8];
    let count = memory.cpus() as usize;
    let mut world = ScheduledWorld {
        memory,
        journal,
        busy: [false; MOST_CPUS],
        schedule,
    };
    run(&mut world, &mut cpus[..count], own, &mut pieces);
}
