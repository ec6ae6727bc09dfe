// A processor for programs in Rust or C: its registers are 16 words and its own words 4,096, both lent by the caller.
// 0 is returned where all is well, else the number of a refusal, and then nothing was touched.
ghost use Rattle.export.specs.Begins.{Started};
ghost use Rattle.export.specs.Calls.{By};
ghost use Rattle.export.specs.Processor.{LookupBegun, UpdateBegun};
ghost use Rattle.export.specs.Turns.{ActDone, AfterDone};

use crate::begin::{begin_lookup, begin_update, start};
use crate::refusal::status;
use crate::structs::{ActWords, ToldWords};
use crate::turn::{ask, reply_to};

// Nothing is under way.
#[unsafe(no_mangle)]
pub extern "C" fn dezhavin_start(registers: &mut [u64]) -> u32
    ensures { By result (λ r. Started registers.old r registers.new) }
{
    status(start(registers))
}

// A lookup of the address begins.
#[unsafe(no_mangle)]
pub extern "C" fn dezhavin_begin_lookup(registers: &mut [u64], address: u32) -> u32
    ensures { By result (λ r. LookupBegun address registers.old r registers.new) }
{
    status(begin_lookup(registers, address))
}

// An update of so many pieces begins. There are eight pieces, each with four words: 1 if it puts a route in or 0 if it takes it out, the length, the bits, what it tells.
#[unsafe(no_mangle)]
pub extern "C" fn dezhavin_begin_update(
    registers: &mut [u64],
    own: &mut [u64],
    size: u32,
    pieces: &[u64],
) -> u32
    ensures { By result (λ r. UpdateBegun size pieces.now registers.old own.old r registers.new own.new) }
{
    status(begin_update(registers, own, size, pieces))
}

// What the processor asks of the memory in its next turn.
#[unsafe(no_mangle)]
pub extern "C" fn dezhavin_act(cpu: u32, registers: &[u64], own: &[u64], out: &mut ActWords) -> u32
    ensures { By result (λ r. ActDone cpu registers.now own.now r out.entry.now out.exit.now) }
{
    status(ask(cpu, registers, own, out))
}

// The processor, of so many, has had its turn: by the reply, its registers and own words, and what it tells.
// The reply is what was loaded, or was there before a swap; of a block that was got its number and 1, 0 for none; else it does not count.
#[unsafe(no_mangle)]
pub extern "C" fn dezhavin_after(
    cpu: u32,
    cpus: u32,
    registers: &mut [u64],
    own: &mut [u64],
    reply: u64,
    out: &mut ToldWords,
) -> u32
    ensures { By result (λ r. AfterDone cpu cpus reply registers.old own.old out.old r registers.new own.new out.new) }
{
    status(reply_to(cpu, cpus, registers, own, reply, out))
}
