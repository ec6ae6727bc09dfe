// What a processor asks next, and what it has when the reply is there; with the parameters of the calls from C.
ghost use Rattle.std.specs.Prelude.{◌≡◌};
ghost use Rattle.export.specs.Turns.{ActDone, AfterDone};

use crate::refusal::{Refusal, load};
use crate::structs::{ActWords, ToldWords};
use port::{RegisterWords, after, next_act, save};

pub fn ask(cpu: u32, registers: &[u64], own: &[u64], out: &mut ActWords) -> Result<(), Refusal>
    ensures { ActDone cpu registers.now own.now result out.entry.now out.exit.now }
{
    let registers: &RegisterWords = registers.as_array().ok_or(Refusal::Length)?;
    let c = load(registers)?;
    *out = next_act(&c, cpu, own)?.into();
    Ok(())
}

pub fn reply_to(
    cpu: u32,
    cpus: u32,
    registers: &mut [u64],
    own: &mut [u64],
    reply: u64,
    out: &mut ToldWords,
) -> Result<(), Refusal>
    ensures { AfterDone cpu cpus reply registers.old own.old out.old result registers.new own.new out.new }
{
    let registers: &mut RegisterWords = registers.as_mut_array().ok_or(Refusal::Length)?;
    let mut c = load(registers)?;
    let told = after(&mut c, cpu, cpus, own, reply)?;
    save(c, registers);
    *out = told.into();
    Ok(())
}
