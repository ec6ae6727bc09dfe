// The turns of a processor, with the memory left to whoever asks: what it asks next, and what it has when the reply is there. Own words come as a slice, as C lends them.
ghost use Rattle.std.specs.Prelude.{◌≡◌, ◌<◌, T};
ghost use Rattle.port.specs.Replies.{InMemory};
ghost use Rattle.port.specs.Turns.{AsksNext, AfterReply};

use crate::asking::asks;
use crate::ok::work_ok;
use crate::reply::{OneReply, reply_fits};
use own::OwnWords;
use routes::act::Act;
use routes::work::Work;
use routes::{Answer, BLOCK_WORDS, Cpu, MOST_BLOCKS, MOST_CPUS};

// Why a turn cannot be taken.
#[derive(Clone, Copy)]
pub enum NotReady {
    // the processor's number, or how many there are
    Number,
    // the own words are not 4,096
    Words,
    // the registers are not in their ranges
    Registers,
    // the reply
    Reply,
}

// Is what is asked a word of a block, or a block but the header?
fn in_memory(a: Act) -> bool
    ensures sound { T result → InMemory a }
    ensures exact { InMemory a → T result }
{
    match a {
        Act::Load { block, word }
        | Act::Store { block, word, .. }
        | Act::Swap { block, word, .. } => block < MOST_BLOCKS && word < BLOCK_WORDS,
        Act::Release { block } => 0 < block && block < MOST_BLOCKS,
        Act::Fence | Act::Obtain | Act::Pause => true,
    }
}

fn ask(work: Work, p: u32, cpus: u32, own: &[u64]) -> Result<Act, NotReady>
    ensures { AsksNext p cpus work own.now result }
{
    if p >= cpus || cpus > MOST_CPUS {
        return Err(NotReady::Number);
    }
    let own: &OwnWords = own.as_array().ok_or(NotReady::Words)?;
    if !work_ok(work, own) {
        return Err(NotReady::Registers);
    }
    let asked = asks(p, work, own);
    if !in_memory(asked) {
        return Err(NotReady::Registers);
    }
    Ok(asked)
}

// What processor p asks in its next turn.
pub fn next_act(cpu: &Cpu, p: u32, own: &[u64]) -> Result<Act, NotReady>
    ensures { AsksNext p 16 cpu.now.work own.now result }
{
    ask(cpu.work, p, MOST_CPUS, own)
}

// Processor p of so many has had its turn, with this reply: what it tells, if it does.
pub fn after(
    cpu: &mut Cpu,
    p: u32,
    cpus: u32,
    own: &mut [u64],
    reply: u64,
) -> Result<Option<Answer>, NotReady>
    ensures { AfterReply p cpus reply cpu.old own.old result cpu.new own.new }
{
    let asked = ask(cpu.work, p, cpus, own)?;
    if !reply_fits(asked, reply) {
        return Err(NotReady::Reply);
    }
    let mut memory = OneReply::new(asked, p, cpus, reply);
    Ok(cpu.step(&mut memory, p, own))
}
