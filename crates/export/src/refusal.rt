// Why a call is refused, by the numbers that C programs are returned.
ghost use Rattle.std.specs.Prelude.{◌≡◌};
ghost use Rattle.export.specs.Calls.{loaded, number_of, refusal_of, status_of};

use port::{NotReady, RegisterWords, restore};
use routes::Cpu;

#[derive(Clone, Copy)]
pub enum Refusal {
    // the processor's number, or how many there are
    Number = 1,
    // a slice has the wrong length
    Length = 2,
    // the registers are damaged
    Registers = 3,
    // a reply or a piece that cannot be
    Value = 4,
    // something is under way already
    Busy = 5,
}

impl From<Refusal> for u32 {
    ghost from_gives = { λ why n. n ≡ number_of why };

    fn from(why: Refusal) -> u32 {
        why as u32
    }
}

// What is returned.
pub fn status(r: Result<(), Refusal>) -> u32
    ensures { result ≡ status_of r }
{
    match r {
        Ok(()) => 0,
        Err(why) => why.into(),
    }
}

impl From<NotReady> for Refusal {
    ghost from_gives = { λ why r. r ≡ refusal_of why };

    fn from(why: NotReady) -> Refusal {
        match why {
            NotReady::Number => Refusal::Number,
            NotReady::Words => Refusal::Length,
            NotReady::Registers => Refusal::Registers,
            NotReady::Reply => Refusal::Value,
        }
    }
}

// The processor in these registers.
pub fn load(registers: &RegisterWords) -> Result<Cpu, Refusal>
    ensures { result ≡ loaded registers.now }
{
    restore(registers).ok_or(Refusal::Registers)
}
