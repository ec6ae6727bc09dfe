// Which processor it is, of so many.
ghost use Rattle.std.specs.Prelude.{◌<◌, Some, decimal};

use std::fmt;

#[derive(Clone, Copy)]
pub struct Processor<const CPUS: u8> {
    pub number: u8,
    ghost there: { number < CPUS },
}

impl<const CPUS: u8> Processor<CPUS> {
    // here, since the definitions name the struct
    ghost use Rattle.std.specs.Prelude.{◌≡◌};
    ghost use Rattle.script.specs.Reading.{numbered};

    // The processor of that number, if the number is below their count.
    pub fn new(number: u64) -> Option<Processor<CPUS>>
        ensures { result ≡ numbered CPUS number }
    {
        if number < u64::from(CPUS) {
            let number = number as u8;
            Some(Processor { number })
        } else {
            None
        }
    }
}

// A processor is shown as its number.
impl<const CPUS: u8> fmt::Display for Processor<CPUS> {
    ghost output = { λ p. Some (decimal p.number) };

    fn fmt<W: fmt::Write>(&self, f: &mut fmt::Formatter<W>) -> fmt::Result {
        let number = self.number;
        write!(f, "{number}")
    }
}
