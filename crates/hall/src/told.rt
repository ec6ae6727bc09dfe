// What a processor tells, as it is printed.
ghost use Rattle.std.specs.Prelude.{Some};
ghost use Rattle.hall.specs.Told.{told_text};

use super::player::CPUS;
use routes::Answer;
use script::Processor;
use std::fmt;

#[derive(Clone, Copy)]
pub struct Told {
    pub cpu: Processor<CPUS>,
    pub answer: Answer,
}

impl fmt::Display for Told {
    ghost output = { λ t. Some (told_text t.cpu.number t.answer) };

    fn fmt<W: fmt::Write>(&self, f: &mut fmt::Formatter<W>) -> fmt::Result {
        let cpu = self.cpu;
        match self.answer {
            Answer::Found(len, tells) => write!(f, "{cpu} {len} {tells}"),
            Answer::Nothing => write!(f, "{cpu} nothing"),
            Answer::Done => write!(f, "{cpu} done"),
            Answer::Full => write!(f, "{cpu} full"),
            Answer::No(why) => write!(f, "{cpu} no {why}"),
        }
    }
}
