// Why a script is not played to its end.
ghost use Rattle.std.specs.Prelude.{◌≡◌};
ghost use Rattle.hall.specs.Stops.{is_error};
ghost use Rattle.hall.specs.declared.stop.Stop.TheVariants.{Wrong};

use super::game::TURN_LIMIT;
use super::source::LINE_LIMIT;
use script::Expected;
use std::{fmt, io};

#[derive(Clone, Copy)]
pub enum Stop {
    // a line says what no line may say
    Wrong(Expected),
    LongLine,
    // all turns of a script are taken
    OutOfTurns,
    Unreadable(io::Error),
    Unprintable(io::Error),
}

impl Stop {
    pub fn is_error(self) -> bool
        ensures { result ≡ is_error self }
    {
        !matches!(self, Stop::OutOfTurns)
    }
}

impl From<Expected> for Stop {
    ghost from_gives = { λ e r. r ≡ Wrong e };

    fn from(expected: Expected) -> Stop {
        Stop::Wrong(expected)
    }
}

// It, with the script's name and the line to which it came.
#[derive(Clone, Copy)]
pub struct Complaint<'a> {
    pub name: &'a str,
    pub line: u64,
    pub stop: Stop,
}

impl<'a> fmt::Display for Complaint<'a> {
    fn fmt<W: fmt::Write>(&self, f: &mut fmt::Formatter<W>) -> fmt::Result {
        let name = self.name;
        let line = self.line;
        match self.stop {
            Stop::Wrong(expected) => write!(f, "{name}:{line}: expected {expected}"),
            Stop::LongLine => write!(
                f,
                "{name}:{line}: expected a line of at most {LINE_LIMIT} bytes"
            ),
            Stop::OutOfTurns => write!(f, "{name}:{line}: ended after {TURN_LIMIT} turns"),
            Stop::Unreadable(error) => write!(f, "{name}: {error}"),
            Stop::Unprintable(error) => write!(f, "standard output: {error}"),
        }
    }
}
