// What a processor has under way as plain numbers: a code for its state and a field for each part. Each phase is converted there and back.
// The codes are plain numbers, since they stand in words that C programs keep.
ghost use Rattle.std.specs.Prelude.{◌≡◌};
ghost use Rattle.port.specs.Fields.{in_state};

mod answer;
mod build;
mod check;
mod finish;
mod lookup;
mod obtain;
mod retire;
mod work;

use routes::UnknownRefusal;
use routes::update::job::Job;
use std::num::TryFromIntError;

// Numbers that nothing under way has.
#[derive(Clone, Copy)]
pub struct UnknownState;

impl From<TryFromIntError> for UnknownState {
    fn from(_e: TryFromIntError) -> UnknownState {
        UnknownState
    }
}

impl From<UnknownRefusal> for UnknownState {
    fn from(_e: UnknownRefusal) -> UnknownState {
        UnknownState
    }
}

// An answer: found is 1, nothing 2, done 3, full 4, no 5 (with its number as the length).
#[derive(Clone, Copy)]
pub struct AnswerWords {
    pub kind: u8,
    pub len: u8,
    pub tells: u32,
}

// The parts of a state; a state uses some of them.
#[derive(Clone, Copy)]
pub struct Fields {
    pub state: u32,
    // that was loaded, in which a node was retired, or before which nodes may go
    pub epoch: u64,
    // of a piece, of a replaced node, of a processor; how many may still go; why not; of a lookup the address
    pub index: u32,
    pub node: u32,
    // the node behind it
    pub next: u32,
    pub level: u8,
    pub word: u32,
    pub first: u32,
    pub best: AnswerWords,
}

// A state of this number, with nothing in its fields.
fn in_state(state: u32) -> Fields
    ensures { result ≡ in_state state }
{
    Fields {
        state,
        epoch: 0,
        index: 0,
        node: 0,
        next: 0,
        level: 0,
        word: 0,
        first: 0,
        best: AnswerWords {
            kind: 2,
            len: 0,
            tells: 0,
        },
    }
}

// What is under way: the number of its phase, the job, and the parts of its state.
#[derive(Clone, Copy)]
pub struct Registers {
    pub phase: u32,
    pub job: Job,
    pub fields: Fields,
}
