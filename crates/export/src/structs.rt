// What a processor asks and tells, as C structs.
ghost use Rattle.std.specs.Prelude.{◌≡◌};
ghost use Rattle.export.specs.Structs.{act_words, told_words};

use routes::Answer;
use routes::act::Act;

// The kinds are numbers and no enums, since C programs read and test them.
const PAUSE: u32 = 0;

const LOAD: u32 = 1;

const STORE: u32 = 2;

const FENCE: u32 = 3;

const SWAP: u32 = 4;

const OBTAIN: u32 = 5;

const RELEASE: u32 = 6;

// What is asked, by its kind: of a store x is what is stored, of a swap what has to be there, and new what is there then.
#[derive(Clone, Copy)]
#[repr(C)]
pub struct ActWords {
    pub kind: u32,
    pub block: u32,
    pub word: u32,
    pub spare: u32,
    pub x: u64,
    pub new: u64,
}

// What asks for nothing but its kind.
fn of_kind(kind: u32) -> ActWords
    ensures { result ≡ record { kind = kind; block = 0; word = 0; spare = 0; x = 0; new = 0 } }
{
    ActWords {
        kind,
        block: 0,
        word: 0,
        spare: 0,
        x: 0,
        new: 0,
    }
}

impl From<Act> for ActWords {
    ghost from_gives = { λ a w. w ≡ act_words a };

    fn from(asked: Act) -> ActWords {
        match asked {
            Act::Pause => of_kind(PAUSE),
            Act::Load { block, word } => ActWords {
                block,
                word,
                ..of_kind(LOAD)
            },
            Act::Store { block, word, x } => ActWords {
                block,
                word,
                x,
                ..of_kind(STORE)
            },
            Act::Fence => of_kind(FENCE),
            Act::Swap {
                block,
                word,
                old,
                new,
            } => ActWords {
                block,
                word,
                x: old,
                new,
                ..of_kind(SWAP)
            },
            Act::Obtain => of_kind(OBTAIN),
            Act::Release { block } => ActWords {
                block,
                ..of_kind(RELEASE)
            },
        }
    }
}

const NOT_TOLD: u32 = 0;

// What is told: not yet, or found (with the route's length and what it tells), nothing, done, full, or no (with the number as the length).
#[derive(Clone, Copy)]
#[repr(C)]
pub struct ToldWords {
    pub kind: u32,
    pub len: u32,
    pub tells: u32,
    pub spare: u32,
}

const FOUND: u32 = 1;

const NOTHING: u32 = 2;

const DONE: u32 = 3;

const FULL: u32 = 4;

const NO: u32 = 5;

const NOT_YET: ToldWords = ToldWords {
    kind: NOT_TOLD,
    len: 0,
    tells: 0,
    spare: 0,
};

impl From<Option<Answer>> for ToldWords {
    ghost from_gives = { λ t w. w ≡ told_words t };

    fn from(told: Option<Answer>) -> ToldWords {
        match told {
            None => NOT_YET,
            Some(Answer::Found(len, tells)) => ToldWords {
                kind: FOUND,
                len: len as u32,
                tells,
                ..NOT_YET
            },
            Some(Answer::Nothing) => ToldWords {
                kind: NOTHING,
                ..NOT_YET
            },
            Some(Answer::Done) => ToldWords {
                kind: DONE,
                ..NOT_YET
            },
            Some(Answer::Full) => ToldWords {
                kind: FULL,
                ..NOT_YET
            },
            Some(Answer::No(why)) => ToldWords {
                kind: NO,
                len: why as u32,
                ..NOT_YET
            },
        }
    }
}
