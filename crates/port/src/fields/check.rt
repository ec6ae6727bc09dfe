// The states of a check.
ghost use Rattle.std.specs.Prelude.{◌≡◌, Some as Some'};
ghost use Rattle.std.specs.Result.{result_ok};
ghost use Rattle.port.specs.Fields.{check_of, refusal_of};

use super::{Fields, UnknownState, in_state};
use routes::Refusal;
use routes::update::check::Check;

impl From<Check> for Fields {
    ghost from_gives = { λ s f. check_of f ≡ Some' s };

    fn from(check: Check) -> Fields {
        match check {
            Check::Piece { k } => Fields {
                index: k,
                ..in_state(0)
            },
            Check::Root { k } => Fields {
                index: k,
                ..in_state(1)
            },
            Check::Slot { k, level, node } => Fields {
                index: k,
                level,
                node,
                ..in_state(2)
            },
            Check::Route { k, node } => Fields {
                index: k,
                node,
                ..in_state(3)
            },
            Check::Reject { why } => Fields {
                index: u32::from(u8::from(why)),
                ..in_state(4)
            },
        }
    }
}

// The refusal that is told by this number.
fn refusal_of(number: u32) -> Result<Refusal, UnknownState>
    ensures { result_ok result ≡ refusal_of number }
{
    Ok(Refusal::try_from(u8::try_from(number)?)?)
}

impl TryFrom<Fields> for Check {
    type Error = UnknownState;

    ghost try_from_gives = { λ f r. result_ok r ≡ check_of f };

    fn try_from(f: Fields) -> Result<Check, UnknownState> {
        match f.state {
            0 => Ok(Check::Piece { k: f.index }),
            1 => Ok(Check::Root { k: f.index }),
            2 => Ok(Check::Slot {
                k: f.index,
                level: f.level,
                node: f.node,
            }),
            3 => Ok(Check::Route {
                k: f.index,
                node: f.node,
            }),
            4 => Ok(Check::Reject {
                why: refusal_of(f.index)?,
            }),
            _ => Err(UnknownState),
        }
    }
}
