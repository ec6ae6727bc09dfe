// The states in which replaced nodes are retired.
ghost use Rattle.std.specs.Prelude.{◌≡◌, Some as Some'};
ghost use Rattle.std.specs.Result.{result_ok};
ghost use Rattle.port.specs.Fields.{retire_of};

use super::{Fields, UnknownState, in_state};
use routes::update::retire::Retire;

impl From<Retire> for Fields {
    ghost from_gives = { λ s f. retire_of f ≡ Some' s };

    fn from(retire: Retire) -> Fields {
        match retire {
            Retire::Epoch => in_state(0),
            Retire::SetEpoch { epoch } => Fields {
                epoch,
                ..in_state(1)
            },
            Retire::SetAt { i, epoch } => Fields {
                index: i,
                epoch,
                ..in_state(2)
            },
            Retire::SetNext { i, epoch } => Fields {
                index: i,
                epoch,
                ..in_state(3)
            },
            Retire::Tail => in_state(4),
            Retire::SetHead => in_state(5),
            Retire::Link { tail } => Fields {
                node: tail,
                ..in_state(6)
            },
            Retire::SetTail => in_state(7),
            Retire::Fence => in_state(8),
        }
    }
}

impl TryFrom<Fields> for Retire {
    type Error = UnknownState;

    ghost try_from_gives = { λ f r. result_ok r ≡ retire_of f };

    fn try_from(f: Fields) -> Result<Retire, UnknownState> {
        match f.state {
            0 => Ok(Retire::Epoch),
            1 => Ok(Retire::SetEpoch { epoch: f.epoch }),
            2 => Ok(Retire::SetAt {
                i: f.index,
                epoch: f.epoch,
            }),
            3 => Ok(Retire::SetNext {
                i: f.index,
                epoch: f.epoch,
            }),
            4 => Ok(Retire::Tail),
            5 => Ok(Retire::SetHead),
            6 => Ok(Retire::Link { tail: f.node }),
            7 => Ok(Retire::SetTail),
            8 => Ok(Retire::Fence),
            _ => Err(UnknownState),
        }
    }
}
