// The states of a lookup.
ghost use Rattle.std.specs.Prelude.{◌≡◌, Some as Some'};
ghost use Rattle.std.specs.Result.{result_ok};
ghost use Rattle.port.specs.Fields.{lookup_of};

use super::{Fields, UnknownState, in_state};
use routes::Answer;
use routes::lookup::Lookup;

impl From<Lookup> for Fields {
    ghost from_gives = { λ l f. lookup_of f ≡ Some' l };

    fn from(lookup: Lookup) -> Fields {
        match lookup {
            Lookup::Epoch { address } => Fields {
                index: address,
                ..in_state(0)
            },
            Lookup::Announce { address, epoch } => Fields {
                index: address,
                epoch,
                ..in_state(1)
            },
            Lookup::Root { address, epoch } => Fields {
                index: address,
                epoch,
                ..in_state(2)
            },
            Lookup::Node {
                address,
                epoch,
                level,
                node,
                best,
            } => Fields {
                index: address,
                epoch,
                level,
                node,
                best: best.into(),
                ..in_state(3)
            },
            Lookup::Leave { epoch, best } => Fields {
                epoch,
                best: best.into(),
                ..in_state(4)
            },
        }
    }
}

impl TryFrom<Fields> for Lookup {
    type Error = UnknownState;

    ghost try_from_gives = { λ f r. result_ok r ≡ lookup_of f };

    fn try_from(f: Fields) -> Result<Lookup, UnknownState> {
        let best = Answer::try_from(f.best)?;
        match f.state {
            0 => Ok(Lookup::Epoch { address: f.index }),
            1 => Ok(Lookup::Announce {
                address: f.index,
                epoch: f.epoch,
            }),
            2 => Ok(Lookup::Root {
                address: f.index,
                epoch: f.epoch,
            }),
            3 => Ok(Lookup::Node {
                address: f.index,
                epoch: f.epoch,
                level: f.level,
                node: f.node,
                best,
            }),
            4 => Ok(Lookup::Leave {
                epoch: f.epoch,
                best,
            }),
            _ => Err(UnknownState),
        }
    }
}
