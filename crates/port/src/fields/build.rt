// The states in which a tree is built and published.
ghost use Rattle.std.specs.Prelude.{◌≡◌, Some as Some'};
ghost use Rattle.std.specs.Result.{result_ok};
ghost use Rattle.port.specs.Fields.{build_of, publish_of};

use super::{Fields, UnknownState, in_state};
use routes::update::build::Build;
use routes::update::publish::Publish;

impl From<Build> for Fields {
    ghost from_gives = { λ s f. build_of f ≡ Some' s };

    fn from(build: Build) -> Fields {
        match build {
            Build::Root => in_state(0),
            Build::Read {
                k,
                level,
                word,
                node,
            } => Fields {
                index: k,
                level,
                word,
                node,
                ..in_state(1)
            },
            Build::Edit { k, have } => Fields {
                index: k,
                level: have,
                ..in_state(2)
            },
            Build::Write {
                k,
                first,
                level,
                word,
            } => Fields {
                index: k,
                first,
                level,
                word,
                ..in_state(3)
            },
        }
    }
}

impl TryFrom<Fields> for Build {
    type Error = UnknownState;

    ghost try_from_gives = { λ f r. result_ok r ≡ build_of f };

    fn try_from(f: Fields) -> Result<Build, UnknownState> {
        match f.state {
            0 => Ok(Build::Root),
            1 => Ok(Build::Read {
                k: f.index,
                level: f.level,
                word: f.word,
                node: f.node,
            }),
            2 => Ok(Build::Edit {
                k: f.index,
                have: f.level,
            }),
            3 => Ok(Build::Write {
                k: f.index,
                first: f.first,
                level: f.level,
                word: f.word,
            }),
            _ => Err(UnknownState),
        }
    }
}

impl From<Publish> for Fields {
    ghost from_gives = { λ s f. publish_of f ≡ Some' s };

    fn from(publish: Publish) -> Fields {
        match publish {
            Publish::FenceNodes => in_state(0),
            Publish::SetRoot => in_state(1),
            Publish::FenceRoot => in_state(2),
        }
    }
}

impl TryFrom<Fields> for Publish {
    type Error = UnknownState;

    ghost try_from_gives = { λ f r. result_ok r ≡ publish_of f };

    fn try_from(f: Fields) -> Result<Publish, UnknownState> {
        match f.state {
            0 => Ok(Publish::FenceNodes),
            1 => Ok(Publish::SetRoot),
            2 => Ok(Publish::FenceRoot),
            _ => Err(UnknownState),
        }
    }
}
