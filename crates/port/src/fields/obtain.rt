// The states in which blocks are obtained, recycled ones too, and of a scan.
ghost use Rattle.std.specs.Prelude.{◌≡◌, Some as Some'};
ghost use Rattle.std.specs.Result.{result_ok};
ghost use Rattle.port.specs.Fields.{obtain_of, recycle_of, scan_of};

use super::{Fields, UnknownState, in_state};
use routes::update::obtain::Obtain;
use routes::update::recycle::Recycle;
use routes::update::scan::{GracePeriod, Scan};

impl From<Obtain> for Fields {
    ghost from_gives = { λ s f. obtain_of f ≡ Some' s };

    fn from(obtain: Obtain) -> Fields {
        match obtain {
            Obtain::Get => in_state(0),
            Obtain::Undo => in_state(1),
            Obtain::Full => in_state(2),
        }
    }
}

impl TryFrom<Fields> for Obtain {
    type Error = UnknownState;

    ghost try_from_gives = { λ f r. result_ok r ≡ obtain_of f };

    fn try_from(f: Fields) -> Result<Obtain, UnknownState> {
        match f.state {
            0 => Ok(Obtain::Get),
            1 => Ok(Obtain::Undo),
            2 => Ok(Obtain::Full),
            _ => Err(UnknownState),
        }
    }
}

impl From<Recycle> for Fields {
    ghost from_gives = { λ s f. recycle_of f ≡ Some' s };

    fn from(recycle: Recycle) -> Fields {
        match recycle {
            Recycle::Head => in_state(0),
            Recycle::RetiredAt { node } => Fields {
                node,
                ..in_state(1)
            },
            Recycle::Next { node, grace } => Fields {
                node,
                epoch: grace.before(),
                ..in_state(2)
            },
            Recycle::SetHead { node, next, grace } => Fields {
                node,
                next,
                epoch: grace.before(),
                ..in_state(3)
            },
            Recycle::SetTail => in_state(4),
        }
    }
}

impl TryFrom<Fields> for Recycle {
    type Error = UnknownState;

    ghost try_from_gives = { λ f r. result_ok r ≡ recycle_of f };

    fn try_from(f: Fields) -> Result<Recycle, UnknownState> {
        match f.state {
            0 => Ok(Recycle::Head),
            1 => Ok(Recycle::RetiredAt { node: f.node }),
            2 => Ok(Recycle::Next {
                node: f.node,
                grace: GracePeriod::restored(f.epoch),
            }),
            3 => Ok(Recycle::SetHead {
                node: f.node,
                next: f.next,
                grace: GracePeriod::restored(f.epoch),
            }),
            4 => Ok(Recycle::SetTail),
            _ => Err(UnknownState),
        }
    }
}

impl From<Scan> for Fields {
    ghost from_gives = { λ s f. scan_of f ≡ Some' s };

    fn from(scan: Scan) -> Fields {
        match scan {
            Scan::ForNode { q, node, stamp } => Fields {
                index: q,
                node,
                epoch: stamp,
                ..in_state(0)
            },
            Scan::ForLimit { q, limit } => Fields {
                index: q,
                epoch: limit,
                ..in_state(1)
            },
        }
    }
}

impl TryFrom<Fields> for Scan {
    type Error = UnknownState;

    ghost try_from_gives = { λ f r. result_ok r ≡ scan_of f };

    fn try_from(f: Fields) -> Result<Scan, UnknownState> {
        match f.state {
            0 => Ok(Scan::ForNode {
                q: f.index,
                node: f.node,
                stamp: f.epoch,
            }),
            1 => Ok(Scan::ForLimit {
                q: f.index,
                limit: f.epoch,
            }),
            _ => Err(UnknownState),
        }
    }
}
