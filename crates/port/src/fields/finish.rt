// The states in which retired nodes are reclaimed, and an update ends.
ghost use Rattle.std.specs.Prelude.{◌≡◌, Some as Some'};
ghost use Rattle.std.specs.Result.{result_ok};
ghost use Rattle.routes.specs.Machine.Scans.{grace};
ghost use Rattle.port.specs.Fields.{reclaim_of, finish_of};

use super::{Fields, UnknownState, in_state};
use routes::update::finish::Finish;
use routes::update::reclaim::Reclaim;
use routes::update::scan::GracePeriod;

// At this node, when so many may still go by the grace period.
fn at_node(state: u32, period: GracePeriod, left: u32, node: u32) -> Fields
    ensures { (result.state ≡ state) × (grace result.epoch ≡ period) × (result.index ≡ left) × (result.node ≡ node) }
{
    Fields {
        epoch: period.before(),
        index: left,
        node,
        ..in_state(state)
    }
}

impl From<Reclaim> for Fields {
    ghost from_gives = { λ s f. reclaim_of f ≡ Some' s };

    fn from(reclaim: Reclaim) -> Fields {
        match reclaim {
            Reclaim::Head { grace, left } => at_node(0, grace, left, 0),
            Reclaim::RetiredAt { grace, left, node } => at_node(1, grace, left, node),
            Reclaim::Next { grace, left, node } => at_node(2, grace, left, node),
            Reclaim::SetHead {
                grace,
                left,
                node,
                next,
            } => Fields {
                next,
                ..at_node(3, grace, left, node)
            },
            Reclaim::SetTail { grace, left, node } => at_node(4, grace, left, node),
            Reclaim::Release { grace, left, node } => at_node(5, grace, left, node),
        }
    }
}

impl TryFrom<Fields> for Reclaim {
    type Error = UnknownState;

    ghost try_from_gives = { λ f r. result_ok r ≡ reclaim_of f };

    fn try_from(f: Fields) -> Result<Reclaim, UnknownState> {
        let grace = GracePeriod::restored(f.epoch);
        match f.state {
            0 => Ok(Reclaim::Head {
                grace,
                left: f.index,
            }),
            1 => Ok(Reclaim::RetiredAt {
                grace,
                left: f.index,
                node: f.node,
            }),
            2 => Ok(Reclaim::Next {
                grace,
                left: f.index,
                node: f.node,
            }),
            3 => Ok(Reclaim::SetHead {
                grace,
                left: f.index,
                node: f.node,
                next: f.next,
            }),
            4 => Ok(Reclaim::SetTail {
                grace,
                left: f.index,
                node: f.node,
            }),
            5 => Ok(Reclaim::Release {
                grace,
                left: f.index,
                node: f.node,
            }),
            _ => Err(UnknownState),
        }
    }
}

impl From<Finish> for Fields {
    ghost from_gives = { λ s f. finish_of f ≡ Some' s };

    fn from(finish: Finish) -> Fields {
        match finish {
            Finish::Unused => in_state(0),
            Finish::Unlock => in_state(1),
        }
    }
}

impl TryFrom<Fields> for Finish {
    type Error = UnknownState;

    ghost try_from_gives = { λ f r. result_ok r ≡ finish_of f };

    fn try_from(f: Fields) -> Result<Finish, UnknownState> {
        match f.state {
            0 => Ok(Finish::Unused),
            1 => Ok(Finish::Unlock),
            _ => Err(UnknownState),
        }
    }
}
