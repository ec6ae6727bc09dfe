// One look at what every processor has announced.
ghost use Rattle.std.specs.Prelude.{◌≡◌, ◌+◌, ◌^◌, ◌<◌, nat_lt};
ghost use Rattle.routes.specs.Machine.Acts.{MayDo};
ghost use Rattle.routes.specs.Machine.Scans.{ScanOk, ScanMoved, scan_act, announced_before, passed_for, passed_with};

use super::Phase;
use super::reclaim::{MOST_RELEASED, Reclaim};
use super::recycle::Recycle;
use crate::Memory;
use crate::access::load;
use crate::header::{ACTIVE, HEADER};

// What a finished scan has shown: nobody is reading a node that was retired before this epoch. Only the end of a scan makes one; `restored` brings back one that was saved.
#[derive(Clone, Copy)]
pub struct GracePeriod {
    before: u64,
}

impl GracePeriod {
    // May a node go that was retired in this epoch?
    pub fn covers(self, stamp: u64) -> bool
        ensures { result ≡ nat_lt stamp self.before }
    {
        stamp < self.before
    }

    // The epoch, for registers that are saved.
    pub fn before(self) -> u64
        ensures { result ≡ self.before }
    {
        self.before
    }

    // As it was in registers that were saved.
    pub fn restored(before: u64) -> GracePeriod
        ensures { result.before ≡ before }
    {
        GracePeriod { before }
    }
}

#[derive(Clone, Copy)]
pub enum Scan {
    // stands at each processor until it is not in the way of this node, which was retired in that epoch
    ForNode { q: u32, node: u32, stamp: u64 },
    // passes every processor once, and takes the least epoch that is announced
    ForLimit { q: u32, limit: u64 },
}

// Has a processor that announced this an epoch before the limit?
fn announced_before(announced: u64, limit: u64) -> bool
    ensures { result ≡ announced_before announced limit }
{
    announced != 0 && announced - 1 < limit
}

// Past processor q, which is not in the way: on to the next one, or the node may be recycled.
fn passed_for(cpus: u32, q: u32, node: u32, stamp: u64) -> Phase
    requires { (q < 16) × (stamp + 1 < 2 ^ 64) }
    ensures { result ≡ passed_for cpus q node stamp }
{
    if q + 1 < cpus {
        Phase::Scan(Scan::ForNode {
            q: q + 1,
            node,
            stamp,
        })
    } else {
        Phase::Recycle(Recycle::Next {
            node,
            grace: GracePeriod { before: stamp + 1 },
        })
    }
}

// Past processor q with this limit: on to the next one, or what was retired before the limit may go.
fn passed_with(cpus: u32, q: u32, limit: u64) -> Phase
    requires { q < 16 }
    ensures { result ≡ passed_with cpus q limit }
{
    if q + 1 < cpus {
        Phase::Scan(Scan::ForLimit { q: q + 1, limit })
    } else {
        Phase::Reclaim(Reclaim::Head {
            grace: GracePeriod { before: limit },
            left: MOST_RELEASED,
        })
    }
}

pub fn step_scan<M: Memory>(s: Scan, w: &mut M, p: u32) -> Phase
    requires ok { ScanOk s }
    requires may { MayDo (M.mem w.old) p (scan_act s) }
    ensures moved { ScanMoved p s (M.mem w.old) result (M.mem w.new) }
    ensures unseen { M.seen w.new ≡ M.seen w.old }
{
    let cpus = w.cpus();
    match s {
        Scan::ForNode { q, node, stamp } => {
            let announced = load(w, p, HEADER, ACTIVE + q);
            if announced_before(announced, stamp + 1) {
                Phase::Scan(Scan::ForNode { q, node, stamp })
            } else {
                passed_for(cpus, q, node, stamp)
            }
        }
        Scan::ForLimit { q, limit } => {
            let announced = load(w, p, HEADER, ACTIVE + q);
            let limit = if announced_before(announced, limit) {
                announced - 1
            } else {
                limit
            };
            passed_with(cpus, q, limit)
        }
    }
}
