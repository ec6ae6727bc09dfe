// The words of the header, block 0, and the writer's lock.
ghost use Rattle.std.specs.Prelude.{◌≡◌, ◌+◌};
ghost use Rattle.routes.specs.declared.act.Act.TheVariants.{Swap};
ghost use Rattle.routes.specs.Machine.Acts.{MayDo, Did};

use super::Memory;
use super::access::swap;

pub const HEADER: u32 = 0;

// 0, or the number of the processor that has the lock, and 1.
pub const WRITER: u32 = 0;

pub const ROOT: u32 = 1;

pub const EPOCH: u32 = 2;

pub const LIMBO_HEAD: u32 = 3;

pub const LIMBO_TAIL: u32 = 4;

// The first of sixteen words, one for each processor: 0, or the epoch that it announced, and 1.
pub const ACTIVE: u32 = 16;

// The writer's lock, if nobody has it: what it was. Taken and given up by two functions, whose callers know the lock in two ways.
pub(crate) fn try_lock<M: Memory>(w: &mut M, p: u32) -> u64
    requires { MayDo (M.mem w.old) p (Swap 0 0 0 (p + 1)) }
    ensures did { Did p (Swap 0 0 0 (p + 1)) (M.mem w.old) result (M.mem w.new) }
    ensures unseen { M.seen w.new ≡ M.seen w.old }
{
    swap(w, p, HEADER, WRITER, 0, u64::from(p) + 1)
}

pub(crate) fn unlock<M: Memory>(w: &mut M, p: u32) -> u64
    requires { MayDo (M.mem w.old) p (Swap 0 0 (p + 1) 0) }
    ensures did { Did p (Swap 0 0 (p + 1) 0) (M.mem w.old) result (M.mem w.new) }
    ensures unseen { M.seen w.new ≡ M.seen w.old }
{
    swap(w, p, HEADER, WRITER, u64::from(p) + 1, 0)
}
