// What a turn asks of the memory. Each function asks for one thing.
// The memory and the processor's number stay two parameters: of one struct behind `&mut` each contract would also have to say that the number stays.
ghost use Rattle.std.specs.Prelude.{◌≡◌};
ghost use Rattle.routes.specs.declared.act.Act.TheVariants.{Load, Store, Fence, Swap, Release};
ghost use Rattle.routes.specs.Machine.Acts.{MayDo, Did};

use super::Memory;

pub fn load<M: Memory>(w: &mut M, p: u32, block: u32, word: u32) -> u64
    requires { MayDo (M.mem w.old) p (Load block word) }
    ensures did { Did p (Load block word) (M.mem w.old) result (M.mem w.new) }
    ensures unseen { M.seen w.new ≡ M.seen w.old }
{
    w.load(p, block, word)
}

pub fn store<M: Memory>(w: &mut M, p: u32, block: u32, word: u32, x: u64)
    requires { MayDo (M.mem w.old) p (Store block word x) }
    ensures did { Did p (Store block word x) (M.mem w.old) 0 (M.mem w.new) }
    ensures unseen { M.seen w.new ≡ M.seen w.old }
{
    w.store(p, block, word, x);
}

// All that this processor stored has arrived.
pub fn fence<M: Memory>(w: &mut M, p: u32)
    requires { MayDo (M.mem w.old) p Fence }
    ensures did { Did p Fence (M.mem w.old) 0 (M.mem w.new) }
    ensures unseen { M.seen w.new ≡ M.seen w.old }
{
    w.fence(p);
}

// A fence, and then, if the word is old, it's new, in one moment. What it was is handed back.
pub fn swap<M: Memory>(w: &mut M, p: u32, block: u32, word: u32, old: u64, new: u64) -> u64
    requires { MayDo (M.mem w.old) p (Swap block word old new) }
    ensures did { Did p (Swap block word old new) (M.mem w.old) result (M.mem w.new) }
    ensures unseen { M.seen w.new ≡ M.seen w.old }
{
    w.swap(p, block, word, old, new)
}

pub fn give_back<M: Memory>(w: &mut M, p: u32, block: u32)
    requires { MayDo (M.mem w.old) p (Release block) }
    ensures did { Did p (Release block) (M.mem w.old) 0 (M.mem w.new) }
    ensures unseen { M.seen w.new ≡ M.seen w.old }
{
    w.release(p, block);
}
