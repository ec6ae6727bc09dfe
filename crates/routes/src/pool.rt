// Blocks from the pool.
ghost use Rattle.std.specs.Prelude.{◌≡◌, ◌<◌, slice_set};
ghost use Rattle.own.specs.Layout.{fresh_at};
ghost use Rattle.routes.specs.declared.act.Act.TheVariants.{Obtain};
ghost use Rattle.routes.specs.Machine.Acts.{MayDo, Did};
ghost use Rattle.routes.specs.Machine.NewBlocks.{reply_of};

use super::Memory;
use own::{OwnWords, keep_fresh};

// A block that was got in this turn and that nobody else knows. It cannot be let go: it moves to the fresh blocks among the own words.
pub struct NewBlock(u32);

impl NewBlock {
    pub fn keep(self, own: &mut OwnWords, at: u32)
        requires { at < 72 }
        ensures { own.new ≡ slice_set own.old (fresh_at at) self.0 }
    {
        let NewBlock(block) = self;
        keep_fresh(own, at, block);
    }
}

pub fn obtain<M: Memory>(w: &mut M, p: u32) -> Option<NewBlock>
    requires { MayDo (M.mem w.old) p Obtain }
    ensures did { Did p Obtain (M.mem w.old) (reply_of result) (M.mem w.new) }
    ensures unseen { M.seen w.new ≡ M.seen w.old }
{
    w.obtain(p).map(NewBlock)
}
