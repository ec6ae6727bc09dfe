// The memory for one turn, in a file of its own, since the definitions that reply.rt cites name it.
ghost use Rattle.std.specs.Prelude.{◌<◌};
ghost use Rattle.std.specs.Option.{ForSome};

use routes::act::Act;

// Each word holds the value, and each block is held but the free one; what it was asked is noted, once it was.
#[derive(Clone, Copy)]
pub struct OneReply {
    pub cpus: u32,
    pub who: u32,
    pub value: u64,
    pub free: Option<u32>,
    pub asked: Option<Act>,
    ghost in_memory: { ForSome free (λ block. block < 1048576) },
}
