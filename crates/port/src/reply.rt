// A memory for one turn: it is asked one thing, and its reply is given beforehand. The two meet in that turn alone, so no struct holds them.
ghost use Rattle.std.specs.Prelude.{◌≡◌, ◌<◌, ◌≤◌, T, []};
ghost use Rattle.std.specs.Option.{ForSome};
ghost use Rattle.port.specs.Replies.{ReplyFits, free_for, mem_of, waiting};

mod one;

pub use one::OneReply;
use routes::act::Act;
use routes::{MOST_BLOCKS, Memory};

// Can the reply to this be so?
pub fn reply_fits(asked: Act, reply: u64) -> bool
    ensures sound { T result → ReplyFits asked reply }
    ensures exact { ReplyFits asked reply → T result }
{
    match asked {
        Act::Obtain => reply <= u64::from(MOST_BLOCKS),
        _ => true,
    }
}

// The block that the reply hands out, if it does: the reply is its number and 1.
fn free_for(asked: Act, reply: u64) -> Option<u32>
    requires { ReplyFits asked reply }
    ensures block { result ≡ free_for asked reply }
    ensures in_memory { ForSome result (λ block. block < 1048576) }
{
    match asked {
        Act::Obtain => (reply as u32).checked_sub(1),
        _ => None,
    }
}

impl OneReply {
    // A memory that replies so when it is asked this by processor p.
    pub fn new(asked: Act, p: u32, cpus: u32, reply: u64) -> OneReply
        requires { ReplyFits asked reply }
        ensures { mem_of result ≡ waiting cpus p reply (free_for asked reply) }
    {
        OneReply {
            cpus,
            who: p,
            value: reply,
            free: free_for(asked, reply),
            asked: None,
        }
    }
}

impl Memory for OneReply {
    ghost mem = { mem_of };

    ghost seen = { λ _. [] };

    fn cpus(&self) -> u32 {
        self.cpus
    }

    fn blocks(&self) -> u32 {
        MOST_BLOCKS
    }

    fn load(&mut self, _p: u32, block: u32, word: u32) -> u64 {
        self.asked = Some(Act::Load { block, word });
        self.value
    }

    fn store(&mut self, _p: u32, block: u32, word: u32, x: u64) {
        self.asked = Some(Act::Store { block, word, x });
    }

    fn fence(&mut self, _p: u32) {
        self.asked = Some(Act::Fence);
    }

    fn swap(&mut self, _p: u32, block: u32, word: u32, old: u64, new: u64) -> u64 {
        self.asked = Some(Act::Swap {
            block,
            word,
            old,
            new,
        });
        self.value
    }

    fn obtain(&mut self, _p: u32) -> Option<u32> {
        self.asked = Some(Act::Obtain);
        self.free
    }

    fn release(&mut self, _p: u32, block: u32) {
        self.asked = Some(Act::Release { block });
    }
}
