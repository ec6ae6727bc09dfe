// The blocks that a change has got, and those that it retires: two rows, each with functions of its own name, so that no call can take one row for the other.
ghost use Rattle.std.specs.Prelude.{◌≡◌, ◌+◌, ◌^◌, ◌<◌, ◌≤◌, length, slice_set};
ghost use Rattle.words.specs.Slots.{child_of};
ghost use Rattle.own.specs.Layout.{words_of, fresh_at, retired_at};

use super::layout::{FRESH, OwnWords, RETIRED};
use words::block_of;

// The block that was got as number i.
pub fn fresh_at(own: &OwnWords, i: u32) -> u32
    requires { i < 72 }
    ensures value { result ≡ child_of (words_of own.now (fresh_at i)) }
    ensures small { result < 2 ^ 20 }
{
    block_of(own[FRESH + i as usize])
}

// Block b is the one that was got as number i.
pub fn keep_fresh(own: &mut OwnWords, i: u32, b: u32)
    requires { i < 72 }
    ensures { own.new ≡ slice_set own.old (fresh_at i) b }
{
    own[FRESH + i as usize] = u64::from(b);
}

// The block that is retired as number i, or behind their end one of the path that is being read.
pub fn retired_at(own: &OwnWords, i: u32) -> u32
    requires { i < 81 }
    ensures value { result ≡ child_of (words_of own.now (retired_at i)) }
    ensures small { result < 2 ^ 20 }
{
    block_of(own[RETIRED + i as usize])
}

// Block b is that of level d on the path that is being read, behind so many that are retired.
pub fn note_path(own: &mut OwnWords, retired: u32, d: u8, b: u32)
    requires { (retired ≤ 72) × (d ≤ 8) }
    ensures { own.new ≡ slice_set own.old (retired_at (retired + d)) b }
{
    own[RETIRED + (retired + u32::from(d)) as usize] = u64::from(b);
}
