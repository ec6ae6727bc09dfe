// Images of nodes: 16 children and 15 route words, from which the slots of a node follow.
ghost use Rattle.std.specs.Prelude.{◌≡◌, ◌<◌, ◌≤◌, length};
ghost use Rattle.own.specs.Layout.{words_of};
ghost use Rattle.own.specs.Images.{noted, bare, image_word};

use super::layout::{OwnWords, image_at};
use words::{Slot, best_fit, block_of};

// Word i of a node, as it was loaded, goes into the image of level d; of a slot only the child.
pub fn note_word(own: &mut OwnWords, d: u8, i: u32, x: u64)
    requires { (d ≤ 8) × (i < 31) }
    ensures { own.new ≡ noted own.old d i x }
{
    own[image_at(d, i)] = if i < 16 { u64::from(block_of(x)) } else { x };
}

// Slot n of the node that the image of level d is to become.
fn slot_word(own: &OwnWords, d: u8, n: u32) -> u64
    requires { (d ≤ 8) × (n < 16) }
    ensures { result ≡ image_word (words_of own.now) d n }
{
    let fit = best_fit(&own[image_at(d, 16)..image_at(d, 31)], n);
    Slot {
        child: block_of(own[image_at(d, n)]),
        fit,
    }
    .pack()
}

// Word i of the node that the image of level d is to become.
#[tactic(auto, unfolding(crate::specs::Images::packed))]
pub fn image_word(own: &OwnWords, d: u8, i: u32) -> u64
    requires { (d ≤ 8) × (i < 31) }
    ensures { result ≡ image_word (words_of own.now) d i }
{
    if i < 16 {
        slot_word(own, d, i)
    } else {
        own[image_at(d, i)]
    }
}

// Does the image of level d hold no child and no route?
pub fn is_empty(own: &OwnWords, d: u8) -> bool
    requires { d ≤ 8 }
    ensures { result ≡ bare (words_of own.now) d }
{
    own[image_at(d, 0)..image_at(d, 31)].iter().all(|x| *x == 0)
}
