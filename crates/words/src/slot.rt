// What a slot word and a route word hold.
ghost use Rattle.std.specs.Prelude.{◌≡◌, ◌%◌, ◌^◌, ◌<◌, length, slice_index};
ghost use Rattle.words.specs.Slots.{InRange, UnpacksWhatItPacks, route_word, fit_or, best_fit, slot_word, child_of, fit_of, slot_of};

use super::address::candidate;

// The longest route of a node that fits a slot: its length beyond the bits above the node, 0 to 3, and what it tells.
// Its range is a clause, `InRange`, and not a fact of the type: the definitions make fits from words that hold anything.
#[derive(Clone, Copy)]
pub struct Fit {
    pub extra: u8,
    pub tells: u32,
}

// A slot: the block of the node below, or 0 for none as in its word, and the longest route of the slot's own node that fits.
#[derive(Clone, Copy)]
pub struct Slot {
    pub child: u32,
    pub fit: Option<Fit>,
}

// The block that a word names; of a slot word, its child.
#[tactic(auto, unfolding(crate::specs::Slots::child_of))]
pub fn block_of(x: u64) -> u32
    ensures value { result ≡ child_of x }
    ensures small { result < 2 ^ 20 }
{
    (x % 0x10_0000) as u32
}

// The low 32 bits of a word; a half is no block, so each has a name of its own.
pub fn low_half(x: u64) -> u32
    ensures { result ≡ x % 2 ^ 32 }
{
    (x % 0x1_0000_0000) as u32
}

// The word of a route, which is never 0: that is no route.
#[tactic(auto, unfolding(crate::specs::Slots::route_word))]
pub fn route_word(tells: u32) -> u64
    ensures value { result ≡ route_word tells }
    ensures present { 0 < result }
{
    0x1_0000_0000 + u64::from(tells)
}

// The route of a slot word.
#[tactic(auto, unfolding(crate::specs::Slots::fit_of))]
fn fit_of(x: u64) -> Option<Fit>
    ensures value { result ≡ fit_of x }
    ensures inside { InRange result }
{
    if (x >> 54) % 2 == 1 {
        Some(Fit {
            extra: ((x >> 52) % 4) as u8,
            tells: low_half(x >> 20),
        })
    } else {
        None
    }
}

// No `From` both ways: a slot is packed only where its child and its fit are in their ranges. That a child is a block, below 2^20, is a clause for the reason of `InRange`.
impl Slot {
    // What a slot word holds.
    pub fn unpack(x: u64) -> Slot
        ensures value { result ≡ slot_of x }
        ensures small { result.child < 2 ^ 20 }
        ensures inside { InRange result.fit }
    {
        Slot {
            child: block_of(x),
            fit: fit_of(x),
        }
    }

    // The word of a slot.
    #[tactic(auto, unfolding(crate::specs::Slots::slot_word))]
    pub fn pack(self) -> u64
        requires small { self.child < 2 ^ 20 }
        requires inside { InRange self.fit }
        ensures { result ≡ slot_word self.child self.fit }
    {
        let child = u64::from(self.child);
        match self.fit {
            Some(fit) => child
                + (u64::from(fit.tells) << 20)
                + (u64::from(fit.extra) << 52)
                + (1 << 54),
            None => child,
        }
    }
}

// A route word of an extra length goes before what fitted till then, if it has a route.
#[tactic(auto, unfolding(crate::specs::Slots::fit_or))]
fn fit_or(extra: u8, word: u64, best: Option<Fit>) -> Option<Fit>
    requires short { extra < 4 }
    requires inside { InRange best }
    ensures value { result ≡ fit_or extra word best }
    ensures inside { InRange result }
{
    if word == 0 {
        best
    } else {
        Some(Fit {
            extra,
            tells: low_half(word),
        })
    }
}

// The longest route that fits slot n, of a node with these 15 route words: a slice, since they are a part of an image.
pub fn best_fit(routes: &[u64], n: u32) -> Option<Fit>
    requires { (length routes.now ≡ 15) × (n < 16) }
    ensures value { result ≡ best_fit (λ x. slice_index routes.now x) n }
    ensures inside { InRange result }
{
    let mut best = None;
    for extra in 0..4 {
        best = fit_or(extra, routes[candidate(extra, n) as usize], best);
    }
    best
}

// Unpacking a packed slot gives the slot.
pub fn unpacks_what_it_packs() -> u8
    ensures { UnpacksWhatItPacks }
{
    0
}
