// Which words of a node an address and a route have.
ghost use Rattle.std.specs.Prelude.{◌≡◌, ◌<◌, ◌≤◌};
ghost use Rattle.words.specs.Address.{nib as nib_of, place as place_of, candidate as candidate_of};

// The four bits of the address a by which level d decides.
#[tactic(auto, unfolding(crate::specs::Address::nib))]
pub fn nib(d: u8, a: u32) -> u32
    requires { d ≤ 8 }
    ensures value { result ≡ nib_of d a }
    ensures small { result < 16 }
{
    (((u64::from(a) << 4) >> (32 - 4 * d)) % 16) as u32
}

// Where among the 15 route words of its node a route stands.
pub fn route_place(len: u8, bits: u32) -> u32
    requires { len ≤ 32 }
    ensures value { result ≡ place_of len bits }
    ensures small { result < 15 }
{
    let width = 1u64 << (len % 4);
    (width - 1 + (u64::from(bits) >> (32 - len)) % width) as u32
}

// Where among the 15 route words of a node the one of an extra length stands that fits slot n.
pub fn candidate(extra: u8, n: u32) -> u32
    requires { (extra < 4) × (n < 16) }
    ensures value { result ≡ candidate_of extra n }
    ensures small { result < 15 }
{
    (1u32 << extra) - 1 + (n >> (4 - extra))
}
