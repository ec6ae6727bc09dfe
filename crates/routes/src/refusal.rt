// Why a change is turned away.
ghost use Rattle.routes.specs.Refusals.{Numbers, Numbered, PrefixOrRefusal};

use super::prefix::Prefix;

#[derive(Clone, Copy, PartialEq, Eq)]
pub enum Refusal {
    PieceCount = 1,
    UncleanPrefix = 2,
    AbsentRoute = 3,
}

// A number by which no refusal is told.
#[derive(Clone, Copy, PartialEq, Eq)]
pub struct UnknownRefusal(pub u8);

// The number by which it is told.
impl From<Refusal> for u8 {
    ghost from_gives = { Numbers };

    fn from(why: Refusal) -> u8 {
        why as u8
    }
}

impl TryFrom<u8> for Refusal {
    type Error = UnknownRefusal;

    ghost try_from_gives = { Numbered };

    fn try_from(number: u8) -> Result<Refusal, UnknownRefusal> {
        match number {
            1 => Ok(Refusal::PieceCount),
            2 => Ok(Refusal::UncleanPrefix),
            3 => Ok(Refusal::AbsentRoute),
            _ => Err(UnknownRefusal(number)),
        }
    }
}

// The prefix that a length and bits are, if they are one.
pub fn make_prefix(len: u64, bits: u64) -> Result<Prefix, Refusal>
    ensures { PrefixOrRefusal len bits result }
{
    if len <= 32 && bits < 0x1_0000_0000 && bits % (1 << (32 - len)) == 0 {
        Ok(Prefix {
            len: len as u8,
            bits: bits as u32,
        })
    } else {
        Err(Refusal::UncleanPrefix)
    }
}
