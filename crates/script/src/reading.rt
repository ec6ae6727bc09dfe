// The single words that commands are made of.
ghost use Rattle.std.specs.Prelude.{◌≡◌};
ghost use Rattle.script.specs.Reading.{processor_of, count_of, seed_of, prefix_of};

use crate::expected::Expected;
use crate::numbers::{address, decimal, length};
use crate::processor::Processor;

// An address of which the first bits count.
// Not routes::Prefix, whose bits behind its length are 0: a script may write others.
#[derive(Clone, Copy)]
pub struct Prefix {
    pub bits: u32,
    pub len: u8,
}

// A processor's number, where there are so many.
pub fn read_processor<const MOST: u8>(word: &[u8], cpus: u8) -> Result<Processor<MOST>, Expected>
    ensures { result ≡ processor_of MOST cpus word.now }
{
    let Ok(number) = decimal(word) else {
        return Err(Expected::Processor(cpus));
    };
    if number < u64::from(cpus) {
        return Processor::new(number).ok_or(Expected::Processor(cpus));
    }
    Err(Expected::Processor(cpus))
}

// What is told, or how many turns or stores.
pub fn read_count(word: &[u8]) -> Result<u32, Expected>
    ensures { result ≡ count_of word.now }
{
    let count = decimal(word).map_err(|_| Expected::Count)?;
    u32::try_from(count).map_err(|_| Expected::Count)
}

pub fn read_seed(word: &[u8]) -> Result<u64, Expected>
    ensures { result ≡ seed_of word.now }
{
    decimal(word).map_err(|_| Expected::Seed)
}

// An address, a slash and a length.
pub fn read_prefix(word: &[u8]) -> Result<Prefix, Expected>
    ensures { result ≡ prefix_of word.now }
{
    let Some((bits, [b'/', len @ ..])) = word.split_at_checked(8) else {
        return Err(Expected::Prefix);
    };
    address(bits)
        .zip(length(len))
        .map(|(bits, len)| Prefix { bits, len })
        .ok_or(Expected::Prefix)
}
