// Numbers, decimal and hexadecimal.
ghost use Rattle.std.specs.Prelude.{◌≡◌, ◌+◌, ◌*◌, ◌<◌};
ghost use Rattle.std.specs.Str.Parse.{digits_value};
ghost use Rattle.script.specs.Numbers.{small, decimal_of, address_of, length_of};

use crate::bytes::{all_digits, digit_value};

// Why a word is no number of 64 bits.
#[derive(Clone, Copy)]
pub enum Misread {
    NotDigits,
    TooLarge,
}

// A number with one digit more.
fn with_digit(n: u64, radix: u64, digit: u64) -> Option<u64>
    ensures { result ≡ small (n * radix + digit) }
{
    n.checked_mul(radix)?.checked_add(digit)
}

// The number that digits write, if it has at most 64 bits.
// Not by u64::from_str_radix, which takes a str, and a plus in front; nor by try_fold, no plainer than a `?` in a loop.
fn value(digits: &[u8], radix: u64) -> Option<u64>
    requires { 0 < radix }
    ensures { result ≡ small (digits_value radix digits.now) }
{
    let mut n: u64 = 0;
    for b in digits {
        n = with_digit(n, radix, u64::from(digit_value(*b)))?;
    }
    Some(n)
}

pub fn decimal(word: &[u8]) -> Result<u64, Misread>
    ensures { result ≡ decimal_of word.now }
{
    if !all_digits(word, 10) {
        return Err(Misread::NotDigits);
    }
    value(word, 10).ok_or(Misread::TooLarge)
}

// An address: eight hexadecimal digits.
pub fn address(word: &[u8]) -> Option<u32>
    ensures { result ≡ address_of word.now }
{
    if word.len() != 8 || !all_digits(word, 16) {
        return None;
    }
    Some(value(word, 16)? as u32)
}

// The length of a prefix: 255 stands for all that are larger.
pub fn length(word: &[u8]) -> Option<u8>
    ensures { result ≡ length_of word.now }
{
    match decimal(word) {
        Ok(n) => Some(n.min(255) as u8),
        Err(Misread::TooLarge) => Some(255),
        Err(Misread::NotDigits) => None,
    }
}
