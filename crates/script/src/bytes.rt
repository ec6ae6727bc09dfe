// What single bytes of a script are.
ghost use Rattle.std.specs.Prelude.{◌≡◌};
ghost use Rattle.std.specs.Char.{digit_value};
ghost use Rattle.script.specs.Bytes.{blank, letter, all_digits};

// The value of a digit or a letter, and 36 for any other byte, as std's definition has it.
pub fn digit_value(b: u8) -> u32
    ensures { result ≡ digit_value b }
{
    char::from(b).to_digit(36).unwrap_or(36)
}

// A space or a tab.
pub fn is_blank(b: u8) -> bool
    ensures { result ≡ blank b }
{
    matches!(b, b' ' | b'\t')
}

// What may stand in a word of several bytes: neither a blank nor a comma.
pub fn is_letter(b: u8) -> bool
    ensures { result ≡ letter b }
{
    !is_blank(b) && b != b','
}

// One byte or more, and all are digits.
pub fn all_digits(text: &[u8], radix: u32) -> bool
    ensures { result ≡ all_digits radix text.now }
{
    !text.is_empty() && text.iter().all(|b| digit_value(*b) < radix)
}
