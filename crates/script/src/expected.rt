// What a script's line should have had where it goes wrong.
ghost use Rattle.std.specs.Prelude.{Some};
ghost use Rattle.script.specs.Expectations.{expected_text};

use std::fmt;

#[derive(Clone, Copy)]
pub enum Expected {
    Command,
    // below so many
    Processor(u8),
    Ask,
    Piece,
    Address,
    Prefix,
    Count,
    Seed,
    CommaOrEnd,
    End,
}

impl fmt::Display for Expected {
    ghost output = { λ e. Some (expected_text e) };

    fn fmt<W: fmt::Write>(&self, f: &mut fmt::Formatter<W>) -> fmt::Result {
        match *self {
            Expected::Command => f.write_str("a processor's number, go, on, any or arrive"),
            Expected::Processor(cpus) => write!(f, "a processor's number below {cpus}"),
            Expected::Ask => f.write_str("find, put or take"),
            Expected::Piece => f.write_str("put or take"),
            Expected::Address => f.write_str("an address of eight hexadecimal digits"),
            Expected::Prefix => f.write_str("a prefix, as 0a000000/8"),
            Expected::Count => f.write_str("a number below 4294967296"),
            Expected::Seed => f.write_str("a number below 18446744073709551616"),
            Expected::CommaOrEnd => f.write_str("a comma or the end of the line"),
            Expected::End => f.write_str("the end of the line"),
        }
    }
}
