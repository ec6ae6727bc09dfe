// The words of a line, one after the other.
ghost use Rattle.std.specs.Prelude.{◌≡◌, ◌≤◌, length};
ghost use Rattle.std.specs.List.{prefix_len};
ghost use Rattle.script.specs.Bytes.{blank, letter};
ghost use Rattle.script.specs.Reading.{end_of};
ghost use Rattle.script.specs.Words.{extent, word, past};

use crate::bytes::{is_blank, is_letter};
use crate::expected::Expected;

// What is left to read of a line.
// No Iterator: at the end comes an empty word, of which each reader says what it expected.
#[derive(Clone, Copy)]
pub struct Words<'a> {
    rest: &'a [u8],
}

// How many blanks a text begins with. With the test as a closure that is passed, search finds no proof; so letters are counted by a function of their own.
fn blanks(text: &[u8]) -> usize
    ensures value { result ≡ prefix_len blank text.now }
    ensures bound { result ≤ length text.now }
{
    text.iter().take_while(|b| is_blank(**b)).count()
}

// How many letters it begins with.
fn letters(text: &[u8]) -> usize
    ensures value { result ≡ prefix_len letter text.now }
    ensures bound { result ≤ length text.now }
{
    text.iter().take_while(|b| is_letter(**b)).count()
}

// How long the word is that a text begins with: a comma is a word by itself.
fn word_len(text: &[u8]) -> usize
    ensures value { result ≡ extent text.now }
    ensures bound { result ≤ length text.now }
{
    match text {
        [b',', ..] => 1,
        _ => letters(text),
    }
}

impl<'a> Words<'a> {
    pub fn new(text: &'a [u8]) -> Words<'a>
        ensures { result.rest.now ≡ text.now }
    {
        Words { rest: text }
    }

    // The next word; an empty one at the end of the line.
    pub fn next(&mut self) -> &'a [u8]
        ensures word { result.now ≡ word self.old.rest.now }
        ensures rest { self.new.rest.now ≡ past self.old.rest.now }
    {
        let (_, text) = self.rest.split_at(blanks(self.rest));
        let (word, rest) = text.split_at(word_len(text));
        self.rest = rest;
        word
    }
    // No word is left; else this was expected.
    pub fn end(mut self, expected: Expected) -> Result<(), Expected>
        ensures { result ≡ end_of expected self.entry.rest.now }
    {
        if self.next().is_empty() {
            Ok(())
        } else {
            Err(expected)
        }
    }
    // What is left, as it stands.
    pub fn text(&self) -> &'a [u8]
        ensures { result.now ≡ self.now.rest.now }
    {
        self.rest
    }
}
