// A line of a script.
ghost use Rattle.std.specs.Prelude.{◌≡◌, false, T, MatchOption};
ghost use Rattle.script.specs.Lines.{Lacks, FirstAt, passed, chomped, command_of, line_of};
ghost use Rattle.script.specs.Words.{word, past};

use crate::command::{Command, read_command};
use crate::expected::Expected;
use crate::line_words::Words;

// Where the first newline stands.
pub fn line_end(text: &[u8]) -> Option<usize>
    ensures { MatchOption result (Lacks 10 text.now) (λ n. FirstAt 10 text.now n) }
{
    text.iter().position(|b| *b == b'\n')
}

// A line without the carriage return at its end.
fn chomp(text: &[u8]) -> &[u8]
    ensures { result.now ≡ chomped text.now }
{
    text.strip_suffix(b"\r").unwrap_or(text)
}

// A line that has a command: its first word, and what follows it.
#[derive(Clone, Copy)]
pub struct CommandLine<'a> {
    first: &'a [u8],
    words: Words<'a>,
}

impl CommandLine<'_> {
    // The command, where there are so many processors.
    pub fn read<const MOST: u8>(self, cpus: u8) -> Result<Command<MOST>, Expected>
        ensures { result ≡ command_of MOST cpus self.entry.first.now self.entry.words.rest.now }
    {
        read_command(self.first, self.words, cpus)
    }
}

// A line, which comes without its newline, if it has a command; none if it is blank or a comment.
pub fn command_line(text: &[u8]) -> Option<CommandLine<'_>>
    ensures { MatchOption result (T (passed (word (chomped text.now)))) (λ l. (passed (word (chomped text.now)) ≡ false) × (l.first.now ≡ word (chomped text.now)) × (l.words.rest.now ≡ past (chomped text.now))) }
{
    let mut words = Words::new(chomp(text));
    match words.next() {
        [] | [b'#', ..] => None,
        first => Some(CommandLine { first, words }),
    }
}

// The command of a line, where there are so many processors; none if it is blank or a comment.
// Of a caller that knows their number when it runs; it is at most 255.
pub fn read_line(text: &[u8], cpus: u8) -> Result<Option<Command<255>>, Expected>
    ensures { result ≡ line_of 255 cpus text.now }
{
    match command_line(text) {
        Some(line) => line.read(cpus).map(Some),
        None => Ok(None),
    }
}

// The same, of a caller that knows their number before: what is read is of a type that says it.
pub fn read_line_for<const CPUS: u8>(text: &[u8]) -> Result<Option<Command<CPUS>>, Expected>
    ensures { result ≡ line_of CPUS CPUS text.now }
{
    match command_line(text) {
        Some(line) => line.read(CPUS).map(Some),
        None => Ok(None),
    }
}
