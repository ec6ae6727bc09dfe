// Commands, and the lines that they stand on.
ghost use Rattle.std.specs.Prelude.{◌≡◌};
ghost use Rattle.script.specs.Lines.{counted_of, go_of, on_of, any_of, arrive_of, find_of, changes_of, ask_of, begin_of, command_of};

use crate::bytes::all_digits;
use crate::expected::Expected;
use crate::keyword::{Keyword, keyword_of};
use crate::line_words::Words;
use crate::numbers::address;
use crate::pieces::{BLANK, read_change};
use crate::processor::Processor;
use crate::reading::{read_count, read_processor, read_seed};
use crate::request::Request;
use routes::Ask;

#[derive(Clone, Copy)]
pub enum Command<const CPUS: u8> {
    // A question or a change begins.
    Begin {
        cpu: Processor<CPUS>,
        request: Request,
    },
    // Up to so many turns of a processor.
    Go {
        cpu: Processor<CPUS>,
        turns: u32,
    },
    // Turns of a processor until it is told.
    On {
        cpu: Processor<CPUS>,
    },
    // So many turns, which the seed chooses.
    Any {
        seed: u64,
        turns: u32,
    },
    // So many stores of a processor arrive.
    Arrive {
        cpu: Processor<CPUS>,
        stores: u32,
    },
}

// A processor, and how many turns or stores of it.
#[tactic(auto, unfolding(crate::specs::Lines::counted_of))]
fn counted<const MOST: u8>(mut words: Words, cpus: u8) -> Result<(Processor<MOST>, u32), Expected>
    ensures { result ≡ counted_of MOST cpus words.entry.rest.now }
{
    let cpu = read_processor(words.next(), cpus)?;
    let count = read_count(words.next())?;
    words.end(Expected::End)?;
    Ok((cpu, count))
}

fn go<const MOST: u8>(words: Words, cpus: u8) -> Result<Command<MOST>, Expected>
    ensures { result ≡ go_of MOST cpus words.entry.rest.now }
{
    let (cpu, turns) = counted(words, cpus)?;
    Ok(Command::Go { cpu, turns })
}

fn on<const MOST: u8>(mut words: Words, cpus: u8) -> Result<Command<MOST>, Expected>
    ensures { result ≡ on_of MOST cpus words.entry.rest.now }
{
    let cpu = read_processor(words.next(), cpus)?;
    words.end(Expected::End)?;
    Ok(Command::On { cpu })
}

fn any<const MOST: u8>(mut words: Words) -> Result<Command<MOST>, Expected>
    ensures { result ≡ any_of MOST words.entry.rest.now }
{
    let seed = read_seed(words.next())?;
    let turns = read_count(words.next())?;
    words.end(Expected::End)?;
    Ok(Command::Any { seed, turns })
}

fn arrive<const MOST: u8>(words: Words, cpus: u8) -> Result<Command<MOST>, Expected>
    ensures { result ≡ arrive_of MOST cpus words.entry.rest.now }
{
    let (cpu, stores) = counted(words, cpus)?;
    Ok(Command::Arrive { cpu, stores })
}

fn find<const MOST: u8>(mut words: Words, cpu: Processor<MOST>) -> Result<Command<MOST>, Expected>
    ensures { result ≡ find_of cpu.entry words.entry.rest.now }
{
    let sought = address(words.next()).ok_or(Expected::Address)?;
    words.end(Expected::End)?;
    let request = Request {
        ask: Ask::Find(sought),
        pieces: [BLANK; 8],
    };
    Ok(Command::Begin { cpu, request })
}

fn change<const MOST: u8>(text: &[u8], cpu: Processor<MOST>) -> Result<Command<MOST>, Expected>
    ensures { result ≡ changes_of cpu.entry text.now }
{
    let change = read_change(text)?;
    let pieces = change.pieces;
    let request = Request {
        ask: Ask::Change(change.count),
        pieces,
    };
    Ok(Command::Begin { cpu, request })
}

// What begins on a processor.
fn ask<const MOST: u8>(words: Words, cpu: Processor<MOST>) -> Result<Command<MOST>, Expected>
    ensures { result ≡ ask_of cpu.entry words.entry.rest.now }
{
    let mut after = words;
    match keyword_of(after.next()) {
        Some(Keyword::Find) => find(after, cpu),
        Some(Keyword::Put | Keyword::Take) => change(words.text(), cpu),
        _ => Err(Expected::Ask),
    }
}

// The first word is a processor's number.
fn begin<const MOST: u8>(first: &[u8], words: Words, cpus: u8) -> Result<Command<MOST>, Expected>
    ensures { result ≡ begin_of MOST cpus first.now words.entry.rest.now }
{
    if !all_digits(first, 10) {
        return Err(Expected::Command);
    }
    let cpu = read_processor(first, cpus)?;
    ask(words, cpu)
}

// A command, of which the first word is read.
pub fn read_command<const MOST: u8>(
    first: &[u8],
    words: Words,
    cpus: u8,
) -> Result<Command<MOST>, Expected>
    ensures { result ≡ command_of MOST cpus first.now words.entry.rest.now }
{
    match keyword_of(first) {
        Some(Keyword::Go) => go(words, cpus),
        Some(Keyword::On) => on(words, cpus),
        Some(Keyword::Any) => any(words),
        Some(Keyword::Arrive) => arrive(words, cpus),
        Some(_) => Err(Expected::Command),
        None => begin(first, words, cpus),
    }
}
