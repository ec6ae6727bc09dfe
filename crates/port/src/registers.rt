// Registers as 16 words, to be kept outside and taken up again.
ghost use Rattle.std.specs.Prelude.{◌≡◌, ◌%◌, ◌<◌, ◌≤◌, ◌↔◌, length, Some as Some', IsTrue, EachIndex, slice_index};
ghost use Rattle.std.specs.Result.{result_ok};
ghost use Rattle.port.specs.Registers.{most_at, narrow as narrow_of, best_in, job_in, fields_in, registers_in, registers_of, cpu_of};

use crate::fields::{AnswerWords, Fields, Registers, UnknownState};
use routes::Cpu;
use routes::update::job::Job;
use routes::work::Work;
use words::low_half;

pub const REGISTER_WORDS: usize = 16;

pub type RegisterWords = [u64; REGISTER_WORDS];

// The most that a word can be: an epoch takes all of it, a level a byte, an answer six, the others four.
fn most_at(i: usize) -> u64
    ensures { result ≡ most_at i }
{
    match i {
        8 => u64::MAX,
        12 => 255,
        15 => 0xffff_ffff_ffff,
        _ => 0xffff_ffff,
    }
}

// Is no word more than it can be?
fn narrow(words: &RegisterWords) -> bool
    ensures { result ≡ narrow_of words.now }
{
    // no `all`: a test and a jump for each word cost half as much again where it is the last that is too wide
    words
        .iter()
        .enumerate()
        .fold(true, |fit, (i, x)| fit & (*x <= most_at(i)))
}

// The low byte; `as` alone may cut nothing off, so the remainder is taken first.
fn low_byte(x: u64) -> u8
    ensures { result ≡ x % 256 }
{
    (x % 256) as u8
}

// An answer in one word: what it tells, its length, its kind.
fn best_in(x: u64) -> AnswerWords
    ensures { result ≡ best_in x }
{
    AnswerWords {
        kind: low_byte(x / 0x100_0000_0000),
        len: low_byte(x / 0x1_0000_0000),
        tells: low_half(x),
    }
}

fn best_word(best: AnswerWords) -> u64
    ensures same { best_in result ≡ best }
    ensures small { result < 281474976710656 }
{
    best.tells as u64 + 0x1_0000_0000 * best.len as u64 + 0x100_0000_0000 * best.kind as u64
}

fn job_in(words: &RegisterWords) -> Job
    ensures { result ≡ job_in words.now }
{
    Job {
        size: low_half(words[2]),
        need: low_half(words[3]),
        got: low_half(words[4]),
        used: low_half(words[5]),
        retired: low_half(words[6]),
        root: low_half(words[7]),
    }
}

fn fields_in(words: &RegisterWords) -> Fields
    ensures { result ≡ fields_in words.now }
{
    Fields {
        state: low_half(words[1]),
        epoch: words[8],
        index: low_half(words[9]),
        node: low_half(words[10]),
        next: low_half(words[11]),
        level: low_byte(words[12]),
        word: low_half(words[13]),
        first: low_half(words[14]),
        best: best_in(words[15]),
    }
}

// The registers in the words, if each is one that can be.
impl TryFrom<&RegisterWords> for Registers {
    type Error = UnknownState;

    ghost try_from_gives = { λ o r. result_ok r ≡ registers_of o.now };

    fn try_from(words: &RegisterWords) -> Result<Registers, UnknownState> {
        if !narrow(words) {
            return Err(UnknownState);
        }
        Ok(Registers {
            phase: low_half(words[0]),
            job: job_in(words),
            fields: fields_in(words),
        })
    }
}

// Registers as the words that they are read from.
impl From<Registers> for RegisterWords {
    ghost from_gives = { λ r o. registers_of o ≡ Some' r };

    fn from(r: Registers) -> RegisterWords {
        [
            r.phase as u64,
            r.fields.state as u64,
            r.job.size as u64,
            r.job.need as u64,
            r.job.got as u64,
            r.job.used as u64,
            r.job.retired as u64,
            r.job.root as u64,
            r.fields.epoch,
            r.fields.index as u64,
            r.fields.node as u64,
            r.fields.next as u64,
            r.fields.level as u64,
            r.fields.word as u64,
            r.fields.first as u64,
            best_word(r.fields.best),
        ]
    }
}

// A processor whose registers were saved in these words; none if they were not.
pub fn restore(words: &[u64]) -> Option<Cpu>
    ensures { result ≡ cpu_of words.now }
{
    let words: &RegisterWords = words.as_array()?;
    let registers = Registers::try_from(words).ok()?;
    let work = Work::try_from(registers).ok()?;
    Some(Cpu { work })
}

// So that it can be restored.
pub fn save(cpu: Cpu, words: &mut RegisterWords)
    ensures { cpu_of words.new ≡ Some' cpu }
{
    *words = Registers::from(cpu.work).into();
}
