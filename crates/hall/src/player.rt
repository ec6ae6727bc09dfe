// Four processors and their table: whatever is asked takes effect in its processor's next turn, in which it is told.
ghost use Rattle.std.specs.Prelude.{◌≡◌, ◌<◌, [], replicate, is_some, None, MatchOption};
ghost use Rattle.plain.specs.Tables.{table_routes};
ghost use Rattle.hall.specs.Players.{job_of, Begun, AskTold, outcome_of, Turned, busy_below, IsNth, Chosen};

use plain::{ChangeError, PlainTable};
use routes::{Answer, Ask, Piece, Refusal};
use script::{Processor, Request};

pub const CPUS: u8 = 4;
// A plain table holds the header block alone.
const HEADER_BLOCKS: u32 = 1;

#[derive(Drop)]
pub struct Player {
    table: PlainTable,
    // what each was asked
    jobs: [Option<Request>; CPUS as usize],
}

impl Player {
    // No routes, and nothing under way.
    pub fn new() -> Player
        ensures routes { table_routes result.table ≡ [] }
        ensures jobs { result.jobs ≡ replicate 4 None }
    {
        Player {
            table: PlainTable::new(),
            jobs: [None; CPUS as usize],
        }
    }

    // Has a processor something under way?
    pub fn is_busy(&self, cpu: Processor<CPUS>) -> bool
        ensures { result ≡ is_some (job_of self.now cpu.number) }
    {
        self.jobs[cpu.number as usize].is_some()
    }

    // Something begins on a processor, unless it has something under way.
    pub fn begin(&mut self, cpu: Processor<CPUS>, request: Request) -> bool
        ensures { Begun (job_of self.old cpu.number) cpu.number request self.old result self.new }
    {
        if self.is_busy(cpu) {
            return false;
        }
        self.jobs[cpu.number as usize] = Some(request);
        true
    }

    // A turn of a processor, and what it tells.
    pub fn turn(&mut self, cpu: Processor<CPUS>) -> Option<Answer>
        ensures { Turned (job_of self.old cpu.number) cpu.number self.old result self.new }
    {
        let request = self.jobs[cpu.number as usize].take()?;
        Some(answer(&mut self.table, request))
    }

    // The processor whose turn it is by a number, of those that have something under way.
    pub fn choose(&self, number: u64) -> Option<Processor<CPUS>>
        ensures { Chosen self.now.jobs number result }
    {
        let nth = number.checked_rem(self.busy_count() as u64)?;
        self.nth_busy(nth as usize)
    }

    // How many processors have something under way.
    fn busy_count(&self) -> usize
        ensures { result ≡ busy_below self.now.jobs 4 }
    {
        self.busy_before(CPUS as usize)
    }

    // How many of the first so many have something under way.
    fn busy_before(&self, many: usize) -> usize
        ensures { result ≡ busy_below self.now.jobs many }
    {
        self.jobs
            .iter()
            .take(many)
            .filter(|job| job.is_some())
            .count()
    }

    // The processor that has something under way and before which n have.
    fn nth_busy(&self, n: usize) -> Option<Processor<CPUS>>
        requires { n < busy_below self.now.jobs 4 }
        ensures { MatchOption result ⊥ (λ p. IsNth self.now.jobs n p.number) }
    {
        let (number, _) = self.jobs.iter().enumerate().find(|(number, job)| job.is_some()
            && self.busy_before(*number) == n)?;
        let number = number as u8;
        Some(Processor { number })
    }

    // How many blocks are held.
    pub fn held(&self) -> u32
        ensures { result ≡ 1 }
    {
        HEADER_BLOCKS
    }
}

// What is told of what was asked.
fn answer(table: &mut PlainTable, request: Request) -> Answer
    ensures { AskTold request.ask request.pieces table.old result table.new }
{
    match request.ask {
        Ask::Find(address) => table.find(address),
        Ask::Change(size) => change(table, size, &request.pieces),
    }
}

// A change of so many pieces, and what is told of it.
fn change(table: &mut PlainTable, size: u32, pieces: &[Piece; 8]) -> Answer
    ensures { AskTold (Ask.Change size) pieces.now table.old result table.new }
{
    if size > 8 {
        return Answer::No(u8::from(Refusal::PieceCount));
    }
    outcome(table.change(&pieces[..size as usize]))
}

// What is told of how a change went; no From, since the result and `Answer` are both of other crates.
fn outcome(res: Result<(), ChangeError>) -> Answer
    ensures { result ≡ outcome_of res }
{
    match res {
        Ok(()) => Answer::Done,
        Err(ChangeError::Refused(refusal)) => Answer::No(u8::from(refusal)),
        Err(ChangeError::NoRoom) => Answer::Full,
    }
}
