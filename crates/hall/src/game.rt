// A script that is being played.
ghost use Rattle.std.specs.Prelude.{◌≡◌, ◌<◌, Err};
ghost use Rattle.hall.specs.Games.{next_line, TurnSpent};
ghost use Rattle.hall.specs.declared.stop.Stop.TheVariants.{LongLine, OutOfTurns};

use super::draws::Draws;
use super::player::{CPUS, Player};
use super::stop::Stop;
use super::told::Told;
use script::{Command, CommandLine, Processor, Request, command_line};

// How many turns a script may take.
pub const TURN_LIMIT: u32 = 4_000_000;

#[derive(Drop)]
pub struct Game {
    player: Player,
    // turns that may still be taken
    left: u32,
    // the number of the line that was begun last, from 1
    pub line: u64,
}

impl Game {
    pub fn new() -> Game
        ensures { (result.left ≡ 4000000) × (result.line ≡ 0) }
    {
        Game {
            player: Player::new(),
            left: TURN_LIMIT,
            line: 0,
        }
    }

    // The next line begins.
    fn next_line(&mut self)
        ensures line { self.new.line ≡ next_line self.old }
    {
        self.line = self.line.saturating_add(1);
    }

    // The next line is too long.
    pub fn refuse_line(&mut self) -> Stop
        ensures line { self.new.line ≡ next_line self.old }
        ensures value { result ≡ LongLine }
    {
        self.next_line();
        Stop::LongLine
    }

    // Plays the next line, which comes without its newline.
    pub fn play_line<R: Print>(&mut self, rt: &R, text: &[u8]) -> Result<(), Stop>
        ensures line { self.new.line ≡ next_line self.old }
    {
        self.next_line();
        match command_line(text) {
            Some(line) => self.play_command(rt, line),
            None => Ok(()),
        }
    }

    // Plays the command of a line. A function by itself: a line that has none is not to pay for the room of a command.
    fn play_command<R: Print>(&mut self, rt: &R, line: CommandLine) -> Result<(), Stop>
        ensures line { self.new.line ≡ self.old.line }
    {
        let command = line.read(CPUS)?;
        self.play(rt, command)
    }

    fn play<R: Print>(&mut self, rt: &R, command: Command<CPUS>) -> Result<(), Stop>
        ensures line { self.new.line ≡ self.old.line }
    {
        match command {
            Command::Begin { cpu, request } => self.begin(rt, cpu, request),
            Command::Go { cpu, turns } => self.go(rt, cpu, turns),
            Command::On { cpu } => self.go(rt, cpu, u32::MAX),
            Command::Any { seed, turns } => self.any(rt, seed, turns),
            // no store to a plain table is ever late
            Command::Arrive { .. } => Ok(()),
        }
    }

    fn begin<R: Print>(
        &mut self,
        rt: &R,
        cpu: Processor<CPUS>,
        request: Request,
    ) -> Result<(), Stop>
        ensures line { self.new.line ≡ self.old.line }
    {
        if self.player.begin(cpu, request) {
            return Ok(());
        }
        println!(rt; "{cpu} busy").map_err(Stop::Unprintable)
    }

    // A turn of a processor, if one is left.
    fn turn<R: Print>(&mut self, rt: &R, cpu: Processor<CPUS>) -> Result<(), Stop>
        ensures over { self.old.left ≡ 0 → (result ≡ Err OutOfTurns) × (self.new ≡ self.old) }
        ensures spent { 0 < self.old.left → TurnSpent cpu.number self.old self.new }
        ensures line { self.new.line ≡ self.old.line }
    {
        if self.left == 0 {
            return Err(Stop::OutOfTurns);
        }
        self.left -= 1;
        match self.player.turn(cpu) {
            Some(answer) => rt.println(Told { cpu, answer }).map_err(Stop::Unprintable),
            None => Ok(()),
        }
    }

    // Up to so many turns of a processor, while it has something under way.
    fn go<R: Print>(&mut self, rt: &R, cpu: Processor<CPUS>, turns: u32) -> Result<(), Stop>
        ensures line { self.new.line ≡ self.old.line }
    {
        for _ in 0..turns {
            if !self.player.is_busy(cpu) {
                break;
            }
            self.turn(rt, cpu)?;
        }
        Ok(())
    }

    // So many turns, each of a processor that the seed chooses of those that have something under way.
    fn any<R: Print>(&mut self, rt: &R, seed: u64, turns: u32) -> Result<(), Stop>
        ensures line { self.new.line ≡ self.old.line }
    {
        let mut draws = Draws::new(seed);
        for _ in 0..turns {
            let Some(cpu) = self.player.choose(draws.next()) else {
                break;
            };
            self.turn(rt, cpu)?;
            // the number that chooses a store which arrives: none is ever late
            let _ = draws.next();
        }
        Ok(())
    }

    // The last line that is printed.
    pub fn end<R: Print>(&self, rt: &R) -> Result<(), Stop> {
        let held = self.player.held();
        println!(rt; "held {held}").map_err(Stop::Unprintable)
    }
}
