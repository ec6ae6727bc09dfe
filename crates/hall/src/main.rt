// Plays scripts of a parcel hall: processors look routes up and change them, a turn at a time.
// The runtime and the room for a line are handed on to whoever reads or prints; there is one of each for all scripts.
#![tactic(auto)]

ghost use Rattle.std.specs.Prelude.{◌≡◌, is_err};
ghost use Rattle.hall.specs.Stops.{is_error};

mod draws;
mod game;
mod player;
mod source;
mod stop;
mod told;

use game::Game;
use source::{LINE_ROOM, play_lines};
use std::env::{Env, FillError};
use std::fs::File;
use std::io::Read;
use std::process::ExitCode;
use std::rt::Files;
use stop::{Complaint, Stop};

// A script went wrong, which has been said on standard error.
#[derive(Clone, Copy)]
struct Failed;

// Says on standard error why a script stopped, and fails if that is an error.
fn complain<R: Eprint>(rt: &R, complaint: Complaint) -> Result<(), Failed>
    ensures { is_err result ≡ is_error complaint.entry.stop }
{
    let _ = rt.eprintln(complaint);
    if complaint.stop.is_error() {
        Err(Failed)
    } else {
        Ok(())
    }
}

// Plays a script from a fresh start.
fn play<I: Read, R: Print + Eprint>(
    rt: &R,
    name: &str,
    input: &mut I,
    room: &mut [u8],
) -> Result<(), Failed> {
    let mut game = Game::new();
    if let Err(stop) = play_lines(rt, &mut game, input, room) {
        let line = game.line;
        complain(rt, Complaint { name, line, stop })?;
    }
    if let Err(stop) = game.end(rt) {
        let line = game.line;
        complain(rt, Complaint { name, line, stop })?;
    }
    Ok(())
}

fn play_file<R: Files + Print + Eprint>(rt: &R, name: &str, room: &mut [u8]) -> Result<(), Failed> {
    match File::open(rt, name) {
        Ok(mut file) => play(rt, name, &mut file, room),
        Err(error) => {
            let stop = Stop::Unreadable(error);
            complain(
                rt,
                Complaint {
                    name,
                    line: 0,
                    stop,
                },
            )
        }
    }
}

// Plays the script that an argument names, if there is such an argument.
fn play_argument<R: Env + Files + Print + Eprint>(
    rt: &R,
    i: usize,
    room: &mut [u8],
) -> Result<bool, Failed> {
    let mut name = [0u8; 4096];
    let len = match rt.arg(i, &mut name) {
        Ok(len) => len,
        Err(FillError::NotPresent) => return Ok(false),
        Err(FillError::TooLong) => {
            let _ = eprintln!(rt; "argument {i}: expected a name of at most 4096 bytes");
            return Err(Failed);
        }
    };
    let Ok(text) = std::str::from_utf8(&name[..len]) else {
        let _ = eprintln!(rt; "argument {i}: expected a name in UTF-8");
        return Err(Failed);
    };
    play_file(rt, text, room)?;
    Ok(true)
}

// Plays the scripts that the arguments behind the first one name.
// They are asked for by number: a list of them would be on the heap.
fn play_others<R: Env + Files + Print + Eprint>(rt: &R, room: &mut [u8]) -> Result<(), Failed> {
    for i in 2..usize::MAX {
        if !play_argument(rt, i, room)? {
            break;
        }
    }
    Ok(())
}

// Plays the scripts that the arguments name, or standard input if there is none.
fn play_all(rt: &HostRuntime) -> Result<(), Failed> {
    let mut room = [0u8; LINE_ROOM];
    if play_argument(rt, 1, &mut room)? {
        return play_others(rt, &mut room);
    }
    play(rt, "stdin", &mut rt.stdin(), &mut room)
}

fn main(rt: HostRuntime) -> ExitCode {
    match play_all(&rt) {
        Ok(()) => ExitCode::SUCCESS,
        Err(Failed) => ExitCode::FAILURE,
    }
}
