// The lines of a script, read in chunks.
ghost use Rattle.std.specs.Prelude.{◌≤◌, length, IfOk};

use super::game::Game;
use super::stop::Stop;
use script::line_end;
use std::io::Read;

// How long a line may be.
pub const LINE_LIMIT: usize = 65536;
// The bytes of a line, and its newline.
pub const LINE_ROOM: usize = LINE_LIMIT + 1;

// Plays the whole lines that a text begins with, and says how long they are.
fn play_whole<R: Print>(rt: &R, game: &mut Game, text: &[u8]) -> Result<usize, Stop>
    ensures { IfOk result (λ n. n ≤ length text.now) }
{
    let mut rest = text;
    while let Some(len) = line_end(rest) {
        game.play_line(rt, &rest[..len])?;
        rest = &rest[len + 1..];
    }
    Ok(text.len() - rest.len())
}

// Plays all lines of a script: the last one may lack its newline.
// What is held of a line stands in front of the room: a BufReader would allocate, and no heap is used.
pub fn play_lines<I: Read, R: Print>(
    rt: &R,
    game: &mut Game,
    input: &mut I,
    room: &mut [u8],
) -> Result<(), Stop> {
    let mut held = 0;
    // a count, since no number of reads is known after which an input ends
    for _ in 0..u64::MAX {
        let read = input.read(&mut room[held..]).map_err(Stop::Unreadable)?;
        if read == 0 {
            break;
        }
        let end = held + read;
        let done = play_whole(rt, game, &room[..end])?;
        room.copy_within(done..end, 0);
        held = end - done;
        if held == room.len() {
            return Err(game.refuse_line());
        }
    }
    if held > 0 {
        game.play_line(rt, &room[..held])
    } else {
        Ok(())
    }
}
