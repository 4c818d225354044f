// Prints the answers after every vote record of a journal, and document 01's lines at its end. Bytes go in one by one, so that the end
// of each record is seen. Of an input that is not read to its end it prints no last lines, so that what it printed is seen to be cut off.
#![tactic(auto)]

ghost use Rattle.std.specs.Prelude.{◌≡◌, IfOk};

use feeding::Replay;
use std::io::{Result, Stdin};
use streams::{Moved, Outputs};

// A replay after a piece of its journal, and how the piece was read.
#[derive(Clone, Copy)]
struct Piece {
    replay: Replay,
    read: Result<Moved>,
}

// The bytes of a replay's last line, where no byte is left.
const TAIL: usize = b"tail 0\n".len();

// The answers of a replay: its lines but for the last.
fn print(to: Outputs, replay: Replay) -> Result<()> {
    let mut out = [0u8; 512];
    let Some(lines) = journal_lines::of(replay, &mut out) else {
        return Ok(());
    };
    let Some(shown) = lines.len().checked_sub(TAIL) else {
        return Ok(());
    };
    to.say(&lines[..shown])
}

// A record of a mark that begins with 'P' is a vote; after it no byte is left.
fn step(to: Outputs, before: Replay, byte: u8) -> Result<Replay> {
    let replay = before.feed(&[byte]).replay;
    if before.rest.bytes[0] == b'P' && before.records < replay.records {
        print(to, replay)?;
    }
    Ok(replay)
}

// One more piece of a journal, as it was read.
fn stepped(to: Outputs, before: Replay, read: Result<Moved>, space: &[u8]) -> Result<Piece>
    ensures { IfOk result (λ piece. piece.read ≡ read) }
{
    let mut replay = before;
    for byte in &space[..streams::count(read, space)] {
        replay = step(to, replay, *byte)?;
    }
    Ok(Piece { replay, read })
}

// The next piece of standard input.
fn next(mut input: Stdin, to: Outputs, before: Replay) -> Result<Piece> {
    let mut space = io::buffer();
    let read = streams::read(&mut input, &mut space);
    stepped(to, before, read, &space)
}

// An input may have no end, so nothing but the count of pieces shows that this ends; no run reads as many as are counted.
fn read_all(input: Stdin, to: Outputs) -> Result<Piece> {
    let mut replay = Replay::new();
    for _ in 0..u64::MAX {
        let piece = next(input, to, replay)?;
        let Ok(Moved::All) = piece.read else {
            return Ok(piece);
        };
        replay = piece.replay;
    }
    Ok(Piece {
        replay,
        read: Ok(Moved::All),
    })
}

fn run(input: Stdin, to: Outputs) -> Result<()> {
    let Piece { replay, read } = read_all(input, to)?;
    let Ok(Moved::Part(_)) = read else {
        to.unread(read);
        return Ok(());
    };
    let mut out = [0u8; 512];
    let Some(lines) = journal_lines::of(replay, &mut out) else {
        return Ok(());
    };
    to.tell(read, lines)
}

// Why an output was not written has been said.
fn main(rt: HostRuntime) {
    let to = Outputs {
        out: rt.stdout(),
        error: rt.stderr(),
        program: "watch",
    };
    let _ = run(rt.stdin(), to);
}
