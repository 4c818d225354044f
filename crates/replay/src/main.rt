// Reads a journal from standard input and prints document 01's lines. Of an input that is not read to its end it prints none.
#![tactic(auto)]

ghost use Rattle.std.specs.Prelude.{◌≡◌};

use feeding::Replay;
use std::io::{Result, Stdin};
use streams::{Moved, Outputs};

// A replay after a piece of its journal, and how the piece was read.
#[derive(Clone, Copy)]
struct Piece {
    replay: Replay,
    read: Result<Moved>,
}

// One more piece of a journal, as it was read.
fn fed(before: Replay, read: Result<Moved>, space: &[u8]) -> Piece
    ensures { result.read ≡ read }
{
    let got = streams::count(read, space);
    let replay = before.feed(&space[..got]).replay;
    Piece { replay, read }
}

// The next piece of standard input.
fn next(mut input: Stdin, before: Replay) -> Piece {
    let mut space = io::large_buffer();
    let read = streams::read(&mut input, &mut space);
    fed(before, read, &space)
}

// An input may have no end, so nothing but the count of pieces shows that this ends; no run reads as many as are counted.
fn read_all(input: Stdin) -> Piece {
    let mut replay = Replay::new();
    for _ in 0..u64::MAX {
        let piece = next(input, replay);
        let Ok(Moved::All) = piece.read else {
            return piece;
        };
        replay = piece.replay;
    }
    Piece {
        replay,
        read: Ok(Moved::All),
    }
}

fn run(input: Stdin, to: Outputs) -> Result<()> {
    let Piece { replay, read } = read_all(input);
    let Ok(Moved::Part(_)) = read else {
        to.unread(read);
        return Ok(());
    };
    let mut out = [0u8; 512];
    let Some(lines) = journal_lines::of(replay, &mut out) else {
        return Ok(());
    };
    to.tell(read, lines)
}

// Why an output was not written has been said.
fn main(rt: HostRuntime) {
    let to = Outputs {
        out: rt.stdout(),
        error: rt.stderr(),
        program: "replay",
    };
    let _ = run(rt.stdin(), to);
}
