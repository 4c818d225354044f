// Replays a journal cut at every byte, and again in pieces of every size up to 40.
#![tactic(auto)]

use feeding::Replay;
use std::io::{Print, Result, Stdin, Write};
use streams::{Moved, Outputs};

fn print(to: Outputs, replay: Replay) -> Result<()> {
    let mut out = [0u8; 512];
    let Some(lines) = journal_lines::of(replay, &mut out) else {
        return Ok(());
    };
    to.say(lines)
}

// The first bytes alone.
fn cuts(mut to: Outputs, bytes: &[u8]) -> Result<()> {
    for at in 0..=bytes.len() {
        writeln!(to, "cut {at}")?;
        print(to, feeding::replayed(&bytes[..at]))?;
    }
    Ok(())
}

fn by_pieces(bytes: &[u8], size: usize) -> Replay {
    let mut replay = Replay::new();
    if size == 0 {
        return replay;
    }
    for piece in bytes.chunks(size) {
        replay = replay.feed(piece).replay;
    }
    replay
}

fn sizes(mut to: Outputs, bytes: &[u8]) -> Result<()> {
    for size in 1..41 {
        writeln!(to, "pieces {size}")?;
        print(to, by_pieces(bytes, size))?;
    }
    Ok(())
}

fn run(mut input: Stdin, to: Outputs) -> Result<()> {
    let mut space = io::buffer();
    let read = streams::read(&mut input, &mut space);
    let Ok(Moved::Part(_)) = read else {
        unfit(to, read);
        return Ok(());
    };
    let bytes = &space[..streams::count(read, &space)];
    cuts(to, bytes)?;
    sizes(to, bytes)
}

// Says why an input has no pieces.
fn unfit(to: Outputs, read: Result<Moved>) {
    match read {
        Ok(Moved::All) => {
            let _ = to
                .error
                .write_all(b"pieces: standard input: more than 4095 bytes\n");
        }
        _ => to.unread(read),
    }
}

// Why an output was not written has been said.
fn main(rt: HostRuntime) {
    let to = Outputs {
        out: rt.stdout(),
        error: rt.stderr(),
        program: "pieces",
    };
    let _ = run(rt.stdin(), to);
}
