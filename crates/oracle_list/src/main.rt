// Replays the recorded answers of the Rust: each journal goes in by pieces of another size, and its lines must be those recorded.
#![tactic(auto)]

ghost use Rattle.std.specs.Prelude.{◌≤◌, length as length_of, IfOk};

use feeding::Replay;
use std::io::{Result, Stdin, Write};
use streams::{Moved, Outputs};

// The pieces of a journal have at most so many bytes.
const LONGEST: usize = 97;

// What a list has told so far.
#[derive(Clone, Copy)]
struct Tally {
    journals: u64,
    equal: u64,
}

// The next bytes of standard input, as many as a space takes or the input still has.
fn read(mut input: Stdin, space: &mut [u8]) -> Result<usize>
    ensures { IfOk result (λ n. n ≤ length_of space.new) }
{
    let moved = streams::read(&mut input, space)?;
    Ok(streams::count(Ok(moved), space))
}

// A length, where its four bytes are there, the lowest first.
fn read_length(mut input: Stdin) -> Result<Option<usize>> {
    let mut bytes = [0u8; 4];
    match streams::read(&mut input, &mut bytes)? {
        Moved::All => Ok(Some(u32::from_le_bytes(bytes) as usize)),
        Moved::Part(_) => Ok(None),
    }
}

// A journal of so many bytes, by pieces of a size.
fn read_journal(input: Stdin, length: usize, size: usize) -> Result<Replay> {
    let mut space = [0u8; LONGEST];
    let mut replay = Replay::new();
    let mut left = length;
    for _ in 0..length {
        let got = read(input, &mut space[..left.min(size).min(LONGEST)])?;
        replay = replay.feed(&space[..got]).replay;
        left -= got;
        if left == 0 {
            break;
        }
    }
    Ok(replay)
}

// Whether the recorded lines, which are read here, are those of a replay.
fn is_told(input: Stdin, replay: Replay, length: usize) -> Result<bool> {
    let mut recorded = [0u8; 512];
    let wanted = length.min(recorded.len());
    let got = read(input, &mut recorded[..wanted])?;
    let mut out = [0u8; 512];
    let told = journal_lines::of(replay, &mut out).unwrap_or(&[]);
    Ok(told == &recorded[..got])
}

// One journal of the list and its recorded lines, unless the list ends.
fn entry(input: Stdin, before: Tally) -> Result<Option<Tally>> {
    let Some(journal) = read_length(input)? else {
        return Ok(None);
    };
    let Some(answer) = read_length(input)? else {
        return Ok(None);
    };
    let size = 1 + before.journals as usize % LONGEST;
    let replay = read_journal(input, journal, size)?;
    let equal = is_told(input, replay, answer)?;
    Ok(Some(Tally {
        journals: before.journals.saturating_add(1),
        equal: before.equal.saturating_add(u64::from(equal)),
    }))
}

// At most a million entries.
fn entries(input: Stdin) -> Result<Tally> {
    let mut tally = Tally {
        journals: 0,
        equal: 0,
    };
    for _ in 0..1000000 {
        let Some(more) = entry(input, tally)? else {
            break;
        };
        tally = more;
    }
    Ok(tally)
}

fn run(input: Stdin, mut to: Outputs) -> Result<()> {
    match entries(input) {
        Ok(Tally { journals, equal }) => writeln!(to, "{journals} journals, {equal} equal"),
        Err(why) => {
            to.unread(Err(why));
            Ok(())
        }
    }
}

// Why an output was not written has been said.
fn main(rt: HostRuntime) {
    let to = Outputs {
        out: rt.stdout(),
        error: rt.stderr(),
        program: "oracle_list",
    };
    let _ = run(rt.stdin(), to);
}
