// What a replay tells, as 22 numbers at fixed places of a lent buffer: eight bytes each, little-endian, 176 in all.
#![tactic(auto)]

ghost use Rattle.std.specs.Prelude.{◌≡◌, ◌++◌, cond, ◌≤◌, length, drop};
ghost use Rattle.records.specs.Bytes.{little};
ghost use Rattle.listing.specs.Written.{Lent};
ghost use Rattle.figures.specs.Figures.{ended_by, shown, figures, in_order, figured};

use refusals::Refusal;
use summary::{Outcome, Summary};

// How a replay ended: 0 with a round, 1 without one, 2 at a refused record; the refusal's number; the record refused, counted from 1.
#[derive(Clone, Copy)]
pub struct Ended {
    pub kind: u64,
    pub refusal: u64,
    pub place: u64,
}

// Whether there is a block, its id and its number.
#[derive(Clone, Copy)]
pub struct Block {
    pub known: u64,
    pub id: u64,
    pub height: u64,
}

fn ended_by(outcome: Outcome, records: u64) -> Ended
    ensures { result ≡ ended_by outcome records }
{
    match outcome {
        Outcome::Voting => Ended {
            kind: 0,
            refusal: 0,
            place: 0,
        },
        Outcome::Early => Ended {
            kind: 1,
            refusal: 0,
            place: 0,
        },
        Outcome::Refused(refusal) => Ended {
            kind: 2,
            refusal: refusal.number() as u64,
            place: records.saturating_add(1),
        },
    }
}

fn shown(told: Option<(u32, u32)>) -> Block
    ensures { result ≡ shown told }
{
    match told {
        Some((id, number)) => Block {
            known: 1,
            id: id as u64,
            height: number as u64,
        },
        None => Block {
            known: 0,
            id: 0,
            height: 0,
        },
    }
}

fn flag(yes: bool) -> u64
    ensures { result ≡ cond yes 1 0 }
{
    if yes {
        return 1;
    }
    0
}

fn figures(summary: Summary) -> [u64; 22]
    ensures { result ≡ figures summary }
{
    let end = ended_by(summary.outcome, summary.records);
    let ghost_block = shown(summary.prevote);
    let estimate = shown(summary.estimate);
    let finalized = shown(summary.finalized);
    [
        end.kind,
        end.refusal,
        end.place,
        summary.records,
        summary.tail as u64,
        summary.number,
        summary.total,
        summary.threshold,
        summary.heard.prevote,
        summary.heard.precommit,
        summary.prevoters as u64,
        summary.precommitters as u64,
        ghost_block.known,
        ghost_block.id,
        ghost_block.height,
        estimate.known,
        estimate.id,
        estimate.height,
        finalized.known,
        finalized.id,
        finalized.height,
        flag(summary.completable),
    ]
}

// A number in eight bytes, the lowest first; the bytes after them stay.
pub fn put(out: &mut [u8], n: u64)
    requires { 8 ≤ length out.old }
    ensures { out.new ≡ little 8 n ++ drop 8 out.old }
{
    out[..8].copy_from_slice(&n.to_le_bytes());
}

// Numbers one after the other.
fn put_all(out: &mut [u8], numbers: [u64; 22])
    requires { 176 ≤ length out.old }
    ensures { out.new ≡ in_order numbers ++ drop 176 out.old }
{
    let mut used = 0;
    for number in numbers {
        put(&mut out[used..], number);
        used += 8;
    }
}

// The 22 numbers from the start of a lent buffer; the bytes after them stay.
pub fn write(summary: Summary, out: &mut [u8]) -> Result<usize, Refusal>
    ensures { ◌≡◌ {A = Lent} (record { answer = result; bytes = out.new }) (figured summary out.old) }
{
    if out.len() < 176 {
        return Err(Refusal::ShortBuffer);
    }
    put_all(out, figures(summary));
    Ok(176)
}
