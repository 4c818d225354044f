// The journal's third turn: votes, and blocks between them, on lent columns. A round that keeps the shape keeps it at each record, so nothing
// is tested again.
#![tactic(auto)]

ghost use Rattle.std.specs.Prelude.{◌≡◌, ◌≤◌, length, drop};
ghost use Rattle.lent.specs.Moment.{given, before, given_mut, before_mut, after};
ghost use Rattle.importing.specs.Import.{framed};
ghost use Rattle.importing.specs.Lent.{voters_at, table_at, held_at};
ghost use Rattle.held_laws.specs.Kept.{Kept};
ghost use Rattle.marks.specs.Marks as marks;
ghost use Rattle.runs.specs.Run.{ended, ran};
ghost use Rattle.runs.specs.Tried.{Tried, tried};
ghost use Rattle.voting.specs.Voting.{Voting, both, pair_in, turn_of, kind_of, voted};

use context::Phase;
use importing::Standing;
use judging::ImportResult;
use marks::{End, Mark, Record};
use refusals::Refusal;
use sizes::{BLOCKS, HISTORY, VOTERS, VOTES, WORDS};
use std::ops::ControlFlow;
use tracker::Pair;

// What a mark is in this turn: a block, a vote of a phase, or out of turn.
#[derive(Clone, Copy)]
pub enum Kind {
    Block,
    Vote(Phase),
    Other,
}

// What a record leaves beside the columns, and whether the turn goes on.
#[derive(Clone, Copy)]
struct Took {
    turn: ControlFlow<End>,
    blocks: usize,
    standing: Standing,
}

// What a run over some bytes leaves, the records taken, the bytes that they have, and why no more are taken.
#[derive(Clone, Copy)]
pub struct Ran {
    pub blocks: usize,
    pub standing: Standing,
    pub count: u64,
    pub at: usize,
    pub end: End,
}

// A vote's target, number and signature.
fn pair(fields: &[u8]) -> Pair
    requires { length fields.now ≡ 20 }
    ensures { result ≡ pair_in fields.now }
{
    Pair {
        target: marks::word(fields, 4),
        number: marks::word(fields, 8),
        signature: marks::long(fields, 12),
    }
}

// Only a refused vote stops a journal: non-voters, duplicates and third pairs do not.
fn turn(answer: Result<ImportResult, Refusal>) -> ControlFlow<End>
    ensures { result ≡ turn_of answer }
{
    match answer {
        Ok(_) => ControlFlow::Continue(()),
        Err(refusal) => ControlFlow::Break(End::Refused(refusal)),
    }
}

fn kind_of(mark: Mark) -> Kind
    ensures { result ≡ kind_of mark }
{
    match mark {
        Mark::Bk => Kind::Block,
        Mark::Pv => Kind::Vote(Phase::Prevote),
        Mark::Pc => Kind::Vote(Phase::Precommit),
        Mark::Vt | Mark::Rt | Mark::Op => Kind::Other,
    }
}

// A record in the third turn.
fn take<'a>(
    voters: &'a [u32; VOTERS],
    weights: &'a [u64; VOTERS],
    size: usize,
    total: u64,
    threshold: u64,
    number: u64,
    ids: &mut [u32; BLOCKS],
    numbers: &mut [u32; BLOCKS],
    parents: &mut [u8; BLOCKS],
    blocks: usize,
    base: u8,
    used: &mut [bool; BLOCKS],
    above: &mut [u8; BLOCKS],
    rows: &mut [[u64; WORDS]; BLOCKS],
    order: &mut [u8; BLOCKS],
    heads: &mut [u8; BLOCKS],
    counts: &mut [u8; VOTES],
    first_block: &mut [u8; VOTES],
    first_signature: &mut [u64; VOTES],
    second_target: &mut [u32; VOTES],
    second_number: &mut [u32; VOTES],
    second_signature: &mut [u64; VOTES],
    entries: &mut [u16; HISTORY],
    standing: Standing,
    mark: Mark,
    fields: &[u8],
) -> Took
    requires { Kept (framed number (voters_at given voters weights size total threshold) (table_at given_mut ids numbers parents blocks) base)
        (held_at given_mut used above rows order heads counts first_block first_signature second_target second_number second_signature entries standing)
        × (length fields.now ≡ marks.size mark) }
    ensures { ◌≡◌ {A = Tried Voting} (record {
      state = both (framed number (voters_at before voters weights size total threshold) (table_at after ids numbers parents result.blocks) base)
          (held_at after used above rows order heads counts first_block first_signature second_target second_number second_signature entries result.standing);
      turn = result.turn;
    })
        (tried voted (both (framed number (voters_at before voters weights size total threshold) (table_at before_mut ids numbers parents blocks) base)
        (held_at before_mut used above rows order heads counts first_block first_signature second_target second_number second_signature entries standing)) mark fields.now) }
{
    match kind_of(mark) {
        Kind::Block => {
            let took = growing::add(ids, numbers, parents, blocks, fields);
            Took {
                turn: took.turn,
                blocks: took.blocks,
                standing,
            }
        }
        Kind::Vote(phase) => {
            let signer = marks::word(fields, 0);
            let cast = pair(fields);
            let step = importing::import(
                voters,
                weights,
                size,
                total,
                threshold,
                number,
                ids,
                numbers,
                parents,
                blocks,
                base,
                used,
                above,
                rows,
                order,
                heads,
                counts,
                first_block,
                first_signature,
                second_target,
                second_number,
                second_signature,
                entries,
                standing,
                phase,
                signer,
                cast,
            );
            Took {
                turn: turn(step.answer),
                blocks,
                standing: step.standing,
            }
        }
        Kind::Other => Took {
            turn: ControlFlow::Break(End::Refused(Refusal::OutOfTurn)),
            blocks,
            standing,
        },
    }
}

// The records of some bytes.
pub fn run<'a>(
    voters: &'a [u32; VOTERS],
    weights: &'a [u64; VOTERS],
    size: usize,
    total: u64,
    threshold: u64,
    number: u64,
    ids: &mut [u32; BLOCKS],
    numbers: &mut [u32; BLOCKS],
    parents: &mut [u8; BLOCKS],
    blocks: usize,
    base: u8,
    used: &mut [bool; BLOCKS],
    above: &mut [u8; BLOCKS],
    rows: &mut [[u64; WORDS]; BLOCKS],
    order: &mut [u8; BLOCKS],
    heads: &mut [u8; BLOCKS],
    counts: &mut [u8; VOTES],
    first_block: &mut [u8; VOTES],
    first_signature: &mut [u64; VOTES],
    second_target: &mut [u32; VOTES],
    second_number: &mut [u32; VOTES],
    second_signature: &mut [u64; VOTES],
    entries: &mut [u16; HISTORY],
    standing: Standing,
    bytes: &[u8],
) -> Ran
    requires { Kept (framed number (voters_at given voters weights size total threshold) (table_at given_mut ids numbers parents blocks) base)
        (held_at given_mut used above rows order heads counts first_block first_signature second_target second_number second_signature entries standing) }
    ensures end_value { ended (both (framed number (voters_at before voters weights size total threshold) (table_at after ids numbers parents result.blocks) base)
        (held_at after used above rows order heads counts first_block first_signature second_target second_number second_signature entries result.standing))
        result.count (drop result.at bytes.now) result.end
        ≡ ran voted (both (framed number (voters_at before voters weights size total threshold) (table_at before_mut ids numbers parents blocks) base)
        (held_at before_mut used above rows order heads counts first_block first_signature second_target second_number second_signature entries standing)) bytes.now }
    ensures count_le_at { (result.count ≤ result.at) × (result.at ≤ length bytes.now) }
    ensures kept { Kept (framed number (voters_at before voters weights size total threshold) (table_at after ids numbers parents result.blocks) base)
        (held_at after used above rows order heads counts first_block first_signature second_target second_number second_signature entries result.standing) }
{
    let mut grown = blocks;
    let mut standing = standing;
    let mut taken = 0u64;
    let mut at = 0;
    loop {
        let part = &bytes[at..];
        let Record::Whole(mark) = marks::read(part) else {
            return Ran {
                blocks: grown,
                standing,
                count: taken,
                at,
                end: marks::ending(part),
            };
        };
        let fields = marks::fields(part, mark);
        let took = take(
            voters,
            weights,
            size,
            total,
            threshold,
            number,
            ids,
            numbers,
            parents,
            grown,
            base,
            used,
            above,
            rows,
            order,
            heads,
            counts,
            first_block,
            first_signature,
            second_target,
            second_number,
            second_signature,
            entries,
            standing,
            mark,
            fields,
        );
        grown = took.blocks;
        standing = took.standing;
        if let ControlFlow::Break(end) = took.turn {
            return Ran {
                blocks: grown,
                standing,
                count: taken,
                at,
                end,
            };
        }
        taken += 1;
        at += 2 + fields.len();
    }
}
