// The journal's first turn: the voters' pairs of an id and a weight, up to the Rt.
#![tactic(auto)]

ghost use Rattle.std.specs.Prelude.{◌≡◌, ◌≤◌, length, drop};
ghost use Rattle.sizes.specs.Sizes.{PAIRS};
ghost use Rattle.marks.specs.Marks.{size};
ghost use Rattle.runs.specs.Run.{Run, ran};
ghost use Rattle.runs.specs.Tried.{Tried, tried};
ghost use Rattle.std.specs.declared.ops.ControlFlow.TheVariants.{Break};
ghost use Rattle.pairing.specs.declared.Pairs.{Pairs};
ghost use Rattle.pairing.specs.Pairing.{paired};

use marks::{End, Mark, Record};
use refusals::Refusal;
use sizes::PAIRS;
use std::ops::ControlFlow;

// Pairs in the order in which they came; the first `count` places are used. They are part of a stored journal, in fixed memory.
#[derive(Clone, Copy)]
pub struct Pairs {
    pub ids: [u32; PAIRS],
    pub weights: [u64; PAIRS],
    pub count: usize,
}

// The pairs after a record, and whether the turn goes on.
#[derive(Clone, Copy)]
struct Took {
    turn: ControlFlow<End>,
    pairs: usize,
}

// The pairs after a run over some bytes, the records taken, the bytes that they have, and why no more are taken.
#[derive(Clone, Copy)]
pub struct Paired {
    pub pairs: usize,
    pub count: u64,
    pub at: usize,
    pub end: End,
}

// The turn is over at a record, which leaves the pairs as they are.
fn over(end: End, pairs: usize) -> Took
    ensures { result ≡ record { turn = Break end; pairs = pairs } }
{
    Took {
        turn: ControlFlow::Break(end),
        pairs,
    }
}

// A record in the first turn.
fn take(
    ids: &mut [u32; PAIRS],
    weights: &mut [u64; PAIRS],
    pairs: usize,
    mark: Mark,
    fields: &[u8],
) -> Took
    requires { (pairs ≤ PAIRS) × (length fields.now ≡ size mark) }
    ensures fact { ◌≡◌ {A = Tried Pairs} (record { state = record { ids = ids.exit.now; weights = weights.new; count = result.pairs }; turn = result.turn }) (tried paired (record { ids = ids.entry.now; weights = weights.old; count = pairs }) mark fields.now) }
    ensures pairs_bound { result.pairs ≤ PAIRS }
{
    match mark {
        Mark::Vt => {
            if PAIRS <= pairs {
                return over(End::Refused(Refusal::VoterList), pairs);
            }
            ids[pairs] = marks::word(fields, 0);
            weights[pairs] = marks::long(fields, 4);
            Took {
                turn: ControlFlow::Continue(()),
                pairs: pairs + 1,
            }
        }
        Mark::Rt => over(End::Left, pairs),
        Mark::Bk | Mark::Op | Mark::Pv | Mark::Pc => over(End::Refused(Refusal::OutOfTurn), pairs),
    }
}

// The records of some bytes, up to the first that is not one of this turn.
pub fn run(ids: &mut [u32; PAIRS], weights: &mut [u64; PAIRS], count: usize, bytes: &[u8]) -> Paired
    requires { count ≤ PAIRS }
    ensures fact { ◌≡◌ {A = Run Pairs} (record { state = record { ids = ids.exit.now; weights = weights.new; count = result.pairs }; count = result.count; rest = drop result.at bytes.now; end = result.end }) (ran paired (record { ids = ids.entry.now; weights = weights.old; count = count }) bytes.now) }
    ensures pairs_bound { (result.pairs ≤ PAIRS) × (result.count ≤ result.at) × (result.at ≤ length bytes.now) }
{
    let mut pairs = count;
    let mut taken = 0u64;
    let mut at = 0;
    loop {
        let part = &bytes[at..];
        let Record::Whole(mark) = marks::read(part) else {
            return Paired {
                pairs,
                count: taken,
                at,
                end: marks::ending(part),
            };
        };
        let fields = marks::fields(part, mark);
        let took = take(ids, weights, pairs, mark, fields);
        pairs = took.pairs;
        if let ControlFlow::Break(end) = took.turn {
            return Paired {
                pairs,
                count: taken,
                at,
                end,
            };
        }
        taken += 1;
        at += 2 + fields.len();
    }
}
