// How a vote is taken: `import_prevote` and `import_precommit` of round.rs, on lent columns.
#![tactic(auto)]

ghost use Rattle.std.specs.Prelude.{◌≡◌};
ghost use Rattle.weights.specs.Weights.{plus};
ghost use Rattle.lent.specs.Moment.{given, before, given_mut, before_mut, after};
ghost use Rattle.nodes.specs.Columns.{graph_at};
ghost use Rattle.answers.specs.Update.{scene, told_after, InBase, Grounded};
ghost use Rattle.importing.specs.Import.{blank, with_heard, taken, import, Ready};
ghost use Rattle.importing.specs.Lent.{frame_at, held_at};

use answers::{Answers, Heard};
use context::Phase;
use judging::{Equivocation, ImportResult, Verdict};
use refusals::Refusal;
use sizes::{BLOCKS, HISTORY, VOTERS, VOTES, WORDS};
use tracker::Pair;
use weights::{VoteWeight, VoterWeight};

// What a vote changes beside columns: nodes listed, heads, entries of history, equivocators' bits, heard weights, answers.
#[derive(Clone, Copy)]
pub struct Standing {
    pub listed: usize,
    pub tips: usize,
    pub count: usize,
    pub equivocations: [u64; WORDS],
    pub heard: Heard,
    pub answers: Answers,
}

// The answer, and what stands beside the columns after the vote: a `Result` alone would lose it.
#[derive(Clone, Copy)]
pub struct Step {
    pub answer: Result<ImportResult, Refusal>,
    pub standing: Standing,
}

// Nothing recorded, and the base the only node.
pub fn blank() -> Standing
    ensures { result ≡ blank }
{
    let heard = answers::no_heard();
    let stored = answers::no_answers();
    Standing {
        listed: 0,
        tips: 1,
        count: 0,
        equivocations: [0u64; WORDS],
        heard,
        answers: stored,
    }
}

fn added(heard: u64, weight: VoterWeight) -> u64
    ensures { result ≡ plus heard weight.0 }
{
    (VoteWeight(heard) + weight).0
}

fn with_heard(heard: Heard, phase: Phase, weight: VoterWeight) -> Heard
    ensures { result ≡ with_heard phase weight.0 heard }
{
    match phase {
        Phase::Prevote => Heard {
            prevote: added(heard.prevote, weight),
            precommit: heard.precommit,
        },
        Phase::Precommit => Heard {
            prevote: heard.prevote,
            precommit: added(heard.precommit, weight),
        },
    }
}

// The answers after a vote was recorded.
fn updated<'a>(
    parents: &'a [u8; BLOCKS],
    used: &'a [bool; BLOCKS],
    above: &'a [u8; BLOCKS],
    rows: &'a [[u64; WORDS]; BLOCKS],
    order: &'a [u8; BLOCKS],
    listed: usize,
    heads: &'a [u8; BLOCKS],
    tips: usize,
    weights: &'a [u64; VOTERS],
    base: u8,
    total: u64,
    threshold: u64,
    equivocations: [u64; WORDS],
    phase: Phase,
    heard: Heard,
    stored: Answers,
) -> Answers
    requires { (Grounded parents.now base (graph_at given used above rows order listed heads tips)) × InBase parents.now base stored.prevote }
    ensures { result ≡ told_after (scene parents.now base weights.now threshold
        (graph_at before used above rows order listed heads tips) equivocations) total heard phase stored }
{
    let renewed = answers::with_ghost(
        parents,
        used,
        above,
        rows,
        order,
        listed,
        heads,
        tips,
        weights,
        base,
        threshold,
        equivocations,
        phase,
        heard,
        stored,
    );
    answers::update(
        parents,
        used,
        above,
        rows,
        order,
        listed,
        heads,
        tips,
        weights,
        base,
        total,
        threshold,
        equivocations,
        heard,
        renewed,
    )
}

// A vote, taken by the verdict on it.
pub fn import<'a>(
    voters: &'a [u32; VOTERS],
    weights: &'a [u64; VOTERS],
    size: usize,
    total: u64,
    threshold: u64,
    number: u64,
    ids: &'a [u32; BLOCKS],
    numbers: &'a [u32; BLOCKS],
    parents: &'a [u8; BLOCKS],
    blocks: usize,
    base: u8,
    used: &mut [bool; BLOCKS],
    above: &mut [u8; BLOCKS],
    rows: &mut [[u64; WORDS]; BLOCKS],
    order: &mut [u8; BLOCKS],
    heads: &mut [u8; BLOCKS],
    counts: &mut [u8; VOTES],
    first_block: &mut [u8; VOTES],
    first_signature: &mut [u64; VOTES],
    second_target: &mut [u32; VOTES],
    second_number: &mut [u32; VOTES],
    second_signature: &mut [u64; VOTES],
    entries: &mut [u16; HISTORY],
    standing: Standing,
    phase: Phase,
    signer: u32,
    pair: Pair,
) -> Step
    requires { Ready (frame_at given voters weights size total threshold number ids numbers parents blocks base)
        (held_at given_mut used above rows order heads counts first_block first_signature second_target second_number second_signature entries standing) }
    ensures { taken result.answer (held_at after used above rows order heads counts first_block first_signature second_target second_number second_signature entries result.standing)
        ≡ import (frame_at before voters weights size total threshold number ids numbers parents blocks base) phase signer pair
        (held_at before_mut used above rows order heads counts first_block first_signature second_target second_number second_signature entries standing) }
{
    let verdict = judging::judge(
        voters,
        weights,
        size,
        ids,
        numbers,
        parents,
        blocks,
        base,
        used,
        counts,
        first_block,
        first_signature,
        second_target,
        second_number,
        second_signature,
        phase,
        signer,
        pair,
    );
    let count = standing.count;
    let equivocations = standing.equivocations;
    let heard = standing.heard;
    let stored = standing.answers;
    match verdict {
        Verdict::Nothing(answer) => Step { answer, standing },
        Verdict::First(info, block) => {
            let at = context::index(info.position, phase);
            let weight = info.weight;
            counts[at] = 1;
            first_block[at] = block;
            first_signature[at] = pair.signature;
            entries[count] = layouts::entry(at, 0);
            let counts = vote_insert::insert(
                parents,
                ids,
                used,
                above,
                rows,
                order,
                heads,
                standing.listed,
                standing.tips,
                base,
                block,
                at,
            );
            let listed = counts.listed;
            let tips = counts.tips;
            let more = with_heard(heard, phase, weight);
            let answers = updated(
                parents,
                used,
                above,
                rows,
                order,
                listed,
                heads,
                tips,
                weights,
                base,
                total,
                threshold,
                equivocations,
                phase,
                more,
                stored,
            );
            Step {
                answer: Ok(ImportResult::Counted),
                standing: Standing {
                    listed,
                    tips,
                    count: count + 1,
                    equivocations,
                    heard: more,
                    answers,
                },
            }
        }
        Verdict::Second(info, first) => {
            let at = context::index(info.position, phase);
            counts[at] = 2;
            second_target[at] = pair.target;
            second_number[at] = pair.number;
            second_signature[at] = pair.signature;
            entries[count] = layouts::entry(at, 1);
            let listed = standing.listed;
            let tips = standing.tips;
            let more = bitfield::set_bit(equivocations, at);
            let answers = updated(
                parents, used, above, rows, order, listed, heads, tips, weights, base, total,
                threshold, more, phase, heard, stored,
            );
            let told = Equivocation {
                number,
                identity: signer,
                first,
                second: pair,
            };
            Step {
                answer: Ok(ImportResult::Equivocated(told)),
                standing: Standing {
                    listed,
                    tips,
                    count: count + 1,
                    equivocations: more,
                    heard,
                    answers,
                },
            }
        }
    }
}
