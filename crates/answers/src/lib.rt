// The answers of a round: `update` of round.rs and its two GHOSTs, on lent columns.
#![tactic(auto)]

ghost use Rattle.std.specs.Prelude.{◌≡◌, List, ℕ};
ghost use Rattle.lent.specs.Moment.{given, before, plain};
ghost use Rattle.nodes.specs.Columns.{graph_at};
ghost use Rattle.answers.specs.Update.{no_heard, no_answers, scene, Grounded, InBase, start_of, phase_ghost, with_ghost, untested, update};
ghost use Rattle.vote_search.specs.Searches.{unheaded};

use context::Phase;
use grandpa::PossibleToPrecommit;
use nodes::{Asks, Possible, Weighty};
use sizes::{BLOCKS, VOTERS, WORDS};

// The stored blocks by place: the Rust's `prevote_ghost` and `precommit_ghost`, `finalized`, `estimate`; and
// `completable`.
#[derive(Clone, Copy)]
pub struct Answers {
    pub prevote: Option<u8>,
    pub precommit: Option<u8>,
    pub finalized: Option<u8>,
    pub estimate: Option<u8>,
    pub completable: bool,
}

// Heard weights.
#[derive(Clone, Copy)]
pub struct Heard {
    pub prevote: u64,
    pub precommit: u64,
}

pub fn no_answers() -> Answers
    ensures { result ≡ no_answers }
{
    Answers {
        prevote: None,
        precommit: None,
        finalized: None,
        estimate: None,
        completable: false,
    }
}

pub fn no_heard() -> Heard
    ensures { result ≡ no_heard }
{
    Heard {
        prevote: 0,
        precommit: 0,
    }
}

fn start_of(stored: Option<u8>, base: u8) -> u8
    ensures { result ≡ start_of stored base }
{
    match stored {
        Some(block) => block,
        None => base,
    }
}

// The GHOST of a phase, worked out again from the stored one once heard weight reaches the threshold.
pub fn phase_ghost<'a>(
    parents: &'a [u8; BLOCKS],
    used: &'a [bool; BLOCKS],
    above: &'a [u8; BLOCKS],
    rows: &'a [[u64; WORDS]; BLOCKS],
    order: &'a [u8; BLOCKS],
    listed: usize,
    heads: &'a [u8; BLOCKS],
    tips: usize,
    weights: &'a [u64; VOTERS],
    base: u8,
    threshold: u64,
    equivocations: [u64; WORDS],
    phase: Phase,
    heard: u64,
    stored: Option<u8>,
) -> Option<u8>
    requires { (Grounded parents.now base (graph_at given used above rows order listed heads tips)) × InBase parents.now base stored }
    ensures { result ≡ phase_ghost (scene parents.now base weights.now threshold (graph_at before used above rows order listed heads tips) equivocations) phase heard stored }
{
    if heard < threshold {
        return stored;
    }
    let start = start_of(stored, base);
    let question = Weighty {
        weights,
        phase,
        threshold,
        equivocations,
    };
    vote_search::find_ghost(
        parents, used, above, rows, order, listed, heads, tips, &question, start,
    )
}

// The stored answers, with the prevote-GHOST worked out again in a prevote import only.
pub fn with_ghost<'a>(
    parents: &'a [u8; BLOCKS],
    used: &'a [bool; BLOCKS],
    above: &'a [u8; BLOCKS],
    rows: &'a [[u64; WORDS]; BLOCKS],
    order: &'a [u8; BLOCKS],
    listed: usize,
    heads: &'a [u8; BLOCKS],
    tips: usize,
    weights: &'a [u64; VOTERS],
    base: u8,
    threshold: u64,
    equivocations: [u64; WORDS],
    phase: Phase,
    heard: Heard,
    answers: Answers,
) -> Answers
    requires { (Grounded parents.now base (graph_at given used above rows order listed heads tips)) × InBase parents.now base answers.prevote }
    ensures { result ≡ with_ghost (scene parents.now base weights.now threshold (graph_at before used above rows order listed heads tips) equivocations) heard phase answers }
{
    match phase {
        Phase::Prevote => {
            let prevote = answers.prevote;
            let found = phase_ghost(
                parents,
                used,
                above,
                rows,
                order,
                listed,
                heads,
                tips,
                weights,
                base,
                threshold,
                equivocations,
                Phase::Prevote,
                heard.prevote,
                prevote,
            );
            let precommit = answers.precommit;
            let finalized = answers.finalized;
            let estimate = answers.estimate;
            Answers {
                prevote: found,
                precommit,
                finalized,
                estimate,
                completable: answers.completable,
            }
        }
        Phase::Precommit => answers,
    }
}

// Whether no block strictly below g can still be finalized. The estimate is possible, so that the search down is not asked
// whether its start is.
fn is_completable<'a, Q: Asks>(
    parents: &'a [u8; BLOCKS],
    used: &'a [bool; BLOCKS],
    above: &'a [u8; BLOCKS],
    rows: &'a [[u64; WORDS]; BLOCKS],
    order: &'a [u8; BLOCKS],
    listed: usize,
    possible: &'a Q,
    g: u8,
    estimate: Option<u8>,
) -> bool
    requires { (heads : List ℕ) × (tips : ℕ) × (base : ℕ)
        × (Grounded parents.now base (graph_at plain used.now above.now rows.now order.now listed heads tips)) × InBase parents.now base estimate }
    ensures { result ≡ untested parents.now (unheaded used.now rows.now order.now listed) (Q.asks possible.now) g estimate }
{
    let Some(block) = estimate else {
        return false;
    };
    if block != g {
        return true;
    }
    let lowest = vote_search::descend(parents, used, above, rows, order, listed, possible, block);
    lowest == g
}

// `update`: finalized block, estimate and completable, from the stored prevote-GHOST.
pub fn update<'a>(
    parents: &'a [u8; BLOCKS],
    used: &'a [bool; BLOCKS],
    above: &'a [u8; BLOCKS],
    rows: &'a [[u64; WORDS]; BLOCKS],
    order: &'a [u8; BLOCKS],
    listed: usize,
    heads: &'a [u8; BLOCKS],
    tips: usize,
    weights: &'a [u64; VOTERS],
    base: u8,
    total: u64,
    threshold: u64,
    equivocations: [u64; WORDS],
    heard: Heard,
    answers: Answers,
) -> Answers
    requires { (Grounded parents.now base (graph_at given used above rows order listed heads tips)) × InBase parents.now base answers.prevote }
    ensures { result ≡ update (scene parents.now base weights.now threshold (graph_at before used above rows order listed heads tips) equivocations) total heard answers }
{
    if heard.prevote < threshold {
        return answers;
    }
    let prevote = answers.prevote;
    let precommit = answers.precommit;
    let Some(g) = prevote else {
        return answers;
    };
    if heard.precommit < threshold {
        let finalized = answers.finalized;
        return Answers {
            prevote,
            precommit,
            finalized,
            estimate: Some(g),
            completable: answers.completable,
        };
    }
    let equivocated = context::weighing::weight(weights, equivocations, Phase::Precommit);
    let still = PossibleToPrecommit::new(total, threshold, heard.precommit, equivocated);
    let both = vote_search::find_both(
        parents,
        used,
        above,
        rows,
        heads,
        tips,
        weights,
        base,
        equivocations,
        still,
        g,
    );
    let finalized = both.weighty;
    let estimate = both.possible;
    let possible = Possible {
        weights,
        phase: Phase::Precommit,
        still,
        equivocations,
    };
    let completable = is_completable(
        parents, used, above, rows, order, listed, &possible, g, estimate,
    );
    Answers {
        prevote,
        precommit,
        finalized,
        estimate,
        completable,
    }
}
