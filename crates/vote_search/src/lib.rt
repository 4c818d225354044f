// `cumulative_vote`, `find_ancestor` and `find_ghost` of vote_graph.rs, on lent columns.
#![tactic(auto)]

ghost use Rattle.std.specs.Prelude.{◌≡◌, List, ℕ, ◌≤◌};
ghost use Rattle.sizes.specs.Sizes.{BLOCKS};
ghost use Rattle.graph.specs.Ghost.{find_ancestor, descend, find_ghost};
ghost use Rattle.nodes.specs.Nodes.{col, Falls, placed};
ghost use Rattle.lent.specs.Moment.{given, before, plain};
ghost use Rattle.nodes.specs.Columns.{graph_at, view};
ghost use Rattle.vote_search.specs.Searches.{tallied, followed, Stands, unlisted, unheaded, or_else, this, both};

use climbs::wide;
use context::Phase;
use grandpa::PossibleToPrecommit;
use nodes::{Asks, Places};
use sizes::{BLOCKS, VOTERS, WORDS};

// The first block of threshold weight and the first that can still get it.
#[derive(Clone, Copy)]
pub struct Both {
    pub weighty: Option<u8>,
    pub possible: Option<u8>,
}

// Who voted at or below a block: its node's own bits, else those of the nodes whose edge holds it. Nothing where it is not in
// the graph.
pub fn cumulative_vote<'a>(
    parents: &'a [u8; BLOCKS],
    used: &'a [bool; BLOCKS],
    above: &'a [u8; BLOCKS],
    rows: &'a [[u64; WORDS]; BLOCKS],
    heads: &'a [u8; BLOCKS],
    tips: usize,
    block: u8,
) -> Option<[u64; WORDS]>
    requires { (Falls parents.now) × (Falls above.now) × (tips ≤ BLOCKS) }
    ensures { result ≡ tallied parents.now used.now above.now rows.now heads.now tips block }
{
    let at = wide(block);
    if used[at] {
        let own = rows[at];
        return Some(own);
    }
    let found = containing::find_containing_nodes(parents, above, &heads[..tips], block);
    let joined = nodes::join_of(rows, found.as_slice());
    (0 < found.count).then_some(joined)
}

// The first block from a block towards the base whose bits answer a question with yes. Nothing where none does, or where
// the block is not in the graph.
pub fn find_ancestor<'a, Q: Asks>(
    parents: &'a [u8; BLOCKS],
    used: &'a [bool; BLOCKS],
    above: &'a [u8; BLOCKS],
    rows: &'a [[u64; WORDS]; BLOCKS],
    heads: &'a [u8; BLOCKS],
    tips: usize,
    base: u8,
    question: &'a Q,
    block: u8,
) -> Option<u8>
    requires { (order : List ℕ) × (listed : ℕ) × Stands parents.now base (graph_at plain used.now above.now rows.now order listed heads.now tips) block }
    ensures { result ≡ find_ancestor (col parents.now) (unlisted used.now rows.now heads.now tips) base (Q.asks question.now) block }
{
    let mut at = block;
    let found = loop {
        let Some(bits) = cumulative_vote(parents, used, above, rows, heads, tips, at) else {
            break None;
        };
        if question.passes(bits) {
            break Some(at);
        }
        if at == base {
            break None;
        }
        at = parents[wide(at)];
    };
    found
}

// The block found, or else this one where it can still get the threshold.
fn or_this(found: Option<u8>, still: PossibleToPrecommit, weight: u64, block: u8) -> Option<u8>
    ensures { result ≡ or_else found (this still weight block) }
{
    match found {
        Some(first) => Some(first),
        None => {
            if still.holds(weight) {
                return Some(block);
            }
            None
        }
    }
}

// The first block from a block towards the base of precommit weight at least the threshold, and the first that can still
// get it: one climb, which weighs a block once for both. A block of that weight can, so that the climb may end there.
pub fn find_both<'a>(
    parents: &'a [u8; BLOCKS],
    used: &'a [bool; BLOCKS],
    above: &'a [u8; BLOCKS],
    rows: &'a [[u64; WORDS]; BLOCKS],
    heads: &'a [u8; BLOCKS],
    tips: usize,
    weights: &'a [u64; VOTERS],
    base: u8,
    equivocations: [u64; WORDS],
    still: PossibleToPrecommit,
    block: u8,
) -> Both
    requires { (order : List ℕ) × (listed : ℕ) × Stands parents.now base (graph_at plain used.now above.now rows.now order listed heads.now tips) block }
    ensures { result ≡ both (col parents.now) (unlisted used.now rows.now heads.now tips) base weights.now equivocations still block }
{
    let mut possible = None;
    let mut here = block;
    loop {
        let Some(bits) = cumulative_vote(parents, used, above, rows, heads, tips, here) else {
            return Both {
                weighty: None,
                possible,
            };
        };
        let weight = context::weighing::merged_weight(
            weights,
            bits,
            equivocations,
            Phase::Precommit,
        );
        possible = or_this(possible, still, weight, here);
        if still.threshold <= weight {
            return Both {
                weighty: Some(here),
                possible,
            };
        }
        if here == base {
            return Both {
                weighty: None,
                possible,
            };
        }
        here = parents[wide(here)];
    }
}

// The nodes that follow a block: strictly below it, with no node between.
fn following<'a>(
    parents: &'a [u8; BLOCKS],
    used: &'a [bool; BLOCKS],
    above: &'a [u8; BLOCKS],
    order: &'a [u8; BLOCKS],
    listed: usize,
    block: u8,
) -> Places
    requires { (Falls parents.now) × (listed ≤ BLOCKS) }
    ensures { result ≡ placed (followed parents.now used.now above.now order.now listed block) }
{
    let over = climbs::nearest(parents, used, block);
    let nodes = nodes::children(above, &order[..listed], over);
    nodes::strictly_below(parents, nodes.as_slice(), block)
}

// From a block that answers a question with yes down the nodes that do, the first of each list, and then to the merge
// point.
pub fn descend<'a, Q: Asks>(
    parents: &'a [u8; BLOCKS],
    used: &'a [bool; BLOCKS],
    above: &'a [u8; BLOCKS],
    rows: &'a [[u64; WORDS]; BLOCKS],
    order: &'a [u8; BLOCKS],
    listed: usize,
    question: &'a Q,
    block: u8,
) -> u8
    requires { (heads : List ℕ) × (tips : ℕ) × (base : ℕ) × Stands parents.now base (graph_at plain used.now above.now rows.now order.now listed heads tips) block }
    ensures { result ≡ descend (col parents.now) (unheaded used.now rows.now order.now listed) (Q.asks question.now) block }
{
    let follow = following(parents, used, above, order, listed, block);
    let mut last = block;
    let mut nodes = follow;
    loop {
        let child = vote_merge::first_passing(rows, question, nodes.as_slice());
        if child == 0 {
            return vote_merge::merge_point(parents, rows, question, nodes, last);
        }
        let next = nodes::children(above, &order[..listed], child);
        nodes = next;
        last = child;
    }
}

// From a block down the nodes that answer a question with yes, the first of each list, and then to the merge point.
// Nothing where the block itself does not.
pub fn find_ghost<'a, Q: Asks>(
    parents: &'a [u8; BLOCKS],
    used: &'a [bool; BLOCKS],
    above: &'a [u8; BLOCKS],
    rows: &'a [[u64; WORDS]; BLOCKS],
    order: &'a [u8; BLOCKS],
    listed: usize,
    heads: &'a [u8; BLOCKS],
    tips: usize,
    question: &'a Q,
    block: u8,
) -> Option<u8>
    requires { (base : ℕ) × Stands parents.now base (graph_at given used above rows order listed heads tips) block }
    ensures { result ≡ find_ghost (col parents.now) (view (graph_at before used above rows order listed heads tips)) (Q.asks question.now) block }
{
    let votes = cumulative_vote(parents, used, above, rows, heads, tips, block);
    let bits = votes.unwrap_or([0u64; WORDS]);
    if !question.passes(bits) {
        return None;
    }
    Some(descend(parents, used, above, rows, order, listed, question, block))
}
