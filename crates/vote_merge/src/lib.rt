// `find_merge_point` of vote_graph.rs, on lent columns, and the first node that answers a question with yes.
#![tactic(auto)]

ghost use Rattle.std.specs.Prelude.{◌≡◌, [], ◌≤◌};
ghost use Rattle.sizes.specs.Sizes.{BLOCKS};
ghost use Rattle.loops.specs.Listing.{front};
ghost use Rattle.graph.specs.Ghost.{first_in, meets, merge};
ghost use Rattle.nodes.specs.Nodes.{col, row, Falls};
ghost use Rattle.vote_merge.specs.Merges.{Lower};

use climbs::wide;
use nodes::{Asks, Places};
use sizes::{BLOCKS, WORDS};

// The first of some nodes whose bits answer a question with yes, or 0.
pub fn first_passing<Q: Asks>(rows: &[[u64; WORDS]; BLOCKS], question: &Q, places: &[u8]) -> u8
    ensures { result ≡ first_in (λ n. Q.asks question.now (row rows.now n)) places.now }
{
    for place in places {
        let node = *place;
        let at = wide(node);
        let votes = rows[at];
        if question.passes(votes) {
            return node;
        }
    }
    0
}

// The first child of a block in which a second node meets those before it, where their joined bits answer a question with
// yes, or 0.
pub fn meets<Q: Asks>(
    parents: &[u8; BLOCKS],
    rows: &[[u64; WORDS]; BLOCKS],
    question: &Q,
    places: &[u8],
    block: u8,
) -> u8
    requires { Falls parents.now }
    ensures { result ≡ meets (col parents.now) (row rows.now) (Q.asks question.now) block [] places.now }
{
    let mut seen = [false; BLOCKS];
    let mut joined = [[0u64; WORDS]; BLOCKS];
    for place in places {
        let node = *place;
        let child = climbs::towards(parents, block, node);
        if node == child {
            continue;
        }
        let at = wide(child);
        let from = wide(node);
        let bits = bitfield::merge(joined[at], rows[from]);
        let met = seen[at];
        seen[at] = true;
        joined[at] = bits;
        if !met {
            continue;
        }
        if question.passes(bits) {
            return child;
        }
    }
    0
}

// From a block down the blocks in which nodes meet, while their joined bits answer a question with yes. Fewer than two
// nodes do not meet.
pub fn merge_point<Q: Asks>(
    parents: &[u8; BLOCKS],
    rows: &[[u64; WORDS]; BLOCKS],
    question: &Q,
    nodes: Places,
    block: u8,
) -> u8
    requires { (Falls parents.now) × (nodes.count ≤ BLOCKS) × Lower parents.now block (front nodes.count nodes.places) }
    ensures { result ≡ merge (col parents.now) (row rows.now) (Q.asks question.now) BLOCKS block (front nodes.count nodes.places) }
{
    let mut best = block;
    let mut left = nodes;
    while 1 < left.count {
        let places = left.as_slice();
        let child = meets(parents, rows, question, places, best);
        if child == 0 {
            return best;
        }
        let fewer = nodes::strictly_below(parents, places, child);
        left = fewer;
        best = child;
    }
    best
}
