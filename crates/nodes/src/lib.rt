// Vote-nodes on lent columns: lists of them, joined bits, and the questions that are asked of them. A node is the place of
// its block.
#![tactic(auto)]

ghost use Rattle.std.specs.Prelude.{Bool, ◌≡◌, List, ℕ, ◌≤◌, ◌<◌, length};
ghost use Rattle.sizes.specs.Sizes.{BLOCKS};
ghost use Rattle.loops.specs.Listing.{front, keep};
ghost use Rattle.graph.specs.Graph.{join_of};
ghost use Rattle.graph.specs.Ghost.{under};
ghost use Rattle.climbs.specs.Places.{col, row, Falls};
ghost use Rattle.nodes.specs.Nodes.{placed, AtLeast, Possible, passes, listed_under};
ghost use Rattle.nodes.specs.Tests.{Tests};

use climbs::wide;
use context::{Phase, weighing};
use grandpa::PossibleToPrecommit;
use sizes::{BLOCKS, VOTERS, WORDS};

// Places in the order in which they were found, in fixed memory; unused places are 0, since a list may become a stored column.
#[derive(Clone, Copy)]
pub struct Places {
    pub places: [u8; BLOCKS],
    pub count: usize,
}

impl Places {
    // The places that count. Their bound is asked for here, since a ghost field would forbid `placed` of a list that is too long.
    pub fn as_slice(&self) -> &[u8]
        requires { self.now.count ≤ BLOCKS }
        ensures { result.now ≡ front self.now.count self.now.places }
    {
        &self.places[..self.count]
    }
}

// A question that is asked of a node's bits: what the Rust hands its searches as a closure.
pub trait Asks {
    ghost asks: { Self → List ℕ → Bool };

    fn passes(&self, bits: [u64; WORDS]) -> bool
        ensures { result ≡ asks self.now bits };
}

// Whether the weight in a phase is at least a threshold, those who equivocated joined in.
#[derive(Clone, Copy)]
pub struct Weighty<'a> {
    pub weights: &'a [u64; VOTERS],
    pub phase: Phase,
    pub threshold: u64,
    pub equivocations: [u64; WORDS],
}

impl<'a> Asks for Weighty<'a> {
    ghost asks = { λ q. passes q.weights.now (record { phase = q.phase; condition = AtLeast q.threshold; equivocations = q.equivocations }) };

    fn passes(&self, bits: [u64; WORDS]) -> bool {
        let weight = weighing::merged_weight(self.weights, bits, self.equivocations, self.phase);
        self.threshold <= weight
    }
}

// Whether the weight in a phase, those who equivocated joined in, can still get the threshold.
#[derive(Clone, Copy)]
pub struct Possible<'a> {
    pub weights: &'a [u64; VOTERS],
    pub phase: Phase,
    pub still: PossibleToPrecommit,
    pub equivocations: [u64; WORDS],
}

impl<'a> Asks for Possible<'a> {
    ghost asks = { λ q. passes q.weights.now (record { phase = q.phase; condition = Possible q.still; equivocations = q.equivocations }) };

    fn passes(&self, bits: [u64; WORDS]) -> bool {
        let phase = self.phase;
        let weight = weighing::merged_weight(self.weights, bits, self.equivocations, phase);
        self.still.holds(weight)
    }
}

// The joined bits of the nodes at places.
pub fn join_of(rows: &[[u64; WORDS]; BLOCKS], places: &[u8]) -> [u64; WORDS]
    ensures { result ≡ join_of (row rows.now) places.now }
{
    let mut bits = [0u64; WORDS];
    for place in places {
        let node = wide(*place);
        let more = bitfield::merge(bits, rows[node]);
        bits = more;
    }
    bits
}

// Those of some places that pass a test, in their order.
pub fn keep<F: Fn(u8) -> bool>(places: &[u8], passes: F) -> Places
    requires fits { length places.now ≤ BLOCKS }
    requires callable { F.IsAlwaysCallable passes }
    ensures { (p : ℕ → Bool) → Tests (F.post passes) p → result ≡ placed (keep p places.now) }
{
    let mut kept = [0u8; BLOCKS];
    let mut n = 0;
    for place in places {
        if passes(*place) {
            kept[n] = *place;
            n = n + 1;
        }
    }
    Places {
        places: kept,
        count: n,
    }
}

// The nodes listed under a node, in their order.
#[tactic(auto, unfolding(crate::specs::Nodes::listed_under))]
pub fn children(above: &[u8; BLOCKS], order: &[u8], node: u8) -> Places
    requires { length order.now ≤ BLOCKS }
    ensures { result ≡ placed (listed_under (col above.now) order.now node) }
{
    keep(order, |child| above[wide(child)] == node)
}

// Those of some places that lie strictly below a block.
pub fn strictly_below(parents: &[u8; BLOCKS], places: &[u8], block: u8) -> Places
    requires { (Falls parents.now) × (length places.now ≤ BLOCKS) }
    ensures { result ≡ placed (keep (under (col parents.now) block) places.now) }
{
    keep(places, |place| is_under(parents, block, place))
}

fn is_under(parents: &[u8; BLOCKS], block: u8, place: u8) -> bool
    requires { Falls parents.now }
    ensures { result ≡ under (col parents.now) block place }
{
    if place == block {
        return false;
    }
    climbs::reaches(parents, block, place)
}
