// Votes as bits and their weight, equivocators joined in: round/context.rs of finality-grandpa.
#![tactic(auto)]

ghost use Rattle.std.specs.Prelude.{◌≡◌, ◌<◌, min};
ghost use Rattle.weights.specs.Weights.{most};
ghost use Rattle.sizes.specs.Sizes.{VOTERS, VOTES};
ghost use Rattle.context.specs.Votes.{offset, bit, phase_at, voted, weight_of};
ghost use Rattle.context.specs.Context.{vote, no_votes, with_node, with_vote, opened, with_equivocator, counts};

use bitfield::Bit1;
use sizes::WORDS;
use voter_info::VoterInfo;
use voter_set::VoterSet;
use weights::VoteWeight;

pub mod weighing;

#[derive(Clone, Copy)]
pub enum Phase {
    Prevote,
    Precommit,
}

// The voters of a round, and who equivocated.
#[derive(Clone, Copy)]
pub struct Context {
    pub voters: VoterSet,
    pub equivocations: [u64; WORDS],
}

// A single vote that can be put into a node.
#[derive(Clone, Copy)]
pub struct Vote {
    pub bit: Bit1,
}

// A node on which votes gather. Its weight is always asked in a context, for the equivocators' sake.
#[derive(Clone, Copy)]
pub struct VoteNode {
    pub bits: [u64; WORDS],
}

fn offset(phase: Phase) -> usize
    ensures { (result ≡ offset phase) × (result < 2) }
{
    match phase {
        Phase::Prevote => 0,
        Phase::Precommit => 1,
    }
}

fn bit_of(place: usize, phase: Phase) -> usize
    ensures { result ≡ min (bit phase place) most }
{
    layouts::bit(offset(phase), place)
}

// The index of a voter's votes in a phase: its bit.
pub fn index(place: usize, phase: Phase) -> usize
    requires { place < VOTERS }
    ensures { (result ≡ bit phase place) × (result < VOTES) }
{
    layouts::index(offset(phase), place)
}

// The phase of an index.
pub fn phase_at(at: usize) -> Phase
    ensures { result ≡ phase_at at }
{
    if layouts::index_phase(at) == 0 {
        return Phase::Prevote;
    }
    Phase::Precommit
}

impl Vote {
    // The vote of voter `v` in phase `p`.
    pub fn new(v: VoterInfo, p: Phase) -> Vote
        ensures { result ≡ vote p v.position }
    {
        let place = v.position;
        Vote {
            bit: Bit1 {
                position: bit_of(place, p),
            },
        }
    }
}

impl VoteNode {
    pub fn default() -> VoteNode
        ensures { result ≡ no_votes }
    {
        VoteNode {
            bits: bitfield::new(),
        }
    }

    // The votes of another node too: the Rust's `+=` of a node.
    pub fn add_node(mut self, rhs: VoteNode) -> VoteNode
        ensures { result ≡ with_node self rhs }
    {
        let bits = self.bits;
        let other = rhs.bits;
        let both = bitfield::merge(bits, other);
        self.bits = both;
        self
    }

    // One vote more: the Rust's `+=` of a vote.
    pub fn add_vote(mut self, rhs: Vote) -> VoteNode
        ensures { result ≡ with_vote self rhs }
    {
        let bits = self.bits;
        let bit = rhs.bit;
        let more = bitfield::set_bit(bits, bit.position);
        self.bits = more;
        self
    }
}

impl Context {
    pub fn new(voters: VoterSet) -> Context
        ensures { result ≡ opened voters }
    {
        Context {
            voters,
            equivocations: bitfield::new(),
        }
    }

    pub fn voters(self) -> VoterSet
        ensures { result ≡ self.voters }
    {
        let voters = self.voters;
        voters
    }

    // The weight of those who equivocated in a phase.
    pub fn equivocation_weight(self, p: Phase) -> VoteWeight
        ensures { result.0 ≡ weight_of self.voters.weights (voted self.equivocations p) }
    {
        let bits = self.equivocations;
        VoteWeight(weighing::weight(&self.voters.weights, bits, p))
    }

    // Voter `v` has equivocated in phase `p`.
    pub fn equivocated(mut self, v: VoterInfo, p: Phase) -> Context
        ensures { result ≡ with_equivocator self p v.position }
    {
        let bits = self.equivocations;
        let place = v.position;
        let more = bitfield::set_bit(bits, bit_of(place, p));
        self.equivocations = more;
        self
    }

    // The weight of a node in a phase: its voters and those who equivocated, each once.
    pub fn weight(self, n: VoteNode, p: Phase) -> VoteWeight
        ensures { result.0 ≡ weight_of self.voters.weights (counts self n p) }
    {
        let bits = n.bits;
        let equivocations = self.equivocations;
        VoteWeight(weighing::merged_weight(&self.voters.weights, bits, equivocations, p))
    }
}
