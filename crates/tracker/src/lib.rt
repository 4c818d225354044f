// What is recorded of a voter in a phase: `VoteTracker` of round.rs, in columns for both phases. A voter's votes in a phase have an
// index, which is its bit.
#![tactic(auto)]

ghost use Rattle.std.specs.Prelude.{◌≡◌, ◌<◌};
ghost use Rattle.sizes.specs.Sizes.{VOTES};
ghost use Rattle.lent.specs.Moment.{before};
ghost use Rattle.tracker.specs.Recorded.{add_vote, first_pair, recorded};
ghost use Rattle.tracker.specs.Votes.{votes_at, no_votes};

use sizes::{BLOCKS, VOTES};

// How many pairs are recorded at an index, 0, 1 or 2; the place of the first pair's target in the block table, and its
// signature; the second pair as it came, since its target is not looked up. Unused places are 0. Columns and no rows: stored votes of anyone's
// making are taken as they stand, and a test of one column reads it alone.
#[derive(Clone, Copy)]
pub struct Votes {
    pub counts: [u8; VOTES],
    pub first_block: [u8; VOTES],
    pub first_signature: [u64; VOTES],
    pub second_target: [u32; VOTES],
    pub second_number: [u32; VOTES],
    pub second_signature: [u64; VOTES],
}

// A vote and its signature.
#[derive(Clone, Copy, PartialEq, Eq)]
pub struct Pair {
    pub target: u32,
    pub number: u32,
    pub signature: u64,
}

#[derive(Clone, Copy)]
pub enum VoteMultiplicity {
    Silent,
    Single(Pair),
    Equivocated(Pair, Pair),
}

// Document 01, "How a vote is taken", rules 2 to 5. An equivocation has the first pair beside it.
#[derive(Clone, Copy)]
pub enum AddVoteResult {
    Single,
    Duplicated,
    Equivocated(Pair),
    Ignored,
}

pub fn no_votes() -> Votes
    ensures { result ≡ no_votes }
{
    Votes {
        counts: [0u8; VOTES],
        first_block: [0u8; VOTES],
        first_signature: [0u64; VOTES],
        second_target: [0u32; VOTES],
        second_number: [0u32; VOTES],
        second_signature: [0u64; VOTES],
    }
}

// What a pair is to those that are recorded.
pub fn add_vote(recorded: VoteMultiplicity, pair: Pair) -> AddVoteResult
    ensures { result ≡ add_vote recorded pair }
{
    match recorded {
        VoteMultiplicity::Silent => AddVoteResult::Single,
        VoteMultiplicity::Single(first) if first == pair => AddVoteResult::Duplicated,
        VoteMultiplicity::Single(first) => AddVoteResult::Equivocated(first),
        VoteMultiplicity::Equivocated(first, second) if first == pair || second == pair => {
            AddVoteResult::Duplicated
        }
        VoteMultiplicity::Equivocated(_, _) => AddVoteResult::Ignored,
    }
}

// The first pair: its target by the table.
fn first_pair<'a>(
    first_block: &'a [u8; VOTES],
    first_signature: &'a [u64; VOTES],
    ids: &'a [u32; BLOCKS],
    numbers: &'a [u32; BLOCKS],
    at: usize,
) -> Pair
    requires { at < VOTES }
    ensures { result ≡ first_pair first_block.now first_signature.now ids.now numbers.now at }
{
    let block = climbs::wide(first_block[at]);
    Pair {
        target: ids[block],
        number: numbers[block],
        signature: first_signature[at],
    }
}

// The pairs recorded at an index.
pub fn recorded<'a>(
    counts: &'a [u8; VOTES],
    first_block: &'a [u8; VOTES],
    first_signature: &'a [u64; VOTES],
    second_target: &'a [u32; VOTES],
    second_number: &'a [u32; VOTES],
    second_signature: &'a [u64; VOTES],
    ids: &'a [u32; BLOCKS],
    numbers: &'a [u32; BLOCKS],
    at: usize,
) -> VoteMultiplicity
    requires { at < VOTES }
    ensures { result ≡ recorded (votes_at before counts first_block first_signature second_target second_number second_signature) ids.now numbers.now at }
{
    let n = counts[at];
    if n == 0 {
        return VoteMultiplicity::Silent;
    }
    let first = first_pair(first_block, first_signature, ids, numbers, at);
    if n == 1 {
        return VoteMultiplicity::Single(first);
    }
    let second = Pair {
        target: second_target[at],
        number: second_number[at],
        signature: second_signature[at],
    };
    VoteMultiplicity::Equivocated(first, second)
}
