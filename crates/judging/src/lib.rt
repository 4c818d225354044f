// What is to be done with a vote: rules 1 to 5 of document 01, "How a vote is taken", and refusals 11, 12, 13. Nothing is changed here.
#![tactic(auto)]

ghost use Rattle.std.specs.Prelude.{◌≡◌, ◌≤◌, ◌<◌};
ghost use Rattle.sizes.specs.Sizes.{VOTERS, BLOCKS};
ghost use Rattle.lent.specs.Moment.{before};
ghost use Rattle.context.specs.Votes.{bit};
ghost use Rattle.grandpa.specs.Tree.{below};
ghost use Rattle.nodes.specs.Nodes.{col, Falls};
ghost use Rattle.tracker.specs.Votes.{votes_at};
ghost use Rattle.judging.specs.Judge.{Inside, judge_first, judge};

use climbs::wide;
use context::Phase;
use refusals::Refusal;
use sizes::{BLOCKS, VOTERS, VOTES};
use tracker::{AddVoteResult, Pair};
use voter_info::VoterInfo;

// Both pairs of an equivocator in arrival order.
#[derive(Clone, Copy)]
pub struct Equivocation {
    pub number: u64,
    pub identity: u32,
    pub first: Pair,
    pub second: Pair,
}

// `ImportResult`: a signer outside the set; a first vote; a duplicate; an equivocation; a third pair; a refusal.
#[derive(Clone, Copy)]
pub enum ImportResult {
    Outside,
    Counted,
    Duplicated,
    Equivocated(Equivocation),
    Ignored,
}

// What is to be done with a vote: nothing, with the answer; a first vote by a voter for the block at a place; the second of a
// voter, with the first beside it.
#[derive(Clone, Copy)]
pub enum Verdict {
    Nothing(Result<ImportResult, Refusal>),
    First(VoterInfo, u8),
    Second(VoterInfo, Pair),
}

// Whether a block is the base or under it. Nodes are, so that the climb ends at the first of them.
fn is_inside<'a>(parents: &'a [u8; BLOCKS], used: &'a [bool; BLOCKS], base: u8, block: u8) -> bool
    requires { (Falls parents.now) × Inside parents.now base used.now }
    ensures { result ≡ below (col parents.now) base block }
{
    let wanted = wide(base);
    let mut at = wide(block);
    while wanted < at {
        if used[at] {
            return true;
        }
        at = wide(parents[at]);
    }
    at == wanted
}

// A first vote's target: refusals 11, 12 and 13, in that order.
pub fn judge_first<'a>(
    ids: &'a [u32; BLOCKS],
    numbers: &'a [u32; BLOCKS],
    parents: &'a [u8; BLOCKS],
    blocks: usize,
    base: u8,
    used: &'a [bool; BLOCKS],
    info: VoterInfo,
    pair: Pair,
) -> Verdict
    requires { (Falls parents.now) × (blocks ≤ BLOCKS) × Inside parents.now base used.now }
    ensures { result ≡ judge_first ids.now numbers.now parents.now blocks base info pair }
{
    let Some(block) = blocks::find(ids, blocks, pair.target) else {
        return Verdict::Nothing(Err(Refusal::UnknownTarget));
    };
    if numbers[wide(block)] != pair.number {
        return Verdict::Nothing(Err(Refusal::WrongNumber));
    }
    if !is_inside(parents, used, base, block) {
        return Verdict::Nothing(Err(Refusal::OffTheBase));
    }
    Verdict::First(info, block)
}

// Rules 1 to 5.
pub fn judge<'a>(
    voters: &'a [u32; VOTERS],
    weights: &'a [u64; VOTERS],
    size: usize,
    ids: &'a [u32; BLOCKS],
    numbers: &'a [u32; BLOCKS],
    parents: &'a [u8; BLOCKS],
    blocks: usize,
    base: u8,
    used: &'a [bool; BLOCKS],
    counts: &'a [u8; VOTES],
    first_block: &'a [u8; VOTES],
    first_signature: &'a [u64; VOTES],
    second_target: &'a [u32; VOTES],
    second_number: &'a [u32; VOTES],
    second_signature: &'a [u64; VOTES],
    phase: Phase,
    signer: u32,
    pair: Pair,
) -> Verdict
    requires { (Falls parents.now) × (blocks ≤ BLOCKS) × (size ≤ VOTERS) × Inside parents.now base used.now }
    ensures { result ≡ judge voters.now weights.now size ids.now numbers.now parents.now blocks base
        (votes_at before counts first_block first_signature second_target second_number second_signature) phase signer pair }
{
    let Some(info) = voter_info::look_up(voters, weights, size, signer) else {
        return Verdict::Nothing(Ok(ImportResult::Outside));
    };
    let at = context::index(info.position, phase);
    let recorded = tracker::recorded(
        counts,
        first_block,
        first_signature,
        second_target,
        second_number,
        second_signature,
        ids,
        numbers,
        at,
    );
    match tracker::add_vote(recorded, pair) {
        AddVoteResult::Single => judge_first(ids, numbers, parents, blocks, base, used, info, pair),
        AddVoteResult::Duplicated => Verdict::Nothing(Ok(ImportResult::Duplicated)),
        AddVoteResult::Equivocated(first) => Verdict::Second(info, first),
        AddVoteResult::Ignored => Verdict::Nothing(Ok(ImportResult::Ignored)),
    }
}
