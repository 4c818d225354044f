// Two views of one round: the weight of the voters who equivocated in precommits in either, or whose recorded precommits differ in target
// between them.
#![tactic(auto)]

ghost use Rattle.std.specs.Prelude.{◌≡◌, ◌≤◌, ◌<◌};
ghost use Rattle.sizes.specs.Sizes.{VOTERS, VOTES};
ghost use Rattle.two_views.specs.Views.{apart, differing, agree, views};

use context::Phase;
use refusals::Refusal;
use round::Round;
use sizes::{VOTERS, VOTES};

// Whether the voter of an index counts: it equivocated in either view, or it has a vote in both and their targets differ. One vote in one
// view and silence in the other is no evidence.
fn differs<'a>(
    counts: &'a [u8; VOTES],
    first_block: &'a [u8; VOTES],
    others: &'a [u8; VOTES],
    theirs: &'a [u8; VOTES],
    at: usize,
) -> bool
    requires { at < VOTES }
    ensures { result ≡ apart counts.now first_block.now others.now theirs.now at }
{
    if counts[at] > 1 {
        return true;
    }
    if others[at] > 1 {
        return true;
    }
    if counts[at] == 0 {
        return false;
    }
    if others[at] == 0 {
        return false;
    }
    first_block[at] != theirs[at]
}

// The weight of the voters whose precommits differ so, each once, on lent columns; `others` and `theirs` are the counts and first blocks of the
// other view.
pub fn differing<'a>(
    counts: &'a [u8; VOTES],
    first_block: &'a [u8; VOTES],
    others: &'a [u8; VOTES],
    theirs: &'a [u8; VOTES],
    weights: &'a [u64; VOTERS],
    size: usize,
) -> u64
    requires { size ≤ VOTERS }
    ensures { result ≡ differing counts.now first_block.now others.now theirs.now weights.now size }
{
    let mut sum = 0u64;
    for voter in 0..size {
        let at = context::index(voter, Phase::Precommit);
        if differs(counts, first_block, others, theirs, at) {
            sum = sum.saturating_add(weights[voter]);
        }
    }
    sum
}

// Whether two views are of one round: number, base, voters and table.
fn agree(one: Round, other: Round) -> bool
    ensures { result ≡ agree one other }
{
    one.number == other.number
        && one.graph.base == other.graph.base
        && one.context.voters == other.context.voters
        && one.table == other.table
}

// The weight of the voters who equivocated in precommits in either of two views of one round, or whose precommits differ in target
// between them.
pub fn two_views(one: Round, other: Round) -> Result<u64, Refusal>
    ensures { result ≡ views one other }
{
    if !one.is_round() {
        return Err(Refusal::Misshapen);
    }
    if !other.is_round() {
        return Err(Refusal::Misshapen);
    }
    if !agree(one, other) {
        return Err(Refusal::UnlikeViews);
    }
    Ok(differing(
        &one.votes.counts,
        &one.votes.first_block,
        &other.votes.counts,
        &other.votes.first_block,
        &one.context.voters.weights,
        one.context.voters.count,
    ))
}
