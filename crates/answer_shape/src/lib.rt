// The shape rules of what a round stores beside its votes: heard weights and blocks.
#![tactic(auto)]

ghost use Rattle.std.specs.Prelude.{◌≡◌};
ghost use Rattle.nodes.specs.Nodes.{Falls};
ghost use Rattle.answer_shape.specs.Stored.{stored, all_stored, weighed};

use answers::{Answers, Heard};
use context::Phase;
use sizes::{BLOCKS, VOTERS, WORDS};

fn is_stored(parents: &[u8; BLOCKS], count: usize, base: u8, block: Option<u8>) -> bool
    requires { Falls parents.now }
    ensures { result ≡ stored parents.now count base block }
{
    match block {
        Some(place) => {
            if count <= climbs::wide(place) {
                return false;
            }
            climbs::reaches(parents, base, place)
        }
        None => true,
    }
}

// The four stored blocks are in the table, at or below the base.
pub fn are_stored(parents: &[u8; BLOCKS], count: usize, base: u8, answers: Answers) -> bool
    requires { Falls parents.now }
    ensures { result ≡ all_stored parents.now count base answers }
{
    let prevote = answers.prevote;
    if !is_stored(parents, count, base, prevote) {
        return false;
    }
    let precommit = answers.precommit;
    if !is_stored(parents, count, base, precommit) {
        return false;
    }
    let finalized = answers.finalized;
    if !is_stored(parents, count, base, finalized) {
        return false;
    }
    let estimate = answers.estimate;
    is_stored(parents, count, base, estimate)
}

// Heard weights are those of the voters whose bits the base's node has.
pub fn is_weighed(weights: &[u64; VOTERS], root: [u64; WORDS], heard: Heard) -> bool
    ensures { result ≡ weighed weights.now root heard }
{
    if heard.prevote != context::weighing::weight(weights, root, Phase::Prevote) {
        return false;
    }
    heard.precommit == context::weighing::weight(weights, root, Phase::Precommit)
}
