// The numbers of a round, in code where the Rust has them; specs/ says what a round's answers mean.
#![tactic(auto)]

ghost use Rattle.std.specs.Prelude.{◌≡◌};
ghost use Rattle.grandpa.specs.Weight.{threshold};
ghost use Rattle.grandpa.specs.Possible.{asked, enough};

use weights::VoteWeight;

// The weight that a supermajority needs: the smallest weight that is more than two thirds of the total. `threshold` of
// voter_set.rs gives the same number, as the total without the fault weight.
//
// Why not `total * 2 / 3 + 1`: twice a large total is past the largest u64. So the total is split first, into three equal
// thirds and the 0, 1 or 2 that are left over. Two thirds of the total are then two of those thirds and two thirds of what
// is left, which is 0, 2/3 or 4/3: rounded down 0, 0 or 1, and that is `left / 2`. The next weight is more than two thirds.
pub fn threshold(total: u64) -> u64
    ensures { result ≡ threshold total }
{
    // By the words above a total of 0 would need 1. But its T is 0, the total without the fault weight, and a voter set that
    // is handed in may be empty: its shape test asks for this T. The Rust is never asked, since its sets have weight.
    if total == 0 {
        return 0;
    }
    let third = total / 3;
    let left = total % 3;
    let two_thirds = 2 * third + left / 2;
    two_thirds + 1
}

// What the closure `possible_to_precommit` in `update` of round.rs holds: the precommit weight heard, the
// equivocations still to be had, the weight not heard, and the threshold.
#[derive(Clone, Copy)]
pub struct PossibleToPrecommit {
    pub current: u64,
    pub additional: u64,
    pub remaining: u64,
    pub threshold: u64,
}

impl PossibleToPrecommit {
    pub fn new(total: u64, threshold: u64, current: u64, equivocations: u64) -> PossibleToPrecommit
        ensures { result ≡ asked total threshold current equivocations }
    {
        let tolerated = VoteWeight(total) - VoteWeight(threshold);
        let additional = tolerated - VoteWeight(equivocations);
        let remaining = VoteWeight(total) - VoteWeight(current);
        PossibleToPrecommit {
            current,
            additional: additional.0,
            remaining: remaining.0,
            threshold,
        }
    }

    // Whether a block of this precommit weight can still get a supermajority.
    pub fn holds(self, precommitted: u64) -> bool
        ensures { result ≡ enough self precommitted }
    {
        let against = VoteWeight(self.current) - VoteWeight(precommitted);
        let equivocations = against.min(VoteWeight(self.additional));
        let heard = VoteWeight(precommitted) + VoteWeight(self.remaining);
        let full = heard + equivocations;
        VoteWeight(self.threshold) <= full
    }
}
