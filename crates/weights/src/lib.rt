// Weights of votes and of voters: weights.rs of finality-grandpa.
#![tactic(auto)]

ghost use Rattle.std.specs.Prelude.{◌≡◌};
ghost use Rattle.weights.specs.Weights.{plus, minus, kept};

use std::ops::{Add, Sub};

// The accumulated weight of any number of voters, possibly none.
#[derive(Clone, Copy, PartialEq, Eq, PartialOrd, Ord)]
pub struct VoteWeight(pub u64);

// The weight of one or more voters. Its number is private, so that only `VoterWeight::new`, which makes
// none of weight zero, makes one outside this crate.
#[derive(Clone, Copy, PartialEq, Eq, PartialOrd, Ord)]
pub struct VoterWeight(u64);

impl VoterWeight {
    pub fn new(weight: u64) -> Option<VoterWeight>
        ensures { result ≡ kept weight }
    {
        if weight == 0 {
            return None;
        }
        Some(VoterWeight(weight))
    }

    pub fn get(self) -> u64
        ensures { result ≡ self.0 }
    {
        self.0
    }
}

impl From<u64> for VoteWeight {
    ghost from_gives = { λ weight r. r.0 ≡ weight };

    fn from(weight: u64) -> VoteWeight {
        VoteWeight(weight)
    }
}

// A voter's weight among vote weights: to compare the two, as the Rust does directly.
impl From<VoterWeight> for VoteWeight {
    ghost from_gives = { λ weight r. r.0 ≡ weight.0 };

    fn from(weight: VoterWeight) -> VoteWeight {
        VoteWeight(weight.get())
    }
}

// Sums stop at the largest weight.
impl Add<VoteWeight> for VoteWeight {
    type Output = VoteWeight;

    ghost add_gives = { λ a b r. r.0 ≡ plus a.0 b.0 };

    fn add(self, rhs: VoteWeight) -> VoteWeight {
        VoteWeight(self.0.saturating_add(rhs.0))
    }
}

impl Add<VoterWeight> for VoteWeight {
    type Output = VoteWeight;

    ghost add_gives = { λ a b r. r.0 ≡ plus a.0 b.0 };

    fn add(self, rhs: VoterWeight) -> VoteWeight {
        self + VoteWeight::from(rhs)
    }
}

// Differences stop at 0.
impl Sub<VoteWeight> for VoteWeight {
    type Output = VoteWeight;

    ghost sub_gives = { λ a b r. r.0 ≡ minus a.0 b.0 };

    fn sub(self, rhs: VoteWeight) -> VoteWeight {
        VoteWeight(self.0.saturating_sub(rhs.0))
    }
}

impl Sub<VoterWeight> for VoteWeight {
    type Output = VoteWeight;

    ghost sub_gives = { λ a b r. r.0 ≡ minus a.0 b.0 };

    fn sub(self, rhs: VoterWeight) -> VoteWeight {
        self - VoteWeight::from(rhs)
    }
}

impl Sub<VoteWeight> for VoterWeight {
    type Output = VoteWeight;

    ghost sub_gives = { λ a b r. r.0 ≡ minus a.0 b.0 };

    fn sub(self, rhs: VoteWeight) -> VoteWeight {
        VoteWeight::from(self) - rhs
    }
}

impl Sub<VoterWeight> for VoterWeight {
    type Output = VoteWeight;

    ghost sub_gives = { λ a b r. r.0 ≡ minus a.0 b.0 };

    fn sub(self, rhs: VoterWeight) -> VoteWeight {
        VoteWeight::from(self) - VoteWeight::from(rhs)
    }
}
