// A voter's place and weight, looked up in lent columns: `VoterInfo` and `get` of voter_set.rs.
#![tactic(auto)]

ghost use Rattle.std.specs.Prelude.{◌≡◌};
ghost use Rattle.voter_info.specs.Info.{info, look_up};

use weights::VoterWeight;

// A voter's place in the set, and its weight.
#[derive(Clone, Copy)]
pub struct VoterInfo {
    pub position: usize,
    pub weight: VoterWeight,
}

impl VoterInfo {
    pub fn position(self) -> usize
        ensures { result ≡ self.position }
    {
        self.position
    }

    pub fn weight(self) -> VoterWeight
        ensures { result ≡ self.weight }
    {
        self.weight
    }
}

// The voter with this id, in columns of ids and weights.
pub fn look_up<'a>(ids: &'a [u32], weights: &'a [u64], count: usize, id: u32) -> Option<VoterInfo>
    ensures { result ≡ look_up ids.now weights.now count id }
{
    let Some(place) = columns::find(ids, count, id) else {
        return None;
    };
    if weights.len() <= place {
        return None;
    }
    info(place, weights[place])
}

// A voter has a weight that is not zero: `VoterWeight` has no other. A set that breaks the shape rules may hold a
// zero, and who stands there is no voter.
pub fn info(position: usize, weight: u64) -> Option<VoterInfo>
    ensures { result ≡ info position weight }
{
    let Some(weight) = VoterWeight::new(weight) else {
        return None;
    };
    Some(VoterInfo { position, weight })
}
