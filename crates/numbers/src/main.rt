// Document 01's "Numbers to hold it to" that the crates below a round can answer, one line each.
#![tactic(auto)]

use context::{Phase, Vote, VoteNode};
use refusals::Refusal;
use std::io::{self, Write};
use streams::Outputs;
use voter_info::VoterInfo;
use voter_set::VoterSet;

// The ids 0, 1, 2, .. 64.
const IDS: [u32; 65] = [
    0, 1, 2, 3, 4, 5, 6, 7, 8, 9, 10, 11, 12, 13, 14, 15, 16, 17, 18, 19, 20, 21, 22, 23, 24, 25,
    26, 27, 28, 29, 30, 31, 32, 33, 34, 35, 36, 37, 38, 39, 40, 41, 42, 43, 44, 45, 46, 47, 48, 49,
    50, 51, 52, 53, 54, 55, 56, 57, 58, 59, 60, 61, 62, 63, 64,
];

// What a voter list gives: its threshold and number of voters, or a refusal.
fn voters(to: &mut Outputs, name: &str, made: Result<VoterSet, Refusal>) -> io::Result<()> {
    match made {
        Ok(set) => {
            let count = set.len();
            let threshold = set.threshold();
            writeln!(to, "{name}: voters {count} threshold {threshold}")
        }
        Err(refusal) => {
            let number = refusal.number();
            writeln!(to, "{name}: refused {number}")
        }
    }
}

// The words of a vote's bit.
fn bit(to: &mut Outputs, name: &str, voter: Option<VoterInfo>, phase: Phase) -> io::Result<()> {
    let Some(voter) = voter else {
        return writeln!(to, "{name}: no voter");
    };
    let node = VoteNode::default().add_vote(Vote::new(voter, phase));
    let [low, high] = node.bits;
    writeln!(to, "{name}: {low} {high}")
}

fn thresholds(to: &mut Outputs) -> io::Result<()> {
    for total in [0, 1, 2, 3, 4, 5, 6, 7, 10, u64::MAX] {
        let threshold = grandpa::threshold(total);
        writeln!(to, "total {total} threshold {threshold}")?;
    }
    Ok(())
}

fn lists(to: &mut Outputs) -> io::Result<()> {
    let two = [1u32, 2];
    let most = [u64::MAX - 1, 1];
    let more = [u64::MAX, 1];
    voters(to, "sum 18446744073709551615", VoterSet::new(&two, &most))?;
    voters(to, "one more", VoterSet::new(&two, &more))?;
    let many = IDS;
    let ones = [1u64; 65];
    voters(to, "64 ids", VoterSet::new(&many[..64], &ones[..64]))?;
    voters(to, "65 ids", VoterSet::new(&many, &ones))?;
    voters(to, "no weight", VoterSet::new(&two, &[0, 0]))?;
    voters(to, "two ids, 65 weights", VoterSet::new(&two, &ones))
}

fn primary(to: &mut Outputs) -> io::Result<()> {
    let set = VoterSet::new(&[1, 2, 3, 4], &[1; 4]);
    let Some((id, voter)) = set.ok().and_then(|set| set.nth_mod(7)) else {
        return writeln!(to, "round 7: no primary");
    };
    let place = voter.position();
    writeln!(
        to,
        "round 7, voters 1 to 4: primary voter {id} at place {place}"
    )
}

fn places(to: &mut Outputs) -> io::Result<()> {
    let many = IDS;
    let set = VoterSet::new(&many[..64], &[1; 64]).ok();
    let voter = |id| set.and_then(|set| set.get(id));
    bit(to, "place 0 prevote", voter(0), Phase::Prevote)?;
    bit(to, "place 32 prevote", voter(32), Phase::Prevote)?;
    bit(to, "place 63 precommit", voter(63), Phase::Precommit)
}

fn run(to: &mut Outputs) -> io::Result<()> {
    thresholds(to)?;
    lists(to)?;
    primary(to)?;
    places(to)
}

// Why an output was not written has been said.
fn main(rt: HostRuntime) {
    let mut to = Outputs {
        out: rt.stdout(),
        error: rt.stderr(),
        program: "numbers",
    };
    let _ = run(&mut to);
}
