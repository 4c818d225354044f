// Rounds made by calls, as words: an opened one, document 01's case J, J with an equivocation, and one of 64 voters on 50 blocks.
//
// This serves the program `damaged`, which is judged by its stored output: the functions are proved safe and ending, and promise no more.
#![tactic(auto)]

use context::Phase;
use round::Round;
use round_words::SIZE;
use tracker::Pair;
use voter_set::VoterSet;

fn voted(
    round: Round,
    phase: Phase,
    signer: u32,
    target: u32,
    number: u32,
    signature: u64,
) -> Round {
    let pair = Pair {
        target,
        number,
        signature,
    };
    match phase {
        Phase::Prevote => round.import_prevote(signer, pair).round,
        Phase::Precommit => round.import_precommit(signer, pair).round,
    }
}

fn prevoted(round: Round, signer: u32, target: u32) -> Round {
    voted(round, Phase::Prevote, signer, target, 2, 0)
}

fn precommitted(round: Round, signer: u32, target: u32, number: u32, signature: u64) -> Round {
    voted(round, Phase::Precommit, signer, target, number, signature)
}

fn grown(round: Round, id: u32, parent: u32) -> Round {
    round.add_block(id, parent).round
}

// Nobody where the lists are refused.
fn made_voters(ids: &[u32], weights: &[u64]) -> VoterSet {
    VoterSet::new(ids, weights).unwrap_or(round::nobody())
}

// Voters 1 to 4 of weight 1, round 7 on the root 10 of number 0.
fn start() -> Round {
    let ids = [1u32, 2, 3, 4];
    let weights = [1u64; 4];
    let voters = made_voters(&ids, &weights);
    Round::new(7, voters, block_table::new(10, 0), 10).round
}

// Document 01, "The journal".
fn journal() -> Round {
    let round = grown(start(), 11, 10);
    let round = grown(grown(round, 12, 11), 13, 11);
    let round = prevoted(prevoted(round, 1, 12), 2, 12);
    let round = prevoted(prevoted(round, 3, 13), 4, 12);
    let round = precommitted(precommitted(round, 1, 12, 2, 0), 2, 12, 2, 0);
    precommitted(round, 3, 11, 1, 0)
}

pub fn opened() -> [u64; SIZE] {
    round_words::words_of(start())
}

pub fn case_j() -> [u64; SIZE] {
    round_words::words_of(journal())
}

// Document 01, "Numbers to hold it to": voter 3's second precommit for 13.
pub fn case_j_twice() -> [u64; SIZE] {
    round_words::words_of(precommitted(journal(), 3, 13, 2, 5))
}

// The 64 voters of the last round.
fn signer_of(voter: usize) -> u32 {
    (3 * (voter % 64) + 2) as u32
}

fn many_voters() -> VoterSet {
    let mut ids = [0u32; 64];
    let mut weights = [0u64; 64];
    for k in 0..64 {
        ids[k] = signer_of(k);
        weights[k] = 1 + (7 * k % 5) as u64;
    }
    made_voters(&ids, &weights)
}

// Blocks 0 to 47: a line of every third place, each with two blocks beside the next of the line. Then one under the base, place 5, and
// one under the root.
fn id_of(place: usize) -> u32 {
    if 48 <= place {
        return (652 + place % 256) as u32;
    }
    (500 + 37 * (place % 48) % 101) as u32
}

fn parent_of(place: usize) -> usize {
    if place < 3 {
        return 0;
    }
    match place {
        48 => 5,
        49 => 0,
        _ => place - 1 - place % 3,
    }
}

fn number_of(place: usize) -> u32 {
    (21 + place % 256 / 3) as u32
}

// A round on the block at place 5, with all 50 blocks.
fn many_opened() -> Round {
    let kept = Round::new(
        12345,
        many_voters(),
        block_table::new(id_of(0), 20),
        id_of(0),
    );
    let round = many_blocks(kept.round, 1, 6);
    let table = round.table;
    let kept = Round::new(12345, many_voters(), table, id_of(5));
    many_blocks(kept.round, 6, 50)
}

fn many_blocks(from: Round, start: usize, end: usize) -> Round {
    let mut round = from;
    for k in start..end {
        round = grown(round, id_of(k), id_of(parent_of(k)));
    }
    round
}

// Some voters are silent in a phase; the others vote for places along the line and beside it.
fn is_silent(voter: usize, phase: Phase) -> bool {
    match phase {
        Phase::Prevote => voter % 16 == 15,
        Phase::Precommit => voter % 8 == 7,
    }
}

fn target_of(voter: usize, phase: Phase) -> usize {
    match phase {
        Phase::Prevote => 5 + 3 * (voter % 64 * 5 % 14) + voter / 2 % 2,
        Phase::Precommit => 5 + 3 * (voter % 64 * 3 % 8) + voter / 2 % 2,
    }
}

fn with_vote(round: Round, phase: Phase, voter: usize) -> Round {
    if is_silent(voter, phase) {
        return round;
    }
    let place = target_of(voter, phase);
    let signature = 100 + (voter % 64) as u64;
    voted(
        round,
        phase,
        signer_of(voter),
        id_of(place),
        number_of(place),
        signature,
    )
}

fn many_votes(from: Round, phase: Phase) -> Round {
    let mut round = from;
    for voter in 0..64 {
        round = with_vote(round, phase, voter);
    }
    round
}

// A second pair; its target is not looked up.
fn again(round: Round, phase: Phase, voter: u32) -> Round {
    let k = voter % 64;
    voted(
        round,
        phase,
        signer_of(k as usize),
        9000 + k,
        k,
        70 + k as u64,
    )
}

pub fn many() -> [u64; SIZE] {
    let round = many_votes(many_opened(), Phase::Prevote);
    let round = again(again(round, Phase::Prevote, 4), Phase::Prevote, 24);
    let kept = again(round, Phase::Prevote, 44).set_prevoted_index();
    let round = many_votes(kept.round, Phase::Precommit);
    let round = again(again(round, Phase::Precommit, 5), Phase::Precommit, 25);
    let kept = again(round, Phase::Precommit, 45).set_precommitted_index();
    round_words::words_of(kept.round.precommit_ghost().round)
}
