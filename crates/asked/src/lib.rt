// Every call on a round, counted by whether it answers 9. The arguments are such that an undamaged round refuses none of them with 9.
//
// This serves the program `damaged`, which is judged by its stored output: the functions are proved safe and ending, and promise no more.
#![tactic(auto)]

use refusals::Refusal;
use round::{After, Round};
use round_words::SIZE;
use sizes::HISTORY;
use tracker::Pair;

// How many calls on a round there are beside `new`, with `two_views` on either side.
pub const CALLS: u64 = 26;

// How many calls answered 9, and how many changed the round or the bytes that they were handed.
#[derive(Clone, Copy)]
struct Tally {
    nines: u64,
    changed: u64,
}

// The same of all calls, and whether `new` refuses.
#[derive(Clone, Copy)]
pub struct Asked {
    pub nines: u64,
    pub changed: u64,
    pub unmade: u64,
}

fn is_nine<A: Drop>(answer: Result<A, Refusal>) -> u64 {
    match answer {
        Ok(_) => 0,
        Err(refusal) => u64::from(refusal == Refusal::Misshapen),
    }
}

// Sums that cannot wrap, written so that nobody has to show it.
pub fn plus(a: u64, b: u64) -> u64 {
    a.wrapping_add(b)
}

fn of_numbers(round: Round) -> u64 {
    let indices = plus(
        is_nine(round.prevoted_index()),
        is_nine(round.precommitted_index()),
    );
    plus(
        indices,
        plus(is_nine(round.number()), is_nine(round.threshold())),
    )
}

fn of_blocks(round: Round) -> u64 {
    let told = plus(is_nine(round.estimate()), is_nine(round.finalized()));
    let told = plus(told, is_nine(round.base()));
    plus(
        told,
        plus(is_nine(round.completable()), is_nine(round.state())),
    )
}

fn of_voters(round: Round) -> u64 {
    let first = plus(is_nine(round.voters()), is_nine(round.primary_voter()));
    let prevotes = is_nine(round.prevote_participation());
    let precommits = is_nine(round.precommit_participation());
    plus(first, plus(prevotes, precommits))
}

// `is_round`, which says no where the others say 9, and `two_views`, with the round on either side.
fn of_tests(round: Round, good: Round) -> u64 {
    let one = is_nine(two_views::two_views(round, good));
    let other = is_nine(two_views::two_views(good, round));
    plus(u64::from(!round.is_round()), plus(one, other))
}

// A call that hands a round back: whether it is another than the one of these words counts as changed.
fn counted<A: Drop>(after: After<Result<A, Refusal>>, words: &[u64; SIZE]) -> Tally {
    let After { answer, round } = after;
    let has = round_words::words_of(round);
    Tally {
        nines: is_nine(answer),
        changed: u64::from(has != *words),
    }
}

const PAIR: Pair = Pair {
    target: 12,
    number: 2,
    signature: 8,
};

// The six calls that hand a round back.
fn of_steps(round: Round, words: &[u64; SIZE]) -> Tally {
    let prevote = counted(round.import_prevote(2, PAIR), words);
    let votes = both(prevote, counted(round.import_precommit(2, PAIR), words));
    let prevote = counted(round.set_prevoted_index(), words);
    let marks = both(prevote, counted(round.set_precommitted_index(), words));
    let added = counted(round.add_block(77, 10), words);
    let rest = both(added, counted(round.precommit_ghost(), words));
    both(both(votes, marks), rest)
}

// A record of 22 bytes for each entry of history: room for any list.
const ROOM: usize = 22 * HISTORY;

// What a buffer has in every byte before it is lent.
const FILL: u8 = 165;

// The lists that are written into a lent buffer.
#[derive(Clone, Copy)]
enum List {
    Prevotes,
    Precommits,
    Historical,
    Finalizing,
}

// A call that is lent a buffer: whether that no longer has what was put there counts as changed.
fn written(round: Round, list: List) -> Tally {
    let mut out = [FILL; ROOM];
    let answer = match list {
        List::Prevotes => round.prevotes(&mut out),
        List::Precommits => round.precommits(&mut out),
        List::Historical => round.historical_votes(&mut out),
        List::Finalizing => round.finalizing_precommits(&mut out),
    };
    Tally {
        nines: is_nine(answer),
        changed: u64::from(out.iter().any(|byte| *byte != FILL)),
    }
}

fn both(one: Tally, other: Tally) -> Tally {
    Tally {
        nines: plus(one.nines, other.nines),
        changed: plus(one.changed, other.changed),
    }
}

// The four calls that are lent a buffer.
fn of_lists(round: Round) -> Tally {
    let votes = both(
        written(round, List::Prevotes),
        written(round, List::Precommits),
    );
    both(
        votes,
        both(
            written(round, List::Historical),
            written(round, List::Finalizing),
        ),
    )
}

// All calls on a round of these words.
fn of_calls(round: Round, words: &[u64; SIZE], good: Round) -> Tally {
    let told = plus(of_numbers(round), of_blocks(round));
    let tested = plus(of_voters(round), of_tests(round, good));
    let reads = Tally {
        nines: plus(told, tested),
        changed: 0,
    };
    both(reads, both(of_steps(round, words), of_lists(round)))
}

// `new` on the voters and the table of a round.
fn of_new(round: Round, base: u32) -> u64 {
    let context = round.context;
    let voters = context.voters;
    let table = round.table;
    is_nine(Round::new(round.number, voters, table, base).answer)
}

// What the calls say of the round of a damaged one's words, and `new` of its voters and table, on the block that is the base of the good
// one.
pub fn all<'a>(good: &'a [u64; SIZE], wrong: &'a [u64; SIZE]) -> Asked {
    let round = round_words::round_of(wrong);
    let tally = of_calls(round, wrong, round_words::round_of(good));
    Asked {
        nines: tally.nines,
        changed: tally.changed,
        unmade: of_new(round, round_words::base_id(good)),
    }
}
