// Several fields of a round changed at once, so that one shape rule alone is broken; a few break none. Each is a list of words by their
// place in a round and what they become.
use crate::say_sums;
use round_words::{
    ABOVE, BASE, BLOCK_COUNT, COUNTS, ENTRIES, ENTRY_COUNT, FIRST_BLOCK, HEADS, HEARD_PRECOMMIT,
    IDS, LISTED, NUMBERS, ORDER, PARENTS, ROWS, SECOND_NUMBER, SECOND_SIGNATURE, SECOND_TARGET,
    SIZE, THRESHOLD, TIPS, TOTAL, USED, VOTER_COUNT, VOTER_IDS, WEIGHTS,
};
use std::io::Result;
use streams::Outputs;

const NO_BLOCKS: [(usize, u64); 2] = [(IDS, 0), (BLOCK_COUNT, 0)];

const BASE_THAT_IS_NOT_IN_THE_TABLE: [(usize, u64); 4] = [
    (BASE, 9),
    (USED, 0),
    (USED + 9, 1),
    (HEADS, 9),
];

const VOTER_OF_WEIGHT_0: [(usize, u64); 2] = [(WEIGHTS + 3, 0), (TOTAL, 3)];

const WEIGHT_OF_NO_VOTER: [(usize, u64); 3] = [(WEIGHTS + 4, 1), (TOTAL, 5), (THRESHOLD, 4)];

const NO_VOTERS: [(usize, u64); 11] = [
    (VOTER_IDS, 0),
    (VOTER_IDS + 1, 0),
    (VOTER_IDS + 2, 0),
    (VOTER_IDS + 3, 0),
    (WEIGHTS, 0),
    (WEIGHTS + 1, 0),
    (WEIGHTS + 2, 0),
    (WEIGHTS + 3, 0),
    (VOTER_COUNT, 0),
    (THRESHOLD, 0),
    (TOTAL, 0),
];

const PARENT_THAT_COMES_LATER: [(usize, u64); 6] = [
    (IDS + 4, 14),
    (NUMBERS + 4, 2),
    (PARENTS + 4, 5),
    (IDS + 5, 15),
    (NUMBERS + 5, 1),
    (BLOCK_COUNT, 6),
];

const VOTE_FOR_A_BLOCK_PAST_THE_TABLE: [(usize, u64); 14] = [
    (COUNTS + 7, 1),
    (FIRST_BLOCK + 7, 9),
    (USED + 9, 1),
    (ROWS + 18, 72057594037927936),
    (ROWS, 18374686479671623680),
    (ORDER + 3, 9),
    (LISTED, 4),
    (HEADS, 9),
    (HEADS + 1, 2),
    (HEADS + 2, 3),
    (TIPS, 3),
    (ENTRIES + 8, 14),
    (ENTRY_COUNT, 9),
    (HEARD_PRECOMMIT, 4),
];

const NODE_THAT_IS_NOT_LISTED: [(usize, u64); 3] = [(ORDER + 1, 1), (ORDER + 2, 0), (LISTED, 2)];

const HEADS_BY_FALLING_ID: [(usize, u64); 2] = [(HEADS, 3), (HEADS + 1, 2)];

const HEAD_THAT_IS_MISSING: [(usize, u64); 2] = [(HEADS + 1, 0), (TIPS, 1)];

const HEAD_THAT_LISTS_OTHERS: [(usize, u64); 4] = [
    (HEADS, 1),
    (HEADS + 1, 2),
    (HEADS + 2, 3),
    (TIPS, 3),
];

const VOTE_OF_NO_VOTER: [(usize, u64); 4] = [
    (COUNTS + 8, 1),
    (ROWS, 18338657682652659712),
    (ENTRIES + 8, 16),
    (ENTRY_COUNT, 9),
];

const TARGET_WITHOUT_A_NODE: [(usize, u64); 8] = [
    (USED + 3, 0),
    (ABOVE + 3, 0),
    (ROWS + 6, 0),
    (ORDER + 1, 1),
    (ORDER + 2, 0),
    (LISTED, 2),
    (HEADS + 1, 0),
    (TIPS, 1),
];

const NODE_WITHOUT_A_VOTE: [(usize, u64); 10] = [
    (IDS + 4, 14),
    (NUMBERS + 4, 2),
    (PARENTS + 4, 1),
    (BLOCK_COUNT, 5),
    (USED + 4, 1),
    (ABOVE + 4, 1),
    (ORDER + 3, 4),
    (LISTED, 4),
    (HEADS + 2, 4),
    (TIPS, 3),
];

const ENTRY_THAT_IS_MISSING: [(usize, u64); 2] = [(ENTRIES + 7, 0), (ENTRY_COUNT, 7)];

const ENTRY_OF_NO_PAIR: [(usize, u64); 2] = [(ENTRIES + 8, 14), (ENTRY_COUNT, 9)];

const CHILDREN_IN_ANOTHER_ORDER: [(usize, u64); 2] = [(ORDER, 3), (ORDER + 1, 2)];

const HISTORY_IN_ANOTHER_ORDER: [(usize, u64); 2] = [(ENTRIES, 4), (ENTRIES + 1, 0)];

const SECOND_PAIR_BEFORE_THE_FIRST: [(usize, u64); 2] = [(ENTRIES + 6, 11), (ENTRIES + 7, 10)];

const SECOND_PAIR_EQUAL_TO_THE_FIRST: [(usize, u64); 3] = [
    (SECOND_TARGET + 5, 11),
    (SECOND_NUMBER + 5, 1),
    (SECOND_SIGNATURE + 5, 0),
];

const VOTE_BESIDE_THE_BASE: [(usize, u64); 11] = [
    (COUNTS + 15, 1),
    (FIRST_BLOCK + 15, 49),
    (USED + 49, 1),
    (ROWS + 98, 281474976710656),
    (ORDER + 27, 49),
    (LISTED, 28),
    (HEADS + 14, 49),
    (TIPS, 15),
    (ENTRIES + 122, 30),
    (ENTRY_COUNT, 123),
    (HEARD_PRECOMMIT, 173),
];

const VOTE_BESIDE_THE_BASE_NOT_HEARD: [(usize, u64); 10] = [
    (COUNTS + 15, 1),
    (FIRST_BLOCK + 15, 49),
    (USED + 49, 1),
    (ROWS + 98, 281474976710656),
    (ORDER + 27, 49),
    (LISTED, 28),
    (HEADS + 14, 49),
    (TIPS, 15),
    (ENTRIES + 122, 30),
    (ENTRY_COUNT, 123),
];

// A line for a round with several fields changed.
fn several(to: Outputs, good: &[u64; SIZE], name: &str, sets: &[(usize, u64)]) -> Result<()> {
    to.say(name.as_bytes())?;
    say_sums(to, damaging::several(good, sets))
}

pub fn of_opened(to: Outputs, good: &[u64; SIZE]) -> Result<()> {
    several(to, good, "no blocks", &NO_BLOCKS)?;
    several(
        to,
        good,
        "a base that is not in the table",
        &BASE_THAT_IS_NOT_IN_THE_TABLE,
    )?;
    several(to, good, "a voter of weight 0", &VOTER_OF_WEIGHT_0)?;
    several(to, good, "a weight of no voter", &WEIGHT_OF_NO_VOTER)?;
    several(to, good, "no voters", &NO_VOTERS)
}

fn of_case_j_first(to: Outputs, good: &[u64; SIZE]) -> Result<()> {
    several(
        to,
        good,
        "a parent that comes later",
        &PARENT_THAT_COMES_LATER,
    )?;
    several(
        to,
        good,
        "a vote for a block past the table",
        &VOTE_FOR_A_BLOCK_PAST_THE_TABLE,
    )?;
    several(
        to,
        good,
        "a node that is not listed",
        &NODE_THAT_IS_NOT_LISTED,
    )?;
    several(to, good, "heads by falling id", &HEADS_BY_FALLING_ID)?;
    several(to, good, "a head that is missing", &HEAD_THAT_IS_MISSING)
}

fn of_case_j_second(to: Outputs, good: &[u64; SIZE]) -> Result<()> {
    several(
        to,
        good,
        "a head that lists others",
        &HEAD_THAT_LISTS_OTHERS,
    )?;
    several(to, good, "a vote of no voter", &VOTE_OF_NO_VOTER)?;
    several(to, good, "a target without a node", &TARGET_WITHOUT_A_NODE)?;
    several(to, good, "a node without a vote", &NODE_WITHOUT_A_VOTE)?;
    several(to, good, "an entry that is missing", &ENTRY_THAT_IS_MISSING)
}

fn of_case_j_third(to: Outputs, good: &[u64; SIZE]) -> Result<()> {
    several(to, good, "an entry of no pair", &ENTRY_OF_NO_PAIR)?;
    several(
        to,
        good,
        "children in another order",
        &CHILDREN_IN_ANOTHER_ORDER,
    )?;
    several(
        to,
        good,
        "history in another order",
        &HISTORY_IN_ANOTHER_ORDER,
    )?;
    several(
        to,
        good,
        "a second pair before the first",
        &SECOND_PAIR_BEFORE_THE_FIRST,
    )?;
    several(
        to,
        good,
        "a second pair equal to the first",
        &SECOND_PAIR_EQUAL_TO_THE_FIRST,
    )
}

pub fn of_many(to: Outputs, good: &[u64; SIZE]) -> Result<()> {
    several(to, good, "a vote beside the base", &VOTE_BESIDE_THE_BASE)?;
    several(
        to,
        good,
        "a vote beside the base, not heard",
        &VOTE_BESIDE_THE_BASE_NOT_HEARD,
    )
}

pub fn of_case_j(to: Outputs, good: &[u64; SIZE]) -> Result<()> {
    of_case_j_first(to, good)?;
    of_case_j_second(to, good)?;
    of_case_j_third(to, good)
}
