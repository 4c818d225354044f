// Rounds with one field wrong. Every field of several real rounds is damaged at every place, and every call is asked about each damaged
// round: all of them answer 9 and hand back what they were given, or none of them does. Then several fields at once, so that one shape
// rule alone is broken. `oracle/damaged` works the same lines out from document 01.
//
// What passes is what no rule tests: the round's number; ids of voters that still rise; the id of a block that is no other's, where the
// heads still lie by rising id; the number of a root that is alone; a parent of the same number, where nodes, bits and stored blocks
// stay right; signatures and second pairs that are recorded; indices of at most 256; stored blocks at or below the base, and completable.
#![tactic(auto)]

use damaging::{Kind, Sums};
use round_words::SIZE;
use sizes::{BLOCKS, HISTORY, VOTERS, VOTES, WORDS};
use std::io::{Result, Write};
use streams::Outputs;

mod several;

// Each field of a round: its name, where its words start, how many there are, and what they hold.
const FIELDS: [(&str, usize, usize, Kind); 36] = [
    ("number", round_words::NUMBER, 1, Kind::Word),
    ("voters.ids", round_words::VOTER_IDS, VOTERS, Kind::Number),
    ("voters.weights", round_words::WEIGHTS, VOTERS, Kind::Word),
    (
        "voters.count",
        round_words::VOTER_COUNT,
        1,
        Kind::Count(VOTERS as u64),
    ),
    ("voters.threshold", round_words::THRESHOLD, 1, Kind::Word),
    ("voters.total", round_words::TOTAL, 1, Kind::Word),
    (
        "equivocations",
        round_words::EQUIVOCATIONS,
        WORDS,
        Kind::Word,
    ),
    ("table.ids", round_words::IDS, BLOCKS, Kind::Number),
    ("table.numbers", round_words::NUMBERS, BLOCKS, Kind::Number),
    ("table.parents", round_words::PARENTS, BLOCKS, Kind::Byte),
    (
        "table.count",
        round_words::BLOCK_COUNT,
        1,
        Kind::Count(BLOCKS as u64),
    ),
    ("graph.base", round_words::BASE, 1, Kind::Byte),
    ("graph.used", round_words::USED, BLOCKS, Kind::Flag),
    ("graph.above", round_words::ABOVE, BLOCKS, Kind::Byte),
    ("graph.rows", round_words::ROWS, WORDS * BLOCKS, Kind::Word),
    ("graph.order", round_words::ORDER, BLOCKS, Kind::Byte),
    (
        "graph.listed",
        round_words::LISTED,
        1,
        Kind::Count(BLOCKS as u64),
    ),
    ("graph.heads", round_words::HEADS, BLOCKS, Kind::Byte),
    (
        "graph.tips",
        round_words::TIPS,
        1,
        Kind::Count(BLOCKS as u64),
    ),
    ("votes.times", round_words::COUNTS, VOTES, Kind::Byte),
    ("votes.places", round_words::FIRST_BLOCK, VOTES, Kind::Byte),
    (
        "votes.signatures",
        round_words::FIRST_SIGNATURE,
        VOTES,
        Kind::Word,
    ),
    (
        "votes.targets",
        round_words::SECOND_TARGET,
        VOTES,
        Kind::Number,
    ),
    (
        "votes.numbers",
        round_words::SECOND_NUMBER,
        VOTES,
        Kind::Number,
    ),
    (
        "votes.seconds",
        round_words::SECOND_SIGNATURE,
        VOTES,
        Kind::Word,
    ),
    (
        "history.entries",
        round_words::ENTRIES,
        HISTORY,
        Kind::Entry,
    ),
    (
        "history.count",
        round_words::ENTRY_COUNT,
        1,
        Kind::Count(HISTORY as u64),
    ),
    ("history.prevoted", round_words::PREVOTED, 1, Kind::Index),
    (
        "history.precommitted",
        round_words::PRECOMMITTED,
        1,
        Kind::Index,
    ),
    ("heard.prevote", round_words::HEARD_PREVOTE, 1, Kind::Word),
    (
        "heard.precommit",
        round_words::HEARD_PRECOMMIT,
        1,
        Kind::Word,
    ),
    ("answers.prevote", round_words::PREVOTE, 1, Kind::Block),
    ("answers.precommit", round_words::PRECOMMIT, 1, Kind::Block),
    ("answers.finalized", round_words::FINALIZED, 1, Kind::Block),
    ("answers.estimate", round_words::ESTIMATE, 1, Kind::Block),
    (
        "answers.completable",
        round_words::COMPLETABLE,
        1,
        Kind::Flag,
    ),
];

// The rest of a line, whose name stands already: it is said before the work, so that an output that is cut off ends in it.
fn say_sums(mut to: Outputs, sums: Sums) -> Result<()> {
    let Sums {
        damaged,
        refused,
        passed,
        uneven,
        changed,
        unmade,
    } = sums;
    write!(
        to,
        ": {damaged} damaged, {refused} refused, {passed} passed, "
    )?;
    writeln!(
        to,
        "{uneven} uneven, {changed} changed; new refuses {unmade}"
    )
}

// All fields of a round, a line for each, under its name and digest.
fn fields(mut to: Outputs, name: &str, good: &[u64; SIZE]) -> Result<()> {
    to.say(name.as_bytes())?;
    let digest = round_words::digest(good);
    writeln!(to, ", digest {digest}")?;
    for (name, start, count, kind) in FIELDS {
        to.say(name.as_bytes())?;
        say_sums(to, damaging::places(good, start, count, kind))?;
    }
    Ok(())
}

fn run(to: Outputs) -> Result<()> {
    let good = made_rounds::opened();
    fields(to, "opened", &good)?;
    several::of_opened(to, &good)?;
    let good = made_rounds::case_j();
    fields(to, "case J", &good)?;
    let good = made_rounds::case_j_twice();
    fields(to, "case J with an equivocation", &good)?;
    several::of_case_j(to, &good)?;
    let good = made_rounds::many();
    fields(to, "64 voters, 50 blocks", &good)?;
    several::of_many(to, &good)
}

// Why an output was not written has been said.
fn main(rt: HostRuntime) {
    let to = Outputs {
        out: rt.stdout(),
        error: rt.stderr(),
        program: "damaged",
    };
    let _ = run(to);
}
