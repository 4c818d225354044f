// What a replay tells, without its state: the numbers and answers of a journal's last lines.
#![tactic(auto)]

ghost use Rattle.std.specs.Prelude.{◌≡◌};
ghost use Rattle.summary.specs.Summary.{bare, of_round, summed};

use answers::Heard;
use context::Phase;
use feeding::Replay;
use journal::Turn;
use refusals::Refusal;
use round::Round;

// A round; an end before the round was opened; a refused record, which is the one after those taken.
#[derive(Clone, Copy)]
pub enum Outcome {
    Voting,
    Early,
    Refused(Refusal),
}

// Where there is no round, what belongs to one is blank.
#[derive(Clone, Copy)]
pub struct Summary {
    pub outcome: Outcome,
    pub records: u64,
    pub tail: usize,
    pub number: u64,
    pub total: u64,
    pub threshold: u64,
    pub heard: Heard,
    pub prevoters: u32,
    pub precommitters: u32,
    pub prevote: Option<(u32, u32)>,
    pub estimate: Option<(u32, u32)>,
    pub finalized: Option<(u32, u32)>,
    pub completable: bool,
}

// No round.
pub fn bare(outcome: Outcome, records: u64, tail: usize) -> Summary
    ensures { result ≡ bare outcome records tail }
{
    Summary {
        outcome,
        records,
        tail,
        number: 0,
        total: 0,
        threshold: 0,
        heard: answers::no_heard(),
        prevoters: 0,
        precommitters: 0,
        prevote: None,
        estimate: None,
        finalized: None,
        completable: false,
    }
}

// The stored numbers and answers of a round, and the voters heard.
fn of_round(round: Round, records: u64, tail: usize) -> Summary
    ensures { result ≡ of_round round records tail }
{
    let table = round.table;
    let answers = round.answers;
    let prevote = round::block_of(&table.ids, &table.numbers, answers.prevote);
    let estimate = round::block_of(&table.ids, &table.numbers, answers.estimate);
    let finalized = round::block_of(&table.ids, &table.numbers, answers.finalized);
    let prevoters = round::heard_in(round.graph, Phase::Prevote);
    let precommitters = round::heard_in(round.graph, Phase::Precommit);
    Summary {
        outcome: Outcome::Voting,
        records,
        tail,
        number: round.number,
        total: round.context.voters.total,
        threshold: round.context.voters.threshold,
        heard: round.heard,
        prevoters,
        precommitters,
        prevote,
        estimate,
        finalized,
        completable: answers.completable,
    }
}

// What a replay tells.
pub fn of(replay: Replay) -> Summary
    ensures { result ≡ summed replay }
{
    let journal = replay.journal;
    let tail = replay.rest.count;
    match replay.stop {
        Err(refusal) => bare(Outcome::Refused(refusal), replay.records, 0),
        Ok(()) => match journal.turn {
            Turn::Votes => of_round(journal.round, replay.records, tail),
            Turn::Blocks | Turn::Voters => bare(Outcome::Early, replay.records, tail),
        },
    }
}
