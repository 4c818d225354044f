// A journal's state by value, and a run over some bytes of it. The columns are lent to the loops of the crates below, once for all records
// of the bytes.
#![tactic(auto)]

ghost use Rattle.std.specs.Prelude.{◌≡◌, ◌&&◌, ◌+◌, ◌≤◌, length, take};
ghost use Rattle.sizes.specs.Sizes.{PAIRS};
ghost use Rattle.weights.specs.Weights.{most};
ghost use Rattle.voter_set.specs.Voters.{new};
ghost use Rattle.held_laws.specs.Kept.{Kept};
ghost use Rattle.marks.specs.declared.Mark.TheVariants.{Rt, Op};
ghost use Rattle.marks.specs.declared.Record.TheVariants.{Whole};
ghost use Rattle.marks.specs.Marks.{read};
ghost use Rattle.round.specs.Shape.{frame, held};
ghost use Rattle.turns.specs.Turns.{pairing, growing, voting, no_pairs};
ghost use Rattle.turns.specs.Stands.{Stands};
ghost use Rattle.journal.specs.Journal.{laid, told, unset, stands, run_of, Within, run_from};

use blocks::BlockTable;
use context::Context;
use importing::Standing;
use marks::{End, Mark};
use pairing::Pairs;
use refusals::Refusal;
use round::{History, Round};
use sizes::PAIRS;
use tracker::Votes;
use vote_graph::VoteGraph;
use voter_set::VoterSet;

// Which records may come.
#[derive(Clone, Copy)]
pub enum Turn {
    Voters,
    Blocks,
    Votes,
}

// What a journal has told so far. Before the Rt these are the pairs, before the Op the round's voters and its table, then the round; what is
// not yet told is blank.
#[derive(Clone, Copy)]
pub struct Journal {
    pub turn: Turn,
    pub pairs: Pairs,
    pub round: Round,
}

// A run over some bytes: what they tell, the records taken, the bytes that these have, and why no more are taken.
#[derive(Clone, Copy)]
pub struct Progress {
    pub journal: Journal,
    pub count: u64,
    pub at: usize,
    pub end: End,
}

pub fn no_pairs() -> Pairs
    ensures { result ≡ no_pairs }
{
    Pairs {
        ids: [0u32; PAIRS],
        weights: [0u64; PAIRS],
        count: 0,
    }
}

pub fn with_pairs(pairs: Pairs) -> Journal
    ensures { result ≡ laid (pairing pairs) }
{
    Journal {
        turn: Turn::Voters,
        pairs,
        round: round::opened(0, round::nobody(), round::no_blocks(), 0),
    }
}

fn with_blocks(voters: VoterSet, table: BlockTable) -> Journal
    ensures { result ≡ laid (growing voters table) }
{
    Journal {
        turn: Turn::Blocks,
        pairs: no_pairs(),
        round: round::opened(0, voters, table, 0),
    }
}

// Records and bytes before a run are added to its own.
fn later(count: u64, at: usize, progress: Progress) -> Progress
    requires { (count + progress.count ≤ most) × (at + progress.at ≤ most) }
    ensures { result ≡ record { journal = progress.journal; count = count + progress.count; at = at + progress.at; end = progress.end } }
{
    Progress {
        journal: progress.journal,
        count: count + progress.count,
        at: at + progress.at,
        end: progress.end,
    }
}

// The third turn.
fn from_votes(round: Round, bytes: &[u8]) -> Progress
    requires { Kept (frame round) (held round) }
    ensures { (run_of result bytes.now ≡ run_from (voting (record { frame = frame round; held = held round })) bytes.now) × Within result bytes.now }
{
    let voters = round.context.voters;
    let graph = round.graph;
    let mut ids = round.table.ids;
    let mut numbers = round.table.numbers;
    let mut parents = round.table.parents;
    let mut used = graph.used;
    let mut above = graph.above;
    let mut rows = graph_rows::words_of(graph.rows);
    let mut order = graph.order;
    let mut heads = graph.heads;
    let mut counts = round.votes.counts;
    let mut first_block = round.votes.first_block;
    let mut first_signature = round.votes.first_signature;
    let mut second_target = round.votes.second_target;
    let mut second_number = round.votes.second_number;
    let mut second_signature = round.votes.second_signature;
    let mut entries = round.history.entries;
    let equivocations = round.context.equivocations;
    let heard = round.heard;
    let answers = round.answers;
    let standing = Standing {
        listed: graph.listed,
        tips: graph.tips,
        count: round.history.count,
        equivocations,
        heard,
        answers,
    };
    let ran = voting::run(
        &voters.ids,
        &voters.weights,
        voters.count,
        voters.total,
        voters.threshold,
        round.number,
        &mut ids,
        &mut numbers,
        &mut parents,
        round.table.count,
        graph.base,
        &mut used,
        &mut above,
        &mut rows,
        &mut order,
        &mut heads,
        &mut counts,
        &mut first_block,
        &mut first_signature,
        &mut second_target,
        &mut second_number,
        &mut second_signature,
        &mut entries,
        standing,
        bytes,
    );
    let after = ran.standing;
    let rows_after = graph_rows::rows_of(&rows);
    let equivocations_after = after.equivocations;
    let heard_after = after.heard;
    let answers_after = after.answers;
    let round = Round {
        number: round.number,
        context: Context {
            voters,
            equivocations: equivocations_after,
        },
        table: BlockTable {
            ids,
            numbers,
            parents,
            count: ran.blocks,
        },
        graph: VoteGraph {
            base: graph.base,
            used,
            above,
            rows: rows_after,
            order,
            listed: after.listed,
            heads,
            tips: after.tips,
        },
        votes: Votes {
            counts,
            first_block,
            first_signature,
            second_target,
            second_number,
            second_signature,
        },
        history: History {
            entries,
            count: after.count,
            prevoted: None,
            precommitted: None,
        },
        heard: heard_after,
        answers: answers_after,
    };
    Progress {
        journal: Journal {
            turn: Turn::Votes,
            pairs: no_pairs(),
            round,
        },
        count: ran.count,
        at: ran.at,
        end: ran.end,
    }
}

// The Op, and what follows it.
fn open(voters: VoterSet, table: BlockTable, part: &[u8]) -> Progress
    requires { Stands Kept (growing voters table) × (read part.now ≡ Whole Op) }
    ensures { (run_of result part.now ≡ run_from (growing voters table) part.now) × Within result part.now }
{
    let fields = marks::fields(part, Mark::Op);
    let number = marks::long(fields, 0);
    let base = marks::word(fields, 8);
    let Some(place) = blocks::find(&table.ids, table.count, base) else {
        return Progress {
            journal: with_blocks(voters, table),
            count: 0,
            at: 0,
            end: End::Refused(Refusal::UnknownBase),
        };
    };
    let opened = round::opened(number, voters, table, place);
    later(1, 14, from_votes(opened, &part[14..]))
}

// The second turn, and the third where an Op is among the bytes.
fn from_blocks(voters: VoterSet, table: BlockTable, bytes: &[u8]) -> Progress
    requires { Stands Kept (growing voters table) }
    ensures { (run_of result bytes.now ≡ run_from (growing voters table) bytes.now) × Within result bytes.now }
{
    let mut ids = table.ids;
    let mut numbers = table.numbers;
    let mut parents = table.parents;
    let ran = growing::run(&mut ids, &mut numbers, &mut parents, table.count, bytes);
    let grown = BlockTable {
        ids,
        numbers,
        parents,
        count: ran.blocks,
    };
    match ran.end {
        End::Left => later(ran.count, ran.at, open(voters, grown, &bytes[ran.at..])),
        end => Progress {
            journal: with_blocks(voters, grown),
            count: ran.count,
            at: ran.at,
            end,
        },
    }
}

// The voter set of the pairs so far.
fn make(ids: [u32; PAIRS], weights: [u64; PAIRS], count: usize) -> Result<VoterSet, Refusal>
    requires { count ≤ PAIRS }
    ensures { result ≡ new (take count ids) (take count weights) }
{
    VoterSet::new(&ids[..count], &weights[..count])
}

// The Rt, and what follows it.
fn root(pairs: Pairs, part: &[u8]) -> Progress
    requires { (pairs.count ≤ PAIRS) × (read part.now ≡ Whole Rt) }
    ensures { (run_of result part.now ≡ run_from (pairing pairs) part.now) × Within result part.now }
{
    let fields = marks::fields(part, Mark::Rt);
    match make(pairs.ids, pairs.weights, pairs.count) {
        Err(refusal) => Progress {
            journal: with_pairs(pairs),
            count: 0,
            at: 0,
            end: End::Refused(refusal),
        },
        Ok(voters) => {
            let table = block_table::new(marks::word(fields, 0), marks::word(fields, 4));
            later(1, 10, from_blocks(voters, table, &part[10..]))
        }
    }
}

// The first turn, and those after it.
pub fn from_voters(pairs: Pairs, bytes: &[u8]) -> Progress
    requires { pairs.count ≤ PAIRS }
    ensures { (run_of result bytes.now ≡ run_from (pairing pairs) bytes.now) × Within result bytes.now }
{
    let mut ids = pairs.ids;
    let mut weights = pairs.weights;
    let ran = pairing::run(&mut ids, &mut weights, pairs.count, bytes);
    let paired = Pairs {
        ids,
        weights,
        count: ran.pairs,
    };
    match ran.end {
        End::Left => later(ran.count, ran.at, root(paired, &bytes[ran.at..])),
        end => Progress {
            journal: with_pairs(paired),
            count: ran.count,
            at: ran.at,
            end,
        },
    }
}

fn has_no_index(history: History) -> bool
    ensures { result ≡ unset history.prevoted && unset history.precommitted }
{
    history.prevoted.is_none() && history.precommitted.is_none()
}

impl Journal {
    // Whether a state that is handed in can go on.
    pub fn is_journal(self) -> bool
        ensures { result ≡ stands self }
    {
        let round = self.round;
        match self.turn {
            Turn::Voters => self.pairs.count <= PAIRS,
            Turn::Blocks => round.context.voters.is_good() && block_table::is_table(round.table),
            Turn::Votes => round.is_round() && has_no_index(round.history),
        }
    }

    // A run over some bytes, by the turn.
    pub fn run(self, bytes: &[u8]) -> Progress
        requires { Stands Kept (told self) }
        ensures { (run_of result bytes.now ≡ run_from (told self) bytes.now) × Within result bytes.now }
    {
        match self.turn {
            Turn::Voters => from_voters(self.pairs, bytes),
            Turn::Blocks => from_blocks(self.round.context.voters, self.round.table, bytes),
            Turn::Votes => from_votes(self.round, bytes),
        }
    }
}
