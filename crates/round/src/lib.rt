// A round by value: round.rs of finality-grandpa, with its votes, equivocations and `HistoricalVotes` of lib.rs. Each call first tests
// the round that it is handed (9), also where it only reads; what it does then is done by calls on lent columns in the crates below.
#![tactic(auto)]

ghost use Rattle.std.specs.Prelude.{◌≡◌, T, length, ◌≤◌};
ghost use Rattle.sizes.specs.Sizes.{WORDS, HISTORY};
ghost use Rattle.loops.specs.Listing.{front};
ghost use Rattle.entry_lists.specs.Entries.{Fit};
ghost use Rattle.listing.specs.Written.{Lent};
ghost use Rattle.nodes.specs.Nodes.{Falls};
ghost use Rattle.vote_shape.specs.Voted.{voted};
ghost use Rattle.tracker.specs.Votes.{Wide};
ghost use Rattle.context.specs.declared.Phase.TheVariants.{Prevote, Precommit};
ghost use Rattle.round.specs.Shape.{index_fits, shaped};
ghost use Rattle.round.specs.Ask.{records, listed, votes_of, historical_votes, finalizing_precommits, heard_in, prevote_participation, precommit_participation, primary_voter, state, voters, tested, number, threshold, prevoted_index, precommitted_index, completable, estimate, finalized, base};
ghost use Rattle.round.specs.Calls.{opened, nobody, no_blocks, new, add_block, imported, import_vote, sought, with_sought, precommit_ghost, marked, set_index, block_of};

use answers::{Answers, Heard};
use blocks::BlockTable;
use context::{Context, Phase};
use importing::Standing;
use judging::ImportResult;
use listing::Wanted;
use refusals::Refusal;
use sizes::{BLOCKS, HISTORY, VOTERS, WORDS};
use tracker::{Pair, Votes};
use vote_graph::VoteGraph;
use voter_info::VoterInfo;
use voter_set::VoterSet;

// `HistoricalVotes`: recorded votes in arrival order, as entries; a part of a stored round, in fixed memory.
#[derive(Clone, Copy)]
pub struct History {
    pub entries: [u16; HISTORY],
    pub count: usize,
    pub prevoted: Option<u64>,
    pub precommitted: Option<u64>,
}

// The fields are public, so that a state can be stored and handed in again: `is_round` tells a state that keeps the shape rules.
#[derive(Clone, Copy)]
pub struct Round {
    pub number: u64,
    pub context: Context,
    pub table: BlockTable,
    pub graph: VoteGraph,
    pub votes: Votes,
    pub history: History,
    pub heard: Heard,
    pub answers: Answers,
}

// An answer, and the round after the call: a `Result` alone would lose the round.
#[derive(Clone, Copy)]
pub struct After<A> {
    pub answer: A,
    pub round: Round,
}

// `State` of round.rs.
#[derive(Clone, Copy)]
pub struct State {
    pub prevote: Option<(u32, u32)>,
    pub finalized: Option<(u32, u32)>,
    pub estimate: Option<(u32, u32)>,
    pub completable: bool,
}

pub fn opened(number: u64, voters: VoterSet, table: BlockTable, base: u8) -> Round
    ensures { result ≡ opened number voters table base }
{
    Round {
        number,
        context: Context {
            voters,
            equivocations: [0u64; WORDS],
        },
        table,
        graph: VoteGraph::new(base),
        votes: tracker::no_votes(),
        history: History {
            entries: [0u16; HISTORY],
            count: 0,
            prevoted: None,
            precommitted: None,
        },
        heard: answers::no_heard(),
        answers: answers::no_answers(),
    }
}

pub fn nobody() -> VoterSet
    ensures { result ≡ nobody }
{
    VoterSet {
        ids: [0u32; VOTERS],
        weights: [0u64; VOTERS],
        count: 0,
        threshold: 0,
        total: 0,
    }
}

pub fn no_blocks() -> BlockTable
    ensures { result ≡ no_blocks }
{
    BlockTable {
        ids: [0u32; BLOCKS],
        numbers: [0u32; BLOCKS],
        parents: [0u8; BLOCKS],
        count: 0,
    }
}

// Whether nodes, equivocators and history tell the recorded votes. The arrays' lengths are known of a parameter.
fn are_told<'a>(
    size: usize,
    parents: &'a [u8; BLOCKS],
    base: u8,
    used: &'a [bool; BLOCKS],
    words: &'a [[u64; WORDS]; BLOCKS],
    votes: Votes,
    equivocations: [u64; WORDS],
    history: History,
) -> bool
    requires { Falls parents.now }
    ensures { (result ≡ voted size parents.now base used.now words.now votes equivocations history.entries history.count) × (Wide votes) × (length history.entries ≡ HISTORY) × (length equivocations ≡ WORDS) }
{
    vote_shape::is_voted(
        size,
        parents,
        base,
        used,
        words,
        &votes.counts,
        &votes.first_block,
        &votes.first_signature,
        &votes.second_target,
        &votes.second_number,
        &votes.second_signature,
        equivocations,
        &history.entries,
        history.count,
    )
}

fn index_fits(index: Option<u64>) -> bool
    ensures { result ≡ index_fits index }
{
    match index {
        Some(seen) => seen <= HISTORY as u64,
        None => true,
    }
}

pub fn block_of<'a>(
    ids: &'a [u32; BLOCKS],
    numbers: &'a [u32; BLOCKS],
    found: Option<u8>,
) -> Option<(u32, u32)>
    ensures { result ≡ block_of ids.now numbers.now found }
{
    match found {
        Some(block) => {
            let at = climbs::wide(block);
            Some((ids[at], numbers[at]))
        }
        None => None,
    }
}

// Voters heard in a phase: those of the base's row, under which every vote is.
pub fn heard_in(graph: VoteGraph, phase: Phase) -> u32
    ensures { result ≡ heard_in graph phase }
{
    context::weighing::heard(graph.rows[climbs::wide(graph.base)].bits, phase)
}

// Records of recorded votes from the start of what is lent: those of a list of entries.
fn records(
    entries: [u16; HISTORY],
    count: usize,
    voters: VoterSet,
    table: BlockTable,
    votes: Votes,
    out: &mut [u8],
) -> Result<usize, Refusal>
    requires { (count ≤ HISTORY) × Fit entries count }
    ensures { ◌≡◌ {A = Lent} (record { answer = result; bytes = out.new }) (records (front count entries) voters table votes out.old) }
{
    listing::write(
        &entries,
        count,
        &votes.counts,
        &votes.first_block,
        &votes.first_signature,
        &votes.second_target,
        &votes.second_number,
        &votes.second_signature,
        &voters.ids,
        &table.ids,
        &table.numbers,
        out,
    )
}

fn marked(mut history: History, phase: Phase) -> History
    ensures { result ≡ marked phase history }
{
    let seen = Some(history.count as u64);
    match phase {
        Phase::Prevote => history.prevoted = seen,
        Phase::Precommit => history.precommitted = seen,
    }
    history
}

impl Round {
    // A round on a base with no votes. Beside a refusal stands a round without blocks, which every call refuses.
    pub fn new(
        number: u64,
        voters: VoterSet,
        table: BlockTable,
        base: u32,
    ) -> After<Result<(), Refusal>>
        ensures { result ≡ new number voters table base }
    {
        if !voters.is_good() {
            return After {
                answer: Err(Refusal::Misshapen),
                round: opened(0, nobody(), no_blocks(), 0),
            };
        }
        if !block_table::is_table(table) {
            return After {
                answer: Err(Refusal::Misshapen),
                round: opened(0, nobody(), no_blocks(), 0),
            };
        }
        let Some(place) = blocks::find(&table.ids, table.count, base) else {
            return After {
                answer: Err(Refusal::UnknownBase),
                round: opened(0, nobody(), no_blocks(), 0),
            };
        };
        After {
            answer: Ok(()),
            round: opened(number, voters, table, place),
        }
    }

    // Whether the round keeps the shape rules.
    pub fn is_round(self) -> bool
        ensures { result ≡ shaped self }
    {
        if !self.graph.is_graph(self.table) {
            return false;
        }
        if !self.context.voters.is_good() {
            return false;
        }
        let words = graph_rows::words_of(self.graph.rows);
        if !are_told(
            self.context.voters.count,
            &self.table.parents,
            self.graph.base,
            &self.graph.used,
            &words,
            self.votes,
            self.context.equivocations,
            self.history,
        ) {
            return false;
        }
        let root = words[climbs::wide(self.graph.base)];
        if !answer_shape::is_weighed(&self.context.voters.weights, root, self.heard) {
            return false;
        }
        if !answer_shape::are_stored(
            &self.table.parents,
            self.table.count,
            self.graph.base,
            self.answers,
        ) {
            return false;
        }
        if !index_fits(self.history.prevoted) {
            return false;
        }
        index_fits(self.history.precommitted)
    }

    // One more block.
    pub fn add_block(mut self, id: u32, parent: u32) -> After<Result<u8, Refusal>>
        ensures { result ≡ add_block id parent self }
    {
        if !self.is_round() {
            return After {
                answer: Err(Refusal::Misshapen),
                round: self,
            };
        }
        let count = self.table.count;
        let answer = blocks::add(
            &mut self.table.ids,
            &mut self.table.numbers,
            &mut self.table.parents,
            count,
            id,
            parent,
        );
        self.table.count = blocks::counted(count, answer);
        After {
            answer,
            round: self,
        }
    }

    // A vote in a phase, on a round that keeps the shape rules.
    fn import(
        mut self,
        phase: Phase,
        signer: u32,
        pair: Pair,
    ) -> After<Result<ImportResult, Refusal>>
        requires { T (shaped self) }
        ensures { result ≡ imported phase signer pair self }
    {
        let voters = self.context.voters;
        let table = self.table;
        let number = self.number;
        let base = self.graph.base;
        let equivocations = self.context.equivocations;
        let mut words = graph_rows::words_of(self.graph.rows);
        let standing = Standing {
            listed: self.graph.listed,
            tips: self.graph.tips,
            count: self.history.count,
            equivocations,
            heard: self.heard,
            answers: self.answers,
        };
        let step = importing::import(
            &voters.ids,
            &voters.weights,
            voters.count,
            voters.total,
            voters.threshold,
            number,
            &table.ids,
            &table.numbers,
            &table.parents,
            table.count,
            base,
            &mut self.graph.used,
            &mut self.graph.above,
            &mut words,
            &mut self.graph.order,
            &mut self.graph.heads,
            &mut self.votes.counts,
            &mut self.votes.first_block,
            &mut self.votes.first_signature,
            &mut self.votes.second_target,
            &mut self.votes.second_number,
            &mut self.votes.second_signature,
            &mut self.history.entries,
            standing,
            phase,
            signer,
            pair,
        );
        let rows = graph_rows::rows_of(&words);
        self.graph.rows = rows;
        self.graph.listed = step.standing.listed;
        self.graph.tips = step.standing.tips;
        self.history.count = step.standing.count;
        let equivocators = step.standing.equivocations;
        self.context.equivocations = equivocators;
        self.heard = step.standing.heard;
        self.answers = step.standing.answers;
        After {
            answer: step.answer,
            round: self,
        }
    }

    fn import_vote(
        self,
        phase: Phase,
        signer: u32,
        pair: Pair,
    ) -> After<Result<ImportResult, Refusal>>
        ensures { result ≡ import_vote phase signer pair self }
    {
        if !self.is_round() {
            return After {
                answer: Err(Refusal::Misshapen),
                round: self,
            };
        }
        self.import(phase, signer, pair)
    }

    pub fn import_prevote(self, signer: u32, pair: Pair) -> After<Result<ImportResult, Refusal>>
        ensures { result ≡ import_vote Prevote signer pair self }
    {
        self.import_vote(Phase::Prevote, signer, pair)
    }

    pub fn import_precommit(self, signer: u32, pair: Pair) -> After<Result<ImportResult, Refusal>>
        ensures { result ≡ import_vote Precommit signer pair self }
    {
        self.import_vote(Phase::Precommit, signer, pair)
    }

    // The precommit-GHOST, from the stored one, on a round that keeps the shape rules.
    fn sought(self) -> Option<u8>
        requires { T (shaped self) }
        ensures { result ≡ sought self }
    {
        let words = graph_rows::words_of(self.graph.rows);
        answers::phase_ghost(
            &self.table.parents,
            &self.graph.used,
            &self.graph.above,
            &words,
            &self.graph.order,
            self.graph.listed,
            &self.graph.heads,
            self.graph.tips,
            &self.context.voters.weights,
            self.graph.base,
            self.context.voters.threshold,
            self.context.equivocations,
            Phase::Precommit,
            self.heard.precommit,
            self.answers.precommit,
        )
    }

    // Works the precommit-GHOST out again and stores it.
    pub fn precommit_ghost(mut self) -> After<Result<Option<(u32, u32)>, Refusal>>
        ensures { result ≡ precommit_ghost self }
    {
        if !self.is_round() {
            return After {
                answer: Err(Refusal::Misshapen),
                round: self,
            };
        }
        let found = self.sought();
        self.answers.precommit = found;
        After {
            answer: Ok(block_of(&self.table.ids, &self.table.numbers, found)),
            round: self,
        }
    }

    // This desk has voted in a phase: the votes seen so far.
    fn set_index(mut self, phase: Phase) -> After<Result<(), Refusal>>
        ensures { result ≡ set_index phase self }
    {
        if !self.is_round() {
            return After {
                answer: Err(Refusal::Misshapen),
                round: self,
            };
        }
        self.history = marked(self.history, phase);
        After {
            answer: Ok(()),
            round: self,
        }
    }

    pub fn set_prevoted_index(self) -> After<Result<(), Refusal>>
        ensures { result ≡ set_index Prevote self }
    {
        self.set_index(Phase::Prevote)
    }

    pub fn set_precommitted_index(self) -> After<Result<(), Refusal>>
        ensures { result ≡ set_index Precommit self }
    {
        self.set_index(Phase::Precommit)
    }

    // Refusal 9, where the round breaks a shape rule.
    fn tested(&self) -> Result<(), Refusal>
        ensures { result ≡ tested self.now }
    {
        if !self.is_round() {
            return Err(Refusal::Misshapen);
        }
        Ok(())
    }

    // The calls from here on only read.
    pub fn number(self) -> Result<u64, Refusal>
        ensures { result ≡ number self }
    {
        self.tested()?;
        Ok(self.number)
    }

    pub fn threshold(self) -> Result<u64, Refusal>
        ensures { result ≡ threshold self }
    {
        self.tested()?;
        Ok(self.context.voters.threshold)
    }

    pub fn prevoted_index(self) -> Result<Option<u64>, Refusal>
        ensures { result ≡ prevoted_index self }
    {
        self.tested()?;
        Ok(self.history.prevoted)
    }

    pub fn precommitted_index(self) -> Result<Option<u64>, Refusal>
        ensures { result ≡ precommitted_index self }
    {
        self.tested()?;
        Ok(self.history.precommitted)
    }

    pub fn completable(self) -> Result<bool, Refusal>
        ensures { result ≡ completable self }
    {
        self.tested()?;
        Ok(self.answers.completable)
    }

    pub fn estimate(self) -> Result<Option<(u32, u32)>, Refusal>
        ensures { result ≡ estimate self }
    {
        self.tested()?;
        Ok(block_of(&self.table.ids, &self.table.numbers, self.answers.estimate))
    }

    pub fn finalized(self) -> Result<Option<(u32, u32)>, Refusal>
        ensures { result ≡ finalized self }
    {
        self.tested()?;
        Ok(block_of(&self.table.ids, &self.table.numbers, self.answers.finalized))
    }

    pub fn base(self) -> Result<Option<(u32, u32)>, Refusal>
        ensures { result ≡ base self }
    {
        self.tested()?;
        Ok(block_of(&self.table.ids, &self.table.numbers, Some(self.graph.base)))
    }

    pub fn prevote_participation(self) -> Result<(u64, u32), Refusal>
        ensures { result ≡ prevote_participation self }
    {
        self.tested()?;
        Ok((self.heard.prevote, heard_in(self.graph, Phase::Prevote)))
    }

    pub fn precommit_participation(self) -> Result<(u64, u32), Refusal>
        ensures { result ≡ precommit_participation self }
    {
        self.tested()?;
        Ok((self.heard.precommit, heard_in(self.graph, Phase::Precommit)))
    }

    pub fn primary_voter(self) -> Result<Option<(u32, VoterInfo)>, Refusal>
        ensures { result ≡ primary_voter self }
    {
        self.tested()?;
        Ok(self.context.voters.nth_mod(self.number as usize))
    }

    pub fn state(self) -> Result<State, Refusal>
        ensures { result ≡ state self }
    {
        self.tested()?;
        let ids = &self.table.ids;
        let numbers = &self.table.numbers;
        Ok(State {
            prevote: block_of(ids, numbers, self.answers.prevote),
            finalized: block_of(ids, numbers, self.answers.finalized),
            estimate: block_of(ids, numbers, self.answers.estimate),
            completable: self.answers.completable,
        })
    }

    pub fn voters(self) -> Result<VoterSet, Refusal>
        ensures { result ≡ voters self }
    {
        self.tested()?;
        Ok(self.context.voters)
    }

    // The wanted votes of a round that keeps the shape rules, by rising voter.
    fn listed(self, wanted: Wanted, out: &mut [u8]) -> Result<usize, Refusal>
        requires { T (shaped self) }
        ensures { ◌≡◌ {A = Lent} (record { answer = result; bytes = out.new }) (listed wanted self out.old) }
    {
        let list = listing::entries_of(
            &self.votes.counts,
            &self.votes.first_block,
            &self.table.parents,
            self.context.voters.count,
            wanted,
        );
        records(
            list.entries,
            list.count,
            self.context.voters,
            self.table,
            self.votes,
            out,
        )
    }

    pub fn prevotes(self, out: &mut [u8]) -> Result<usize, Refusal>
        ensures { ◌≡◌ {A = Lent} (record { answer = result; bytes = out.new }) (votes_of Prevote self out.old) }
    {
        self.tested()?;
        self.listed(Wanted::Of(Phase::Prevote), out)
    }

    pub fn precommits(self, out: &mut [u8]) -> Result<usize, Refusal>
        ensures { ◌≡◌ {A = Lent} (record { answer = result; bytes = out.new }) (votes_of Precommit self out.old) }
    {
        self.tested()?;
        self.listed(Wanted::Of(Phase::Precommit), out)
    }

    // Every recorded vote in arrival order.
    pub fn historical_votes(self, out: &mut [u8]) -> Result<usize, Refusal>
        ensures { ◌≡◌ {A = Lent} (record { answer = result; bytes = out.new }) (historical_votes self out.old) }
    {
        self.tested()?;
        let history = self.history;
        records(
            history.entries,
            history.count,
            self.context.voters,
            self.table,
            self.votes,
            out,
        )
    }

    // The precommits that finalize the finalized block.
    pub fn finalizing_precommits(self, out: &mut [u8]) -> Result<usize, Refusal>
        ensures { ◌≡◌ {A = Lent} (record { answer = result; bytes = out.new }) (finalizing_precommits self out.old) }
    {
        self.tested()?;
        let Some(block) = self.answers.finalized else {
            return Err(Refusal::NothingFinal);
        };
        self.listed(Wanted::Finalizing(block), out)
    }
}
