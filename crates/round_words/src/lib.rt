// A round as one column of words, so that a field is changed, compared or summed by its place there. The fields lie in the order in which
// `Round` declares them. A flag is 0 or 1, no block is 256, no index is the largest word.
//
// This serves the program `damaged`, which is judged by its stored output: the functions are proved safe and ending, and promise no more.
#![tactic(auto)]

use answers::{Answers, Heard};
use blocks::BlockTable;
use context::Context;
use graph_rows::Row;
use round::{History, Round};
use sizes::{BLOCKS, HISTORY, VOTERS, VOTES, WORDS};
use tracker::Votes;
use vote_graph::VoteGraph;
use voter_set::VoterSet;

// Where each field starts.
pub const NUMBER: usize = 0;

pub const VOTER_IDS: usize = 1;

pub const WEIGHTS: usize = VOTER_IDS + VOTERS;

pub const VOTER_COUNT: usize = WEIGHTS + VOTERS;

pub const THRESHOLD: usize = VOTER_COUNT + 1;

pub const TOTAL: usize = THRESHOLD + 1;

pub const EQUIVOCATIONS: usize = TOTAL + 1;

pub const IDS: usize = EQUIVOCATIONS + WORDS;

pub const NUMBERS: usize = IDS + BLOCKS;

pub const PARENTS: usize = NUMBERS + BLOCKS;

pub const BLOCK_COUNT: usize = PARENTS + BLOCKS;

pub const BASE: usize = BLOCK_COUNT + 1;

pub const USED: usize = BASE + 1;

pub const ABOVE: usize = USED + BLOCKS;

pub const ROWS: usize = ABOVE + BLOCKS;

pub const ORDER: usize = ROWS + WORDS * BLOCKS;

pub const LISTED: usize = ORDER + BLOCKS;

pub const HEADS: usize = LISTED + 1;

pub const TIPS: usize = HEADS + BLOCKS;

pub const COUNTS: usize = TIPS + 1;

pub const FIRST_BLOCK: usize = COUNTS + VOTES;

pub const FIRST_SIGNATURE: usize = FIRST_BLOCK + VOTES;

pub const SECOND_TARGET: usize = FIRST_SIGNATURE + VOTES;

pub const SECOND_NUMBER: usize = SECOND_TARGET + VOTES;

pub const SECOND_SIGNATURE: usize = SECOND_NUMBER + VOTES;

pub const ENTRIES: usize = SECOND_SIGNATURE + VOTES;

pub const ENTRY_COUNT: usize = ENTRIES + HISTORY;

pub const PREVOTED: usize = ENTRY_COUNT + 1;

pub const PRECOMMITTED: usize = PREVOTED + 1;

pub const HEARD_PREVOTE: usize = PRECOMMITTED + 1;

pub const HEARD_PRECOMMIT: usize = HEARD_PREVOTE + 1;

pub const PREVOTE: usize = HEARD_PRECOMMIT + 1;

pub const PRECOMMIT: usize = PREVOTE + 1;

pub const FINALIZED: usize = PRECOMMIT + 1;

pub const ESTIMATE: usize = FINALIZED + 1;

pub const COMPLETABLE: usize = ESTIMATE + 1;

pub const SIZE: usize = COMPLETABLE + 1;

// What a word can hold.
trait Held: Copy {
    fn word(self) -> u64;

    // The lowest part of a word that is too large.
    fn of(word: u64) -> Self;
}

impl Held for u8 {
    fn word(self) -> u64 {
        u64::from(self)
    }

    fn of(word: u64) -> u8 {
        (word % 256) as u8
    }
}

impl Held for u16 {
    fn word(self) -> u64 {
        u64::from(self)
    }

    fn of(word: u64) -> u16 {
        (word % 65536) as u16
    }
}

impl Held for u32 {
    fn word(self) -> u64 {
        u64::from(self)
    }

    fn of(word: u64) -> u32 {
        (word % 4294967296) as u32
    }
}

impl Held for u64 {
    fn word(self) -> u64 {
        self
    }

    fn of(word: u64) -> u64 {
        word
    }
}

impl Held for usize {
    fn word(self) -> u64 {
        self as u64
    }

    fn of(word: u64) -> usize {
        word as usize
    }
}

impl Held for bool {
    fn word(self) -> u64 {
        u64::from(self)
    }

    fn of(word: u64) -> bool {
        word == 1
    }
}

// A stored block.
impl Held for Option<u8> {
    fn word(self) -> u64 {
        match self {
            Some(place) => u64::from(place),
            None => 256,
        }
    }

    fn of(word: u64) -> Option<u8> {
        u8::try_from(word).ok()
    }
}

// An index of history.
impl Held for Option<u64> {
    fn word(self) -> u64 {
        self.unwrap_or(u64::MAX)
    }

    fn of(word: u64) -> Option<u64> {
        if word == u64::MAX {
            return None;
        }
        Some(word)
    }
}

pub fn put(flat: &mut [u64; SIZE], at: usize, x: u64) {
    if at < SIZE {
        flat[at] = x;
    }
}

pub fn get(flat: &[u64; SIZE], at: usize) -> u64 {
    if at < SIZE {
        return flat[at];
    }
    0
}

// A place so many after another.
pub fn after(at: usize, k: usize) -> usize {
    at.wrapping_add(k)
}

fn put_one<H: Held>(flat: &mut [u64; SIZE], at: usize, held: H) {
    put(flat, at, held.word());
}

fn put_all<H: Held>(flat: &mut [u64; SIZE], at: usize, column: &[H]) {
    for (word, held) in flat.iter_mut().skip(at).zip(column) {
        *word = held.word();
    }
}

fn put_rows(flat: &mut [u64; SIZE], at: usize, rows: &[Row; BLOCKS]) {
    for k in 0..BLOCKS {
        let row = rows[k];
        put_all(flat, after(at, WORDS * k), &row.bits);
    }
}

fn put_context(flat: &mut [u64; SIZE], context: Context) {
    let voters = context.voters;
    put_all(flat, VOTER_IDS, &voters.ids);
    put_all(flat, WEIGHTS, &voters.weights);
    put_one(flat, VOTER_COUNT, voters.count);
    put_one(flat, THRESHOLD, voters.threshold);
    put_one(flat, TOTAL, voters.total);
    put_all(flat, EQUIVOCATIONS, &context.equivocations);
}

fn put_table(flat: &mut [u64; SIZE], table: BlockTable) {
    put_all(flat, IDS, &table.ids);
    put_all(flat, NUMBERS, &table.numbers);
    put_all(flat, PARENTS, &table.parents);
    put_one(flat, BLOCK_COUNT, table.count);
}

fn put_graph(flat: &mut [u64; SIZE], graph: VoteGraph) {
    put_one(flat, BASE, graph.base);
    put_all(flat, USED, &graph.used);
    put_all(flat, ABOVE, &graph.above);
    put_rows(flat, ROWS, &graph.rows);
    put_all(flat, ORDER, &graph.order);
    put_one(flat, LISTED, graph.listed);
    put_all(flat, HEADS, &graph.heads);
    put_one(flat, TIPS, graph.tips);
}

fn put_votes(flat: &mut [u64; SIZE], votes: Votes) {
    put_all(flat, COUNTS, &votes.counts);
    put_all(flat, FIRST_BLOCK, &votes.first_block);
    put_all(flat, FIRST_SIGNATURE, &votes.first_signature);
    put_all(flat, SECOND_TARGET, &votes.second_target);
    put_all(flat, SECOND_NUMBER, &votes.second_number);
    put_all(flat, SECOND_SIGNATURE, &votes.second_signature);
}

fn put_history(flat: &mut [u64; SIZE], history: History) {
    put_all(flat, ENTRIES, &history.entries);
    put_one(flat, ENTRY_COUNT, history.count);
    put_one(flat, PREVOTED, history.prevoted);
    put_one(flat, PRECOMMITTED, history.precommitted);
}

fn put_answers(flat: &mut [u64; SIZE], answers: Answers) {
    put_one(flat, PREVOTE, answers.prevote);
    put_one(flat, PRECOMMIT, answers.precommit);
    put_one(flat, FINALIZED, answers.finalized);
    put_one(flat, ESTIMATE, answers.estimate);
    put_one(flat, COMPLETABLE, answers.completable);
}

// The words of a round.
pub fn words_of(round: Round) -> [u64; SIZE] {
    let mut flat = [0u64; SIZE];
    put(&mut flat, NUMBER, round.number);
    let context = round.context;
    put_context(&mut flat, context);
    let table = round.table;
    put_table(&mut flat, table);
    let graph = round.graph;
    put_graph(&mut flat, graph);
    let votes = round.votes;
    put_votes(&mut flat, votes);
    let history = round.history;
    put_history(&mut flat, history);
    let heard = round.heard;
    put(&mut flat, HEARD_PREVOTE, heard.prevote);
    put(&mut flat, HEARD_PRECOMMIT, heard.precommit);
    let answers = round.answers;
    put_answers(&mut flat, answers);
    flat
}

fn get_one<H: Held>(flat: &[u64; SIZE], at: usize) -> H {
    H::of(get(flat, at))
}

// The id of the base.
pub fn base_id(flat: &[u64; SIZE]) -> u32 {
    let base: u8 = get_one(flat, BASE);
    get_one(flat, after(IDS, usize::from(base)))
}

fn get_all<H: Held>(flat: &[u64; SIZE], at: usize, column: &mut [H]) {
    for (held, word) in column.iter_mut().zip(flat.iter().skip(at)) {
        *held = H::of(*word);
    }
}

fn get_rows(flat: &[u64; SIZE], at: usize) -> [Row; BLOCKS] {
    let none = Row {
        bits: [0u64; WORDS],
    };
    let mut rows = [none; BLOCKS];
    for k in 0..BLOCKS {
        let mut bits = [0u64; WORDS];
        get_all(flat, after(at, WORDS * k), &mut bits);
        rows[k] = Row { bits };
    }
    rows
}

fn get_context(flat: &[u64; SIZE]) -> Context {
    let mut ids = [0u32; VOTERS];
    get_all(flat, VOTER_IDS, &mut ids);
    let mut weights = [0u64; VOTERS];
    get_all(flat, WEIGHTS, &mut weights);
    let voters = VoterSet {
        ids,
        weights,
        count: get_one(flat, VOTER_COUNT),
        threshold: get(flat, THRESHOLD),
        total: get(flat, TOTAL),
    };
    let mut equivocations = [0u64; WORDS];
    get_all(flat, EQUIVOCATIONS, &mut equivocations);
    Context {
        voters,
        equivocations,
    }
}

fn get_table(flat: &[u64; SIZE]) -> BlockTable {
    let mut ids = [0u32; BLOCKS];
    get_all(flat, IDS, &mut ids);
    let mut numbers = [0u32; BLOCKS];
    get_all(flat, NUMBERS, &mut numbers);
    let mut parents = [0u8; BLOCKS];
    get_all(flat, PARENTS, &mut parents);
    BlockTable {
        ids,
        numbers,
        parents,
        count: get_one(flat, BLOCK_COUNT),
    }
}

fn get_graph(flat: &[u64; SIZE]) -> VoteGraph {
    let mut used = [false; BLOCKS];
    get_all(flat, USED, &mut used);
    let mut above = [0u8; BLOCKS];
    get_all(flat, ABOVE, &mut above);
    let rows = get_rows(flat, ROWS);
    let mut order = [0u8; BLOCKS];
    get_all(flat, ORDER, &mut order);
    let mut heads = [0u8; BLOCKS];
    get_all(flat, HEADS, &mut heads);
    VoteGraph {
        base: get_one(flat, BASE),
        used,
        above,
        rows,
        order,
        listed: get_one(flat, LISTED),
        heads,
        tips: get_one(flat, TIPS),
    }
}

fn get_votes(flat: &[u64; SIZE]) -> Votes {
    let mut counts = [0u8; VOTES];
    get_all(flat, COUNTS, &mut counts);
    let mut first_block = [0u8; VOTES];
    get_all(flat, FIRST_BLOCK, &mut first_block);
    let mut first_signature = [0u64; VOTES];
    get_all(flat, FIRST_SIGNATURE, &mut first_signature);
    let mut second_target = [0u32; VOTES];
    get_all(flat, SECOND_TARGET, &mut second_target);
    let mut second_number = [0u32; VOTES];
    get_all(flat, SECOND_NUMBER, &mut second_number);
    let mut second_signature = [0u64; VOTES];
    get_all(flat, SECOND_SIGNATURE, &mut second_signature);
    Votes {
        counts,
        first_block,
        first_signature,
        second_target,
        second_number,
        second_signature,
    }
}

fn get_history(flat: &[u64; SIZE]) -> History {
    let mut entries = [0u16; HISTORY];
    get_all(flat, ENTRIES, &mut entries);
    History {
        entries,
        count: get_one(flat, ENTRY_COUNT),
        prevoted: get_one(flat, PREVOTED),
        precommitted: get_one(flat, PRECOMMITTED),
    }
}

fn get_answers(flat: &[u64; SIZE]) -> Answers {
    Answers {
        prevote: get_one(flat, PREVOTE),
        precommit: get_one(flat, PRECOMMIT),
        finalized: get_one(flat, FINALIZED),
        estimate: get_one(flat, ESTIMATE),
        completable: get_one(flat, COMPLETABLE),
    }
}

// The round of words.
pub fn round_of(flat: &[u64; SIZE]) -> Round {
    let context = get_context(flat);
    let table = get_table(flat);
    let graph = get_graph(flat);
    let votes = get_votes(flat);
    let history = get_history(flat);
    let heard = Heard {
        prevote: get(flat, HEARD_PREVOTE),
        precommit: get(flat, HEARD_PRECOMMIT),
    };
    let answers = get_answers(flat);
    Round {
        number: get(flat, NUMBER),
        context,
        table,
        graph,
        votes,
        history,
        heard,
        answers,
    }
}

// 2^32 - 5, a prime: a product with 257 fits a word.
fn mixed(sum: u64, x: u64) -> u64 {
    (sum % 4294967291 * 257 + x % 4294967291) % 4294967291
}

// One number of all words, to tell that another program speaks of the same round.
pub fn digest(flat: &[u64; SIZE]) -> u64 {
    flat.iter().fold(0, |sum, word| mixed(sum, *word))
}
