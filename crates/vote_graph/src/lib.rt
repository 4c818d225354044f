// The vote graph by value: vote_graph.rs without `adjust_base`. Each call tests what it is handed and then runs the inner
// one on lent columns.
#![tactic(auto)]

ghost use Rattle.std.specs.Prelude.{◌≡◌};
ghost use Rattle.vote_insert.specs.Insert.{opened};
ghost use Rattle.vote_graph.specs.Shape.{graph_of, is_graph, Standing};
ghost use Rattle.vote_graph.specs.Calls.{voted, insert, tally_of, cumulative_vote, ancestor_of, find_ancestor, ghost_of, find_ghost};

use blocks::BlockTable;
use graph_rows::Row;
use nodes::Asks;
use refusals::Refusal;
use sizes::{BLOCKS, WORDS};

// Where a block stands that a call names, or why it is refused.
pub mod named;

// One place a block of the table. Which have a vote-node, the node above each, and its bits; all nodes but the base in the
// order in which they were listed; the nodes that list none, by rising id. The fields are public, so that the columns can
// be lent: a graph of anyone's making can be handed in, and `is_graph` tells it from one that was built by calls.
// A count stands beside the columns, since a stored graph of anyone's making is taken as it stands, in fixed memory.
#[derive(Clone, Copy)]
pub struct VoteGraph {
    pub base: u8,
    pub used: [bool; BLOCKS],
    pub above: [u8; BLOCKS],
    pub rows: [Row; BLOCKS],
    pub order: [u8; BLOCKS],
    pub listed: usize,
    pub heads: [u8; BLOCKS],
    pub tips: usize,
}

// The answer, and the graph after the call: a `Result` alone would lose the graph.
#[derive(Clone, Copy)]
pub struct Inserted {
    pub answer: Result<u8, Refusal>,
    pub graph: VoteGraph,
}

impl VoteGraph {
    // The base alone.
    pub fn new(base: u8) -> VoteGraph
        ensures { result ≡ graph_of base (opened base) }
    {
        let mut used = [false; BLOCKS];
        let none = Row {
            bits: [0u64; WORDS],
        };
        let rows = [none; BLOCKS];
        let mut heads = [0u8; BLOCKS];
        let at = climbs::wide(base);
        used[at] = true;
        heads[0] = base;
        VoteGraph {
            base,
            used,
            above: [0u8; BLOCKS],
            rows,
            order: [0u8; BLOCKS],
            listed: 0,
            heads,
            tips: 1,
        }
    }

    pub fn base(self) -> u8
        ensures { result ≡ self.base }
    {
        let base = self.base;
        base
    }

    // Whether the table keeps its shape rules, and the graph its own on that table.
    pub fn is_graph(self, table: BlockTable) -> bool
        ensures { result ≡ is_graph self table }
    {
        if !block_table::is_table(table) {
            return false;
        }
        let rows = self.rows;
        let words = graph_rows::words_of(rows);
        graph_shape::is_graph(
            &table.parents,
            &table.ids,
            table.count,
            self.base,
            &self.used,
            &self.above,
            &words,
            &self.order,
            self.listed,
            &self.heads,
            self.tips,
        )
    }

    // A vote for a block, as the bit of its voter and phase.
    pub fn insert(self, table: BlockTable, block: u32, bit: usize) -> Inserted
        ensures { result ≡ insert self table block bit }
    {
        if !self.is_graph(table) {
            return Inserted {
                answer: Err(Refusal::Misshapen),
                graph: self,
            };
        }
        match named::of(&table.ids, &table.parents, table.count, self.base, block) {
            Err(refusal) => Inserted {
                answer: Err(refusal),
                graph: self,
            },
            Ok(place) => {
                let graph = self.voted(table, place, bit);
                Inserted {
                    answer: Ok(place),
                    graph,
                }
            }
        }
    }

    // The graph with the bit, on a table on which it keeps its shape.
    fn voted(mut self, table: BlockTable, place: u8, bit: usize) -> VoteGraph
        requires { Standing self table place }
        ensures { result ≡ voted self table place bit }
    {
        let parents = table.parents;
        let ids = table.ids;
        let mut used = self.used;
        let mut above = self.above;
        let rows = self.rows;
        let mut words = graph_rows::words_of(rows);
        let mut order = self.order;
        let mut heads = self.heads;
        let counts = vote_insert::insert(
            &parents,
            &ids,
            &mut used,
            &mut above,
            &mut words,
            &mut order,
            &mut heads,
            self.listed,
            self.tips,
            self.base,
            place,
            bit,
        );
        let next = graph_rows::rows_of(&words);
        self.used = used;
        self.above = above;
        self.rows = next;
        self.order = order;
        self.listed = counts.listed;
        self.heads = heads;
        self.tips = counts.tips;
        self
    }

    // Who voted at or below a block.
    pub fn cumulative_vote(
        self,
        table: BlockTable,
        block: u32,
    ) -> Result<Option<[u64; WORDS]>, Refusal>
        ensures { result ≡ cumulative_vote self table block }
    {
        if !self.is_graph(table) {
            return Err(Refusal::Misshapen);
        }
        let Some(place) = blocks::find(&table.ids, table.count, block) else {
            return Err(Refusal::UnknownTarget);
        };
        if !climbs::reaches(&table.parents, self.base, place) {
            return Ok(None);
        }
        Ok(self.tally(table, place))
    }

    fn tally(self, table: BlockTable, place: u8) -> Option<[u64; WORDS]>
        requires { Standing self table place }
        ensures { result ≡ tally_of self table place }
    {
        let rows = self.rows;
        let words = graph_rows::words_of(rows);
        vote_search::cumulative_vote(
            &table.parents,
            &self.used,
            &self.above,
            &words,
            &self.heads,
            self.tips,
            place,
        )
    }

    // The first block from a block towards the base whose bits answer a question with yes.
    pub fn find_ancestor<Q: Asks>(
        self,
        table: BlockTable,
        question: &Q,
        block: u32,
    ) -> Result<Option<u8>, Refusal>
        ensures { result ≡ find_ancestor self table (Q.asks question.now) block }
    {
        if !self.is_graph(table) {
            return Err(Refusal::Misshapen);
        }
        let place = named::of(&table.ids, &table.parents, table.count, self.base, block)?;
        Ok(self.ancestor(table, question, place))
    }

    fn ancestor<Q: Asks>(self, table: BlockTable, question: &Q, place: u8) -> Option<u8>
        requires { Standing self table place }
        ensures { result ≡ ancestor_of self table (Q.asks question.now) place }
    {
        let rows = self.rows;
        let words = graph_rows::words_of(rows);
        vote_search::find_ancestor(
            &table.parents,
            &self.used,
            &self.above,
            &words,
            &self.heads,
            self.tips,
            self.base,
            question,
            place,
        )
    }

    // From a block down the nodes that answer a question with yes, and then to the merge point; from the base, where no
    // block is named.
    pub fn find_ghost<Q: Asks>(
        self,
        table: BlockTable,
        question: &Q,
        start: Option<u8>,
    ) -> Result<Option<u8>, Refusal>
        ensures { result ≡ find_ghost self table (Q.asks question.now) start }
    {
        if !self.is_graph(table) {
            return Err(Refusal::Misshapen);
        }
        let place = named::start(&table.parents, table.count, self.base, start)?;
        Ok(self.heaviest(table, question, place))
    }

    fn heaviest<Q: Asks>(self, table: BlockTable, question: &Q, place: u8) -> Option<u8>
        requires { Standing self table place }
        ensures { result ≡ ghost_of self table (Q.asks question.now) place }
    {
        let rows = self.rows;
        let words = graph_rows::words_of(rows);
        vote_search::find_ghost(
            &table.parents,
            &self.used,
            &self.above,
            &words,
            &self.order,
            self.listed,
            &self.heads,
            self.tips,
            question,
            place,
        )
    }
}
