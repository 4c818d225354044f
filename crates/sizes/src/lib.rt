// The sizes of a round, each said once. Document 01, "Sizes".
// One word has so many bits.
#![tactic(auto)]

pub const WORD: usize = 64;

// A phase's votes stand in so many words of a set of votes.
pub const PHASE_WORDS: usize = 1;

// A set of votes has so many words: both phases.
pub const WORDS: usize = 2 * PHASE_WORDS;

// Voters of a round, at most.
pub const VOTERS: usize = WORD * PHASE_WORDS;

// Indices of votes: a voter has two, one a phase.
pub const VOTES: usize = 2 * VOTERS;

// Entries of history: a voter has four, two a phase.
pub const HISTORY: usize = 2 * VOTES;

// Pairs of a voter list, at most.
pub const PAIRS: usize = 256;

// Blocks of a table, at most; vote-nodes have one row each.
pub const BLOCKS: usize = 256;
