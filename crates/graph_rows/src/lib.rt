// The bits of the vote-nodes, one row a block place. A struct's field holds rows, which cannot be lent; the inner calls are
// lent words. So the edge copies one into the other.
#![tactic(auto)]

ghost use Rattle.std.specs.Prelude.{◌≡◌, length};
ghost use Rattle.sizes.specs.Sizes.{WORDS, BLOCKS};
ghost use Rattle.graph_rows.specs.Rows.{words_of, rows_of, Paired};

use sizes::{BLOCKS, WORDS};

// A node's bits.
#[derive(Clone, Copy)]
pub struct Row {
    pub bits: [u64; WORDS],
}

// The words of rows.
pub fn words_of(rows: [Row; BLOCKS]) -> [[u64; WORDS]; BLOCKS]
    ensures { (result ≡ words_of rows) × Paired result }
{
    let mut words = [[0u64; WORDS]; BLOCKS];
    for (k, row) in rows.iter().enumerate() {
        words[k] = pair(row.bits);
    }
    words
}

// The same two words. That they are two is known of a parameter, and not of what a loop has read.
fn pair(bits: [u64; WORDS]) -> [u64; WORDS]
    ensures { (result ≡ bits) × (length result ≡ WORDS) }
{
    bits
}

// The rows of words.
pub fn rows_of(words: &[[u64; WORDS]; BLOCKS]) -> [Row; BLOCKS]
    requires { length words.now ≡ BLOCKS }
    ensures { result ≡ rows_of words.now }
{
    let none = Row {
        bits: [0u64; WORDS],
    };
    let mut rows = [none; BLOCKS];
    for (place, bits) in words.iter().enumerate() {
        rows[place] = Row { bits: *bits };
    }
    rows
}
