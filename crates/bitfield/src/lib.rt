// Sets of bits by value: bitfield.rs of finality-grandpa. There the words grow as bits are set; here there are
// always WORDS, enough for VOTERS with two bits each, and a bit past them is never set.
#![tactic(auto)]

ghost use Rattle.std.specs.Prelude.{◌≡◌, ◌<◌, ◌-◌, ◌%◌, get_or, replicate};
ghost use Rattle.std.specs.Int.Bits.{bit_and};
ghost use Rattle.sizes.specs.Sizes.{WORDS};
ghost use Rattle.bitfield.specs.Bits.{has, put, words, joined, blank, every};
ghost use Rattle.bitfield.specs.Walk.{first_of};

use sizes::{WORD, WORDS};

// A bit that is set.
#[derive(Clone, Copy)]
pub struct Bit1 {
    pub position: usize,
}

// A set bit of a word, and the word without it.
#[derive(Clone, Copy)]
struct First {
    at: usize,
    rest: u64,
}

// How many bits there are.
const BITS: usize = WORD * WORDS;

// A word without a bit.
const NONE: u64 = 0;

// The bits at even positions of a word, of which position 0 is the highest, and those at odd positions.
const EVEN: u64 = 0xAAAAAAAAAAAAAAAA;

const ODD: u64 = EVEN >> 1;

pub fn new() -> [u64; WORDS]
    ensures { result ≡ replicate WORDS 0 }
{
    [NONE; WORDS]
}

// No bit at all: the Rust's empty vector. Empty and all-zero weigh alike, and here there is only all-zero.
pub fn is_blank(bits: [u64; WORDS]) -> bool
    ensures { result ≡ blank bits }
{
    bits.iter().all(|word| *word == NONE)
}

pub fn merge(bits: [u64; WORDS], other: [u64; WORDS]) -> [u64; WORDS]
    ensures { result ≡ joined bits other }
{
    [bits[0] | other[0], bits[1] | other[1]]
}

// A bit's value is 1 shifted by this.
fn shift_of(position: usize) -> u32
    ensures { result ≡ 63 - position % 64 }
{
    (WORD - 1 - position % WORD) as u32
}

// A case for each word: a word at a computed index would have to go through memory.
pub fn set_bit(bits: [u64; WORDS], position: usize) -> [u64; WORDS]
    ensures { result ≡ put bits position }
{
    let value = 1u64 << shift_of(position);
    if position < WORD {
        return [bits[0] | value, bits[1]];
    }
    if position < BITS {
        return [bits[0], bits[1] | value];
    }
    bits
}

pub fn test_bit(bits: [u64; WORDS], position: usize) -> bool
    ensures { result ≡ has bits position }
{
    if BITS <= position {
        return false;
    }
    let word = bits[position / WORD];
    (word >> shift_of(position)) % 2 == 1
}

// The bits of a mask.
fn masked(bits: [u64; WORDS], mask: u64) -> [u64; WORDS]
    ensures { result ≡ words WORDS (λ i. bit_and (get_or bits i 0) mask) }
{
    [bits[0] & mask, bits[1] & mask]
}

pub fn even_bits(bits: [u64; WORDS]) -> [u64; WORDS]
    ensures { result ≡ every 0 bits }
{
    masked(bits, EVEN)
}

pub fn odd_bits(bits: [u64; WORDS]) -> [u64; WORDS]
    ensures { result ≡ every 1 bits }
{
    masked(bits, ODD)
}

// The set bits of some words, the first of them first. The words left are public, so that any set can be walked, and a walk kept and gone on with.
#[derive(Clone, Copy)]
pub struct Iter1s {
    pub left: [u64; WORDS],
}

// The four walks of the Rust.
pub fn iter1s_even(bits: [u64; WORDS]) -> Iter1s
    ensures { result.left ≡ every 0 bits }
{
    Iter1s {
        left: even_bits(bits),
    }
}

pub fn iter1s_odd(bits: [u64; WORDS]) -> Iter1s
    ensures { result.left ≡ every 1 bits }
{
    Iter1s {
        left: odd_bits(bits),
    }
}

pub fn iter1s_merged_even(bits: [u64; WORDS], other: [u64; WORDS]) -> Iter1s
    ensures { result.left ≡ every 0 (joined bits other) }
{
    iter1s_even(merge(bits, other))
}

pub fn iter1s_merged_odd(bits: [u64; WORDS], other: [u64; WORDS]) -> Iter1s
    ensures { result.left ≡ every 1 (joined bits other) }
{
    iter1s_odd(merge(bits, other))
}

// The first set bit of a word that has one, and the rest of the word.
fn first_of(word: u64) -> First
    requires { 0 < word }
    ensures { (result ≡ first_of word) × (result.at < 64) }
{
    let at = u64::leading_zeros(word);
    First {
        at: at as usize,
        rest: word - (1u64 << (63 - at)),
    }
}

impl Iterator for Iter1s {
    ghost use Rattle.std.specs.Iterator.{item_count};
    ghost use Rattle.bitfield.specs.Walk.{Steps, set_bits};

    type Item = Bit1;

    ghost next_gives = { λ before found after. Steps before.left found after.left };

    ghost remaining = { item_count (λ walk. set_bits walk.left) };

    fn next(&mut self) -> Option<Bit1> {
        let place = self.left.iter().position(|word| *word != NONE)?;
        let one = first_of(self.left[place]);
        self.left[place] = one.rest;
        Some(Bit1 {
            position: WORD * place + one.at,
        })
    }
}
