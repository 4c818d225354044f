// Weighing on a lent column of weights, one for each of the VOTERS places; places that no voter has hold 0.
ghost use Rattle.std.specs.Prelude.{◌≡◌, ◌||◌, ◌+◌, ◌/◌, ◌≤◌, get_or};
ghost use Rattle.loops.specs.Sum.{sum, weigh};
ghost use Rattle.weights.specs.Weights.{plus};
ghost use Rattle.bitfield.specs.Bits.{in_word, every};
ghost use Rattle.context.specs.Votes.{offset, voted, weight_of, voters_heard_in};

use crate::Phase;
use sizes::{VOTERS, WORDS};

// The bits of one phase.
fn of_phase(bits: [u64; WORDS], phase: Phase) -> [u64; WORDS]
    ensures { result ≡ every (offset phase) bits }
{
    match phase {
        Phase::Prevote => bitfield::even_bits(bits),
        Phase::Precommit => bitfield::odd_bits(bits),
    }
}

// `start` and the weights of the voters whose bits are set in a word of one phase; the word's first voter
// has place `first`. From one set bit to the next, the last of the word first: what is left after the lowest
// bit is known at once, and the leading zeros of that bit, which give the voter, are waited for by nothing.
fn weigh_word(weights: &[u64; VOTERS], word: u64, first: usize, start: u64) -> u64
    requires { first ≤ 32 }
    ensures { result ≡ plus start (weigh 64 (in_word word) (λ b. get_or weights.now (first + b / 2) 0)) }
{
    let mut sum = start;
    let mut left = word;
    while left != 0 {
        let rest = left & (left - 1);
        let zeros = u64::leading_zeros(left - rest) as usize;
        let place = first + zeros / 2;
        sum = sum.saturating_add(weights[place]);
        left = rest;
    }
    sum
}

// The weight of the voters who voted in a phase.
pub fn weight(weights: &[u64; VOTERS], bits: [u64; WORDS], phase: Phase) -> u64
    ensures { result ≡ weight_of weights.now (voted bits phase) }
{
    let left = of_phase(bits, phase);
    let first = weigh_word(weights, left[0], 0, 0);
    weigh_word(weights, left[1], 32, first)
}

// The same with the voters of a second set, each once, though both sets may have it.
pub fn merged_weight(
    weights: &[u64; VOTERS],
    bits: [u64; WORDS],
    other: [u64; WORDS],
    phase: Phase,
) -> u64
    ensures { result ≡ weight_of weights.now (λ p. voted bits phase p || voted other phase p) }
{
    let both = bitfield::merge(bits, other);
    weight(weights, both, phase)
}

// How many voters voted in a phase.
pub fn heard(bits: [u64; WORDS], phase: Phase) -> u32
    ensures { result ≡ voters_heard_in bits phase }
{
    let left = of_phase(bits, phase);
    u64::count_ones(left[0]) + u64::count_ones(left[1])
}
