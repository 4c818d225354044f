// Rounds with words changed, and what all calls say of them: one word in each of the ways that its field can be wrong, or several at once.
//
// This serves the program `damaged`, which is judged by its stored output: the functions are proved safe and ending, and promise no more.
#![tactic(auto)]

ghost use Rattle.std.specs.Prelude.{◌<◌, ◌≤◌};

use asked::Asked;
use round_words::SIZE;

// What a field holds: numbers of some width, a count with its size, flags, an index of history, a stored block. It decides how many ways there
// are to damage the field and which numbers they put there, so that the same words come in the same order as recorded.
#[derive(Clone, Copy)]
pub enum Kind {
    Byte,
    Entry,
    Number,
    Word,
    Count(u64),
    Flag,
    Index,
    Block,
}

// How many wrong values are tried at a place.
fn ways(kind: Kind) -> usize {
    match kind {
        Kind::Byte | Kind::Entry | Kind::Number | Kind::Word => 3,
        Kind::Count(_) | Kind::Index => 6,
        Kind::Flag => 2,
        Kind::Block => 257,
    }
}

// One more, one less, or the highest bit turned, in a field of so many values.
fn narrow(x: u64, values: u64, way: usize) -> u64
    requires lower { 1 < values }
    requires upper { values ≤ 4294967296 }
{
    match way {
        0 => (x % values + 1) % values,
        1 => (x % values + (values - 1)) % values,
        _ => (x % values + values / 2) % values,
    }
}

fn word(x: u64, way: usize) -> u64 {
    match way {
        0 => x.wrapping_add(1),
        1 => x.wrapping_sub(1),
        _ => x.wrapping_add(9223372036854775808),
    }
}

// The same, and none, as many as there is room for, one more than that.
fn count(x: u64, size: u64, way: usize) -> u64 {
    match way {
        3 => 0,
        4 => size,
        5 => size.wrapping_add(1),
        _ => word(x, way),
    }
}

// None, small ones, the largest that fits, and larger ones.
fn index(way: usize) -> u64 {
    match way {
        0 => u64::MAX,
        1 => 0,
        2 => 1,
        3 => 256,
        4 => 257,
        _ => u64::MAX - 1,
    }
}

// A flag takes both values, a stored block every place and none: what stands there already is left out by the caller.
fn value(kind: Kind, x: u64, way: usize) -> u64 {
    match kind {
        Kind::Byte => narrow(x, 256, way),
        Kind::Entry => narrow(x, 65536, way),
        Kind::Number => narrow(x, 4294967296, way),
        Kind::Word => word(x, way),
        Kind::Count(size) => count(x, size, way),
        Kind::Flag | Kind::Block => way as u64,
        Kind::Index => index(way),
    }
}

// How many damaged rounds there were, those that every call refused and those that none did; those on which the calls disagreed, and
// what refusing calls changed; and how many of their voters and tables `new` refused.
#[derive(Clone, Copy, Default)]
pub struct Sums {
    pub damaged: u64,
    pub refused: u64,
    pub passed: u64,
    pub uneven: u64,
    pub changed: u64,
    pub unmade: u64,
}

fn both(one: Sums, other: Sums) -> Sums {
    Sums {
        damaged: asked::plus(one.damaged, other.damaged),
        refused: asked::plus(one.refused, other.refused),
        passed: asked::plus(one.passed, other.passed),
        uneven: asked::plus(one.uneven, other.uneven),
        changed: asked::plus(one.changed, other.changed),
        unmade: asked::plus(one.unmade, other.unmade),
    }
}

fn judged(asked: Asked) -> Sums {
    let passed = asked.nines == 0;
    let refused = asked.nines == asked::CALLS;
    Sums {
        damaged: 1,
        refused: u64::from(refused),
        passed: u64::from(passed),
        uneven: u64::from(!passed && !refused),
        changed: if passed { 0 } else { asked.changed },
        unmade: asked.unmade,
    }
}

// One word changed, unless it stays.
fn changed(good: &[u64; SIZE], at: usize, value: u64) -> Sums {
    if round_words::get(good, at) == value {
        return Sums::default();
    }
    let mut wrong = *good;
    round_words::put(&mut wrong, at, value);
    judged(asked::all(good, &wrong))
}

fn place(good: &[u64; SIZE], at: usize, kind: Kind) -> Sums {
    let mut sums = Sums::default();
    for way in 0..ways(kind) {
        let value = value(kind, round_words::get(good, at), way);
        sums = both(sums, changed(good, at, value));
    }
    sums
}

// Every place of a field, each wrong in every way of its kind.
pub fn places(good: &[u64; SIZE], start: usize, count: usize, kind: Kind) -> Sums {
    let mut sums = Sums::default();
    for k in 0..count {
        sums = both(sums, place(good, round_words::after(start, k), kind));
    }
    sums
}

// A list of words by their place in a round and what they become.
pub fn several(good: &[u64; SIZE], sets: &[(usize, u64)]) -> Sums {
    let mut wrong = *good;
    for (at, word) in sets {
        round_words::put(&mut wrong, *at, *word);
    }
    judged(asked::all(good, &wrong))
}
