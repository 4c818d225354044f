// Where the votes of a voter stand: the index of its votes in a phase, which is also its bit, and the entries of history of an
// index. No other crate computes with an index or an entry. The layout computes with a phase, 0 for prevotes and 1 for precommits, and with
// which pair an entry is, so both are numbers here; `context` gives its callers the type `Phase`.
#![tactic(auto)]

ghost use Rattle.std.specs.Prelude.{◌≡◌, ◌-◌, ◌^◌, ◌<◌, min};
ghost use Rattle.sizes.specs.Sizes.{VOTERS, VOTES, HISTORY};
ghost use Rattle.layouts.specs.Layout.{index, index_place, index_phase, entry, entry_index, entry_pair};

// So many prevotes by rising place, then as many precommits, and so on.
const RUN: usize = 1;

const MOST: usize = usize::MAX;

// The index of the voter at a place.
pub fn index(phase: usize, place: usize) -> usize
    requires { (phase < 2) × (place < VOTERS) }
    ensures { (result ≡ index phase place) × (result < VOTES) }
{
    (2 * (place / RUN) + phase) * RUN + place % RUN
}

// The bit of any place; where no number of the machine is as large, the largest.
pub fn bit(phase: usize, place: usize) -> usize
    requires { phase < 2 }
    ensures { result ≡ min (index phase place) (2 ^ 64 - 1) }
{
    let run = place / RUN;
    if MOST / 2 < run {
        return MOST;
    }
    let high = 2 * run + phase;
    if MOST / RUN < high {
        return MOST;
    }
    let start = high * RUN;
    let rest = place % RUN;
    if MOST - start < rest {
        return MOST;
    }
    start + rest
}

// The place of an index.
pub fn index_place(at: usize) -> usize
    requires { at < VOTES }
    ensures { (result ≡ index_place at) × (result < VOTERS) }
{
    at / RUN / 2 * RUN + at % RUN
}

// The phase of an index.
pub fn index_phase(at: usize) -> usize
    ensures { (result ≡ index_phase at) × (result < 2) }
{
    at / RUN % 2
}

// The entry of the first pair of an index, 0, or of the second, 1.
pub fn entry(at: usize, pair: usize) -> u16
    requires { (at < VOTES) × (pair < 2) }
    ensures { (result ≡ entry at pair) × (result < HISTORY) }
{
    (2 * at + pair) as u16
}

// The index of an entry.
pub fn entry_index(entry: u16) -> usize
    requires { entry < HISTORY }
    ensures { (result ≡ entry_index entry) × (result < VOTES) }
{
    (entry / 2) as usize
}

// Which pair of its index an entry is.
pub fn entry_pair(entry: u16) -> usize
    ensures { (result ≡ entry_pair entry) × (result < 2) }
{
    (entry % 2) as usize
}
