// The shape rules that tie recorded votes, vote-nodes, node bits, equivocator bits and history together, tested on lent columns
// in linear time.
#![tactic(auto)]

ghost use Rattle.std.specs.Prelude.{◌≡◌, not, ◌||◌, ◌<◌, leb, ltb};
ghost use Rattle.lent.specs.Moment.{before};
ghost use Rattle.nodes.specs.Nodes.{Falls};
ghost use Rattle.tracker.specs.Votes.{votes_at};
ghost use Rattle.vote_shape.specs.Voted.{counted, first_clear, second_clear, tidy, marks, noted, targets_used, only_marked, noded, written, voted};
ghost use Rattle.sizes.specs.Sizes.{VOTES, HISTORY, BLOCKS};
ghost use Rattle.tracker.specs.Recorded.{paired};

use climbs::wide;
use sizes::{BLOCKS, HISTORY, VOTES, WORDS};

// Whether the recorded votes of `size` voters and what is kept beside them keep their shape rules.
pub fn is_voted<'a>(
    size: usize,
    parents: &'a [u8; BLOCKS],
    base: u8,
    used: &'a [bool; BLOCKS],
    rows: &'a [[u64; WORDS]; BLOCKS],
    counts: &'a [u8; VOTES],
    first_block: &'a [u8; VOTES],
    first_signature: &'a [u64; VOTES],
    second_target: &'a [u32; VOTES],
    second_number: &'a [u32; VOTES],
    second_signature: &'a [u64; VOTES],
    equivocations: [u64; WORDS],
    entries: &'a [u16; HISTORY],
    count: usize,
) -> bool
    requires { Falls parents.now }
    ensures { result ≡ voted size parents.now base used.now rows.now
        (votes_at before counts first_block first_signature second_target second_number second_signature) equivocations entries.now count }
{
    if !tidy(
        size,
        counts,
        first_block,
        first_signature,
        second_target,
        second_number,
        second_signature,
    ) {
        return false;
    }
    if !noded(base, used, counts, first_block) {
        return false;
    }
    if !vote_bits::told(parents, used, rows, counts, first_block) {
        return false;
    }
    if !vote_bits::doubled(counts, equivocations) {
        return false;
    }
    written(counts, entries, count)
}

fn tidy<'a>(
    size: usize,
    counts: &'a [u8; VOTES],
    first_block: &'a [u8; VOTES],
    first_signature: &'a [u64; VOTES],
    second_target: &'a [u32; VOTES],
    second_number: &'a [u32; VOTES],
    second_signature: &'a [u64; VOTES],
) -> bool
    ensures { result ≡ tidy size (votes_at before counts first_block first_signature second_target second_number second_signature) }
{
    for (j, &n) in counts.iter().enumerate() {
        if !is_counted(size, j, n) {
            return false;
        }
        if !is_first_clear(n, first_block[j], first_signature[j]) {
            return false;
        }
        if !is_second_clear(n, second_target[j], second_number[j], second_signature[j]) {
            return false;
        }
    }
    true
}

fn is_counted(size: usize, j: usize, n: u8) -> bool
    requires { j < VOTES }
    ensures { result ≡ counted size j n }
{
    n <= 2 && (layouts::index_place(j) < size || n == 0)
}

fn is_first_clear(n: u8, place: u8, signature: u64) -> bool
    ensures { result ≡ first_clear n place signature }
{
    0 < n || (place == 0 && signature == 0)
}

fn is_second_clear(n: u8, target: u32, number: u32, second: u64) -> bool
    ensures { result ≡ second_clear n target number second }
{
    1 < n || (target == 0 && number == 0 && second == 0)
}

fn noded<'a>(
    base: u8,
    used: &'a [bool; BLOCKS],
    counts: &'a [u8; VOTES],
    first_block: &'a [u8; VOTES],
) -> bool
    ensures { result ≡ noded base used.now counts.now first_block.now }
{
    let at = wide(base);
    if !used[at] {
        return false;
    }
    if !targets_used(used, counts, first_block) {
        return false;
    }
    let noted = noted(base, counts, first_block);
    only_marked(used, &noted)
}

fn targets_used<'a>(
    used: &'a [bool; BLOCKS],
    counts: &'a [u8; VOTES],
    first_block: &'a [u8; VOTES],
) -> bool
    ensures { result ≡ targets_used used.now counts.now first_block.now }
{
    for (n, target) in counts.iter().zip(first_block) {
        if !is_used(*n, used[wide(*target)]) {
            return false;
        }
    }
    true
}

fn is_used(n: u8, node: bool) -> bool
    ensures { result ≡ leb n 0 || node }
{
    n == 0 || node
}

// The base and the targets of first votes.
fn noted<'a>(base: u8, counts: &'a [u8; VOTES], first_block: &'a [u8; VOTES]) -> [bool; BLOCKS]
    ensures { result ≡ marks BLOCKS (noted base counts.now first_block.now) }
{
    let mut marks = [false; BLOCKS];
    marks[wide(base)] = true;
    for (n, target) in counts.iter().zip(first_block) {
        if *n != 0 {
            marks[wide(*target)] = true;
        }
    }
    marks
}

fn only_marked<'a>(used: &'a [bool; BLOCKS], marks: &'a [bool; BLOCKS]) -> bool
    ensures { result ≡ only_marked used.now marks.now }
{
    for (node, mark) in used.iter().zip(marks) {
        if !is_marked(*node, *mark) {
            return false;
        }
    }
    true
}

fn is_marked(node: bool, mark: bool) -> bool
    ensures { result ≡ not node || mark }
{
    !node || mark
}

fn written<'a>(counts: &'a [u8; VOTES], entries: &'a [u16; HISTORY], count: usize) -> bool
    ensures { result ≡ written counts.now entries.now count }
{
    if HISTORY < count {
        return false;
    }
    let pairs = pairs(counts);
    lists::laid(entries, count, &pairs)
}

// The entries of the recorded pairs. An entry is a number: what is asked about, and its own place among the marks.
fn pairs(counts: &[u8; VOTES]) -> [bool; HISTORY]
    ensures { result ≡ marks HISTORY (paired counts.now) }
{
    let mut marks = [false; HISTORY];
    for e in 0..HISTORY {
        marks[e] = is_paired(counts, e as u16);
    }
    marks
}

fn is_paired(counts: &[u8; VOTES], entry: u16) -> bool
    requires { entry < HISTORY }
    ensures { result ≡ paired counts.now entry }
{
    layouts::entry_pair(entry) < wide(counts[layouts::entry_index(entry)])
}
