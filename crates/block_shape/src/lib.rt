// Whether columns handed in keep the shape rules of a table.
#![tactic(auto)]

ghost use Rattle.std.specs.Prelude.{◌≡◌, ◌≤◌, ◌<◌, length};
ghost use Rattle.sizes.specs.Sizes.{BLOCKS};
ghost use Rattle.blocks.specs.Table.{table_of};
ghost use Rattle.block_shape.specs.Shape.{is_child, is_tree, are_distinct, are_clear, tabled};

use sizes::BLOCKS;

pub fn is_table<'a>(
    ids: &'a [u32; BLOCKS],
    numbers: &'a [u32; BLOCKS],
    parents: &'a [u8; BLOCKS],
    count: usize,
) -> bool
    requires { (length ids.now ≡ BLOCKS) × (length numbers.now ≡ BLOCKS) × (length parents.now ≡ BLOCKS) }
    ensures { result ≡ tabled (table_of ids.now numbers.now parents.now count) }
{
    if count == 0 {
        return false;
    }
    if BLOCKS < count {
        return false;
    }
    if !is_tree(parents, numbers, count) {
        return false;
    }
    if !are_clear(ids, numbers, parents, count) {
        return false;
    }
    are_distinct(ids, count)
}

// Every block but the root names an earlier one and has its number plus 1.
fn is_tree<'a>(parents: &'a [u8; BLOCKS], numbers: &'a [u32; BLOCKS], count: usize) -> bool
    requires { (0 < count) × (count ≤ BLOCKS) }
    ensures { result ≡ is_tree parents.now numbers.now count }
{
    if parents[0] != 0 {
        return false;
    }
    for k in 1..count {
        if !is_child(parents, numbers, k) {
            return false;
        }
    }
    true
}

fn is_child<'a>(parents: &'a [u8; BLOCKS], numbers: &'a [u32; BLOCKS], k: usize) -> bool
    requires { k < BLOCKS }
    ensures { result ≡ is_child parents.now numbers.now k }
{
    let parent = usize::from(parents[k]);
    if k <= parent {
        return false;
    }
    u64::from(numbers[k]) == u64::from(numbers[parent]) + 1
}

// Each id is looked for before its own place, so that places are counted.
fn are_distinct(ids: &[u32; BLOCKS], count: usize) -> bool
    requires { count ≤ BLOCKS }
    ensures { result ≡ are_distinct ids.now count }
{
    for k in 0..count {
        if columns::contains(ids, k, ids[k]) {
            return false;
        }
    }
    true
}

// The places from `count` on are 0.
fn are_clear<'a>(
    ids: &'a [u32; BLOCKS],
    numbers: &'a [u32; BLOCKS],
    parents: &'a [u8; BLOCKS],
    count: usize,
) -> bool
    requires { count ≤ BLOCKS }
    ensures { result ≡ are_clear ids.now numbers.now parents.now count }
{
    lists::blank(ids, count) && lists::blank(numbers, count) && lists::blank(parents, count)
}
