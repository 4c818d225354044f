// The blocks that a round knows, as a table that is held: the `Chain` of lib.rs, which is a trait there. The calls work on
// lent columns: a caller that can show the shape pays no test of it, and copies no table.
#![tactic(auto)]

ghost use Rattle.std.specs.Prelude.{◌≡◌, ℕ, ◌≤◌, ◌<◌, get_or};
ghost use Rattle.sizes.specs.Sizes.{BLOCKS};
ghost use Rattle.grandpa.specs.Tree.{Tabled, below};
ghost use Rattle.blocks.specs.Table.{up, view, table_of, climbed};
ghost use Rattle.blocks.specs.Add.{place_of, append, step, counted};
ghost use Rattle.blocks.specs.declared.Added.{Added};

use refusals::Refusal;
use sizes::BLOCKS;

// The blocks by place, with unused places 0. A parent is a place; the root is its own. The fields are public, so that
// the columns can be lent: a table of anyone's making can be handed in, and `is_table` tells it from one that was
// built by calls. A count stands beside the columns, since a stored table of anyone's making is taken as it stands, in fixed memory.
#[derive(Clone, Copy, PartialEq, Eq)]
pub struct BlockTable {
    pub ids: [u32; BLOCKS],
    pub numbers: [u32; BLOCKS],
    pub parents: [u8; BLOCKS],
    pub count: usize,
}

// The answer, and the table after the call: a `Result` alone would lose the table.
#[derive(Clone, Copy)]
pub struct Added {
    pub answer: Result<u8, Refusal>,
    pub table: BlockTable,
}

// The block with this id.
pub fn find(ids: &[u32; BLOCKS], count: usize, id: u32) -> Option<u8>
    requires { count ≤ BLOCKS }
    ensures { result ≡ place_of ids.now count id }
{
    let Some(place) = columns::find(ids, count, id) else {
        return None;
    };
    Some(place as u8)
}

pub fn number(numbers: &[u32; BLOCKS], block: u8) -> u32
    ensures { result ≡ get_or numbers.now block 0 }
{
    numbers[block as usize]
}

// The block of number `wanted` at or above a block.
pub fn ancestor_at<'a>(
    parents: &'a [u8; BLOCKS],
    numbers: &'a [u32; BLOCKS],
    block: u8,
    wanted: u32,
) -> u8
    requires { (n : ℕ) × Tabled (view parents.now numbers.now n) × (block < n) × (get_or numbers.now 0 0 ≤ wanted) }
    ensures { result ≡ climbed parents.now numbers.now block wanted }
{
    let at = block as usize;
    if numbers[at] <= wanted {
        return block;
    }
    ancestor_at(parents, numbers, parents[at], wanted)
}

// Whether `block` is `base` or under it: on the way up, the block of base's number is base.
pub fn is_at_or_below<'a>(
    parents: &'a [u8; BLOCKS],
    numbers: &'a [u32; BLOCKS],
    base: u8,
    block: u8,
) -> bool
    requires { (n : ℕ) × Tabled (view parents.now numbers.now n) × (base < n) × (block < n) }
    ensures { result ≡ below (up parents.now) base block }
{
    ancestor_at(parents, numbers, block, numbers[base as usize]) == base
}

// A block at the first unused place, under the block at `above`. Where it is placed, the caller counts it.
pub fn append(
    ids: &mut [u32; BLOCKS],
    numbers: &mut [u32; BLOCKS],
    parents: &mut [u8; BLOCKS],
    count: usize,
    id: u32,
    above: u8,
) -> Result<u8, Refusal>
    requires { count ≤ BLOCKS }
    ensures { ◌≡◌ {A = Added} (record { answer = result; table = table_of ids.new numbers.new parents.new (counted count result) })
        (append (table_of ids.old numbers.old parents.old count) id above) }
{
    let number = number(numbers, above);
    if number == 4294967295 {
        return Err(Refusal::NumberOverflow);
    }
    if count == BLOCKS {
        return Err(Refusal::TableFull);
    }
    ids[count] = id;
    numbers[count] = number + 1;
    parents[count] = above;
    Ok(count as u8)
}

// One more block. Where it is placed, the caller counts it.
pub fn add(
    ids: &mut [u32; BLOCKS],
    numbers: &mut [u32; BLOCKS],
    parents: &mut [u8; BLOCKS],
    count: usize,
    id: u32,
    parent: u32,
) -> Result<u8, Refusal>
    requires { count ≤ BLOCKS }
    ensures { ◌≡◌ {A = Added} (record { answer = result; table = table_of ids.new numbers.new parents.new (counted count result) })
        (step (table_of ids.old numbers.old parents.old count) id parent) }
{
    if columns::contains(ids, count, id) {
        return Err(Refusal::KnownBlock);
    }
    let Some(above) = find(ids, count, parent) else {
        return Err(Refusal::UnknownParent);
    };
    append(ids, numbers, parents, count, id, above)
}

// The count after an answer.
pub fn counted(count: usize, answer: Result<u8, Refusal>) -> usize
    requires { count ≤ BLOCKS }
    ensures { result ≡ counted count answer }
{
    match answer {
        Ok(_) => count + 1,
        Err(_) => count,
    }
}
