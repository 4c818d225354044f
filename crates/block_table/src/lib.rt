// The table of blocks by value: every call tests what it is handed, and refuses a table that breaks the shape rules.
#![tactic(auto)]

ghost use Rattle.std.specs.Prelude.{◌≡◌};
ghost use Rattle.block_shape.specs.Shape.{tabled};
ghost use Rattle.block_table.specs.Add.{opened, add};
ghost use Rattle.block_table.specs.Ask.{used, find, number, ancestor_at, is_at_or_below};

pub use blocks::{Added, BlockTable};
use refusals::Refusal;
use sizes::BLOCKS;

// A root with its number, and no other block.
pub fn new(root: u32, number: u32) -> BlockTable
    ensures { result ≡ opened root number }
{
    let mut ids = [0u32; BLOCKS];
    let mut numbers = [0u32; BLOCKS];
    let parents = [0u8; BLOCKS];
    ids[0] = root;
    numbers[0] = number;
    BlockTable {
        ids,
        numbers,
        parents,
        count: 1,
    }
}

// Whether the table keeps the shape rules.
pub fn is_table(table: BlockTable) -> bool
    ensures { result ≡ tabled table }
{
    block_shape::is_table(&table.ids, &table.numbers, &table.parents, table.count)
}

// One more block, under a parent that is named by its id.
pub fn add(mut table: BlockTable, id: u32, parent: u32) -> Added
    ensures { result ≡ add table id parent }
{
    if !is_table(table) {
        return Added {
            answer: Err(Refusal::Misshapen),
            table,
        };
    }
    let mut ids = table.ids;
    let mut numbers = table.numbers;
    let mut parents = table.parents;
    let answer = blocks::add(
        &mut ids,
        &mut numbers,
        &mut parents,
        table.count,
        id,
        parent,
    );
    table.ids = ids;
    table.numbers = numbers;
    table.parents = parents;
    table.count = blocks::counted(table.count, answer);
    Added { answer, table }
}

// How many blocks the table has, where it keeps the shape rules.
fn used(table: BlockTable) -> Result<usize, Refusal>
    ensures { result ≡ used table }
{
    if !is_table(table) {
        return Err(Refusal::Misshapen);
    }
    Ok(table.count)
}

// The block with this id.
pub fn find(table: BlockTable, id: u32) -> Result<Option<u8>, Refusal>
    ensures { result ≡ find table id }
{
    Ok(blocks::find(&table.ids, used(table)?, id))
}

// The number of the block at a place.
pub fn number(table: BlockTable, block: u8) -> Result<Option<u32>, Refusal>
    ensures { result ≡ number table block }
{
    let known = (block as usize) < used(table)?;
    Ok(known.then_some(blocks::number(&table.numbers, block)))
}

// The block of this number on the way from a block to the root.
pub fn ancestor_at(table: BlockTable, block: u8, wanted: u32) -> Result<Option<u8>, Refusal>
    ensures { result ≡ ancestor_at table block wanted }
{
    if used(table)? <= block as usize {
        return Ok(None);
    }
    if wanted < blocks::number(&table.numbers, 0) {
        return Ok(None);
    }
    if blocks::number(&table.numbers, block) < wanted {
        return Ok(None);
    }
    Ok(Some(blocks::ancestor_at(&table.parents, &table.numbers, block, wanted)))
}

// The Rust's `is_equal_or_descendent_of`.
pub fn is_at_or_below(table: BlockTable, base: u8, block: u8) -> Result<bool, Refusal>
    ensures { result ≡ is_at_or_below table base block }
{
    let count = used(table)?;
    if count <= base as usize || count <= block as usize {
        return Ok(false);
    }
    Ok(blocks::is_at_or_below(&table.parents, &table.numbers, base, block))
}
