// Where a block's id stands, found by a table of slots that is lent beside the table of blocks: a record of the journal that
// adds a block asks it twice, and a search each time would cost by the number of blocks.
#![tactic(auto)]

ghost use Rattle.std.specs.Prelude.{◌≡◌, ◌≤◌, length};
ghost use Rattle.sizes.specs.Sizes.{BLOCKS};
ghost use Rattle.blocks.specs.Table.{table_of};
ghost use Rattle.blocks.specs.Add.{place_of, step, counted};
ghost use Rattle.blocks.specs.declared.Added.{Added};
ghost use Rattle.block_index.specs.Index.{slot, Indexed, indexed, marked};

use refusals::Refusal;
use sizes::BLOCKS;

fn slot(id: u32) -> usize
    ensures { result ≡ slot id }
{
    let wide = id as usize;
    wide * 1049601 / 1048576 % 1024
}

// The slots of the used places. They are set from the last to the first, so of one id the first place stays.
pub fn index(ids: &[u32; BLOCKS], slots: &mut [u8; 1024], count: usize)
    requires { (count ≤ BLOCKS) × (length ids.now ≡ BLOCKS) × (length slots.old ≡ 1024) }
    ensures slots_after { slots.new ≡ indexed ids.now count slots.old }
    ensures indexed { Indexed ids.now slots.new count }
{
    for place in (0..count).rev() {
        slots[slot(ids[place])] = place as u8;
    }
}

// The block with this id. Where another id is met in its slot, the search decides.
pub fn place(ids: &[u32; BLOCKS], slots: &[u8; 1024], count: usize, id: u32) -> Option<u8>
    requires { Indexed ids.now slots.now count }
    ensures { result ≡ place_of ids.now count id }
{
    let own = slot(id);
    let held = slots[own];
    let at = usize::from(held);
    if count <= at {
        return None;
    }
    let met = ids[at];
    if met == id {
        return Some(held);
    }
    if slot(met) != own {
        return None;
    }
    blocks::find(ids, count, id)
}

// A placed block gets its slot.
fn mark(slots: &mut [u8; 1024], id: u32, answer: Result<u8, Refusal>)
    ensures { slots.new ≡ marked slots.old id answer }
{
    match answer {
        Ok(place) => {
            slots[slot(id)] = place;
        }
        Err(_) => {}
    }
}

// One more block, as `blocks::add` has it.
pub fn add(
    ids: &mut [u32; BLOCKS],
    numbers: &mut [u32; BLOCKS],
    parents: &mut [u8; BLOCKS],
    slots: &mut [u8; 1024],
    count: usize,
    id: u32,
    parent: u32,
) -> Result<u8, Refusal>
    requires { Indexed ids.old slots.old count }
    ensures fact { ◌≡◌ {A = Added} (record { answer = result; table = table_of ids.new numbers.new parents.new (counted count result) })
        (step (table_of ids.old numbers.old parents.old count) id parent) }
    ensures slots_after { slots.new ≡ marked slots.old id result }
    ensures indexed { Indexed ids.new slots.new (counted count result) }
{
    let None = place(ids, slots, count, id) else {
        return Err(Refusal::KnownBlock);
    };
    let Some(above) = place(ids, slots, count, parent) else {
        return Err(Refusal::UnknownParent);
    };
    let answer = blocks::append(ids, numbers, parents, count, id, above);
    mark(slots, id, answer);
    answer
}
