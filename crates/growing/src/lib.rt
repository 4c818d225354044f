// The journal's second turn: blocks under the root, up to the Op.
#![tactic(auto)]

ghost use Rattle.std.specs.Prelude.{◌≡◌, ◌≤◌, length, drop};
ghost use Rattle.sizes.specs.Sizes.{BLOCKS};
ghost use Rattle.marks.specs.declared.Mark.TheVariants.{Bk};
ghost use Rattle.marks.specs.Marks.{size};
ghost use Rattle.runs.specs.Run.{Run, ran};
ghost use Rattle.runs.specs.Tried.{Tried, tried};
ghost use Rattle.std.specs.declared.ops.ControlFlow.TheVariants.{Break};
ghost use Rattle.blocks.specs.declared.BlockTable.{BlockTable};
ghost use Rattle.block_index.specs.Index.{Indexed};
ghost use Rattle.growing.specs.Growing.{grown, turn_of};

use marks::{End, Mark, Record};
use refusals::Refusal;
use sizes::BLOCKS;
use std::ops::ControlFlow;

// The blocks after a record, and whether the turn goes on.
#[derive(Clone, Copy)]
pub struct Took {
    pub turn: ControlFlow<End>,
    pub blocks: usize,
}

// The blocks after a run over some bytes, the records taken, the bytes that they have, and why no more are taken.
#[derive(Clone, Copy)]
pub struct Grown {
    pub blocks: usize,
    pub count: u64,
    pub at: usize,
    pub end: End,
}

// The turn is over at a record, which leaves the blocks as they are.
fn over(end: End, blocks: usize) -> Took
    ensures { result ≡ record { turn = Break end; blocks = blocks } }
{
    Took {
        turn: ControlFlow::Break(end),
        blocks,
    }
}

fn turn(answer: Result<u8, Refusal>) -> ControlFlow<End>
    ensures { result ≡ turn_of answer }
{
    match answer {
        Ok(_) => ControlFlow::Continue(()),
        Err(refusal) => ControlFlow::Break(End::Refused(refusal)),
    }
}

// A Bk record: a block, and its parent.
pub fn add(
    ids: &mut [u32; BLOCKS],
    numbers: &mut [u32; BLOCKS],
    parents: &mut [u8; BLOCKS],
    blocks: usize,
    fields: &[u8],
) -> Took
    requires { (blocks ≤ BLOCKS) × (length fields.now ≡ 8) }
    ensures fact { ◌≡◌ {A = Tried BlockTable} (record { state = record { ids = ids.exit.now; numbers = numbers.new; parents = parents.new; count = result.blocks }; turn = result.turn }) (tried grown (record { ids = ids.entry.now; numbers = numbers.old; parents = parents.old; count = blocks }) Bk fields.now) }
    ensures blocks_bound { result.blocks ≤ BLOCKS }
{
    let id = marks::word(fields, 0);
    let parent = marks::word(fields, 4);
    let answer = blocks::add(ids, numbers, parents, blocks, id, parent);
    Took {
        turn: turn(answer),
        blocks: blocks::counted(blocks, answer),
    }
}

// The same beside slots of the ids, which spare the searches.
fn grow(
    ids: &mut [u32; BLOCKS],
    numbers: &mut [u32; BLOCKS],
    parents: &mut [u8; BLOCKS],
    slots: &mut [u8; 1024],
    blocks: usize,
    fields: &[u8],
) -> Took
    requires { Indexed ids.old slots.old blocks × (length fields.now ≡ 8) }
    ensures fact { ◌≡◌ {A = Tried BlockTable} (record { state = record { ids = ids.exit.now; numbers = numbers.new; parents = parents.new; count = result.blocks }; turn = result.turn }) (tried grown (record { ids = ids.entry.now; numbers = numbers.old; parents = parents.old; count = blocks }) Bk fields.now) }
    ensures indexed { Indexed ids.new slots.new result.blocks }
{
    let id = marks::word(fields, 0);
    let parent = marks::word(fields, 4);
    let answer = block_index::add(ids, numbers, parents, slots, blocks, id, parent);
    Took {
        turn: turn(answer),
        blocks: blocks::counted(blocks, answer),
    }
}

// A record in the second turn.
fn take(
    ids: &mut [u32; BLOCKS],
    numbers: &mut [u32; BLOCKS],
    parents: &mut [u8; BLOCKS],
    slots: &mut [u8; 1024],
    blocks: usize,
    mark: Mark,
    fields: &[u8],
) -> Took
    requires { Indexed ids.old slots.old blocks × (length fields.now ≡ size mark) }
    ensures fact { ◌≡◌ {A = Tried BlockTable} (record { state = record { ids = ids.exit.now; numbers = numbers.new; parents = parents.new; count = result.blocks }; turn = result.turn }) (tried grown (record { ids = ids.entry.now; numbers = numbers.old; parents = parents.old; count = blocks }) mark fields.now) }
    ensures indexed { Indexed ids.new slots.new result.blocks }
{
    match mark {
        Mark::Bk => grow(ids, numbers, parents, slots, blocks, fields),
        Mark::Op => over(End::Left, blocks),
        Mark::Vt | Mark::Rt | Mark::Pv | Mark::Pc => over(End::Refused(Refusal::OutOfTurn), blocks),
    }
}

// The records of some bytes, up to the first that is not one of this turn.
pub fn run(
    ids: &mut [u32; BLOCKS],
    numbers: &mut [u32; BLOCKS],
    parents: &mut [u8; BLOCKS],
    count: usize,
    bytes: &[u8],
) -> Grown
    requires { (count ≤ BLOCKS) × (length ids.old ≡ BLOCKS) }
    ensures fact { ◌≡◌ {A = Run BlockTable} (record { state = record { ids = ids.exit.now; numbers = numbers.new; parents = parents.new; count = result.blocks }; count = result.count; rest = drop result.at bytes.now; end = result.end }) (ran grown (record { ids = ids.entry.now; numbers = numbers.old; parents = parents.old; count = count }) bytes.now) }
    ensures blocks_bound { (result.blocks ≤ BLOCKS) × (result.count ≤ result.at) × (result.at ≤ length bytes.now) }
{
    let mut slots = [0u8; 1024];
    block_index::index(ids, &mut slots, count);
    let mut blocks = count;
    let mut taken = 0u64;
    let mut at = 0;
    loop {
        let part = &bytes[at..];
        let Record::Whole(mark) = marks::read(part) else {
            return Grown {
                blocks,
                count: taken,
                at,
                end: marks::ending(part),
            };
        };
        let fields = marks::fields(part, mark);
        let took = take(ids, numbers, parents, &mut slots, blocks, mark, fields);
        blocks = took.blocks;
        if let ControlFlow::Break(end) = took.turn {
            return Grown {
                blocks,
                count: taken,
                at,
                end,
            };
        }
        taken += 1;
        at += 2 + fields.len();
    }
}
