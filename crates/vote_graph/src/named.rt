// Where a block stands that a call names, on lent columns of a table that keeps its shape.
ghost use Rattle.std.specs.Prelude.{◌≡◌, ◌≤◌};
ghost use Rattle.sizes.specs.Sizes.{BLOCKS};
ghost use Rattle.nodes.specs.Nodes.{Falls};
ghost use Rattle.vote_graph.specs.Target.{in_base, target, start};

use refusals::Refusal;
use sizes::BLOCKS;

// The block with an id.
pub fn of<'a>(
    ids: &'a [u32; BLOCKS],
    parents: &'a [u8; BLOCKS],
    count: usize,
    base: u8,
    block: u32,
) -> Result<u8, Refusal>
    requires { (Falls parents.now) × (count ≤ BLOCKS) }
    ensures { result ≡ target ids.now parents.now count base block }
{
    let Some(place) = blocks::find(ids, count, block) else {
        return Err(Refusal::UnknownTarget);
    };
    in_base(parents, base, place)
}

// The block at a place, or the base where none is named.
pub fn start(
    parents: &[u8; BLOCKS],
    count: usize,
    base: u8,
    from: Option<u8>,
) -> Result<u8, Refusal>
    requires { Falls parents.now }
    ensures { result ≡ start parents.now count base from }
{
    let Some(place) = from else {
        return Ok(base);
    };
    if count <= climbs::wide(place) {
        return Err(Refusal::UnknownTarget);
    }
    in_base(parents, base, place)
}

fn in_base(parents: &[u8; BLOCKS], base: u8, place: u8) -> Result<u8, Refusal>
    requires { Falls parents.now }
    ensures { result ≡ in_base parents.now base place }
{
    if !climbs::reaches(parents, base, place) {
        return Err(Refusal::OffTheBase);
    }
    Ok(place)
}
