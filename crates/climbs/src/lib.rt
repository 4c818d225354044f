// Climbs up the table, on lent columns. Places fit a byte, and a byte indexes every column.
#![tactic(auto)]

ghost use Rattle.std.specs.Prelude.{◌≡◌, ◌<◌};
ghost use Rattle.sizes.specs.Sizes.{BLOCKS};
ghost use Rattle.grandpa.specs.Tree.{below};
ghost use Rattle.graph.specs.Search.{nearest};
ghost use Rattle.graph.specs.Ghost.{towards};
ghost use Rattle.climbs.specs.Places.{col, flag, Falls};

use sizes::BLOCKS;

// A place as an index. Beside what `usize::from` says, its contract has the bound that each use of the index needs.
pub fn wide(place: u8) -> usize
    ensures { (result ≡ place) × (result < BLOCKS) }
{
    place as usize
}

// Whether `from` is `block` or below it. Parents are earlier, so that the climb ends at the first place not past `block`.
pub fn reaches(parents: &[u8; BLOCKS], block: u8, from: u8) -> bool
    requires { Falls parents.now }
    ensures { result ≡ below (col parents.now) block from }
{
    let wanted = wide(block);
    let mut at = wide(from);
    while wanted < at {
        at = wide(parents[at]);
    }
    at == wanted
}

// The nearest node at or above a block.
pub fn nearest<'a>(parents: &'a [u8; BLOCKS], used: &'a [bool; BLOCKS], block: u8) -> u8
    requires { Falls parents.now }
    ensures { result ≡ nearest (col parents.now) (flag used.now) block }
{
    let mut at = block;
    while 0 < at {
        let k = wide(at);
        if used[k] {
            return at;
        }
        at = parents[k];
    }
    at
}

// The child of a block towards a block strictly below it.
pub fn towards(parents: &[u8; BLOCKS], block: u8, from: u8) -> u8
    requires { Falls parents.now }
    ensures { result ≡ towards (col parents.now) block from }
{
    let mut at = from;
    while 0 < at {
        let over = parents[wide(at)];
        if over == block {
            return at;
        }
        at = over;
    }
    at
}
