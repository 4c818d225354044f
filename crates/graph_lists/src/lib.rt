// The tests of a vote graph's lists and bits, on lent columns.
#![tactic(auto)]

ghost use Rattle.std.specs.Prelude.{◌≡◌, ◌||◌, ◌-◌, ◌≤◌, ◌<◌, eqb, ltb};
ghost use Rattle.sizes.specs.Sizes.{BLOCKS};
ghost use Rattle.loops.specs.Listing.{front};
ghost use Rattle.nodes.specs.Nodes.{col};
ghost use Rattle.graph_lists.specs.Listed.{childless, rising, zero_bits, bare};

use climbs::wide;
use sizes::{BLOCKS, WORDS};

// The nodes that no listed node has above it.
pub fn childless<'a>(
    used: &'a [bool; BLOCKS],
    above: &'a [u8; BLOCKS],
    order: &'a [u8; BLOCKS],
    listed: usize,
) -> [bool; BLOCKS]
    requires { listed ≤ BLOCKS }
    ensures { result ≡ childless used.now above.now (front listed order.now) }
{
    let mut left = *used;
    for node in &order[..listed] {
        let over = wide(above[wide(*node)]);
        left[over] = false;
    }
    left
}

// Whether the heads lie by rising id.
pub fn rising<'a>(ids: &'a [u32; BLOCKS], heads: &'a [u8; BLOCKS], tips: usize) -> bool
    requires { tips ≤ BLOCKS }
    ensures { result ≡ rising ids.now heads.now tips }
{
    heads[..tips].is_sorted_by(|before, head| ids[wide(*before)] < ids[wide(*head)])
}

// Whether there are no bits where there is no node.
pub fn bare<'a>(used: &'a [bool; BLOCKS], rows: &'a [[u64; WORDS]; BLOCKS]) -> bool
    ensures { result ≡ bare used.now rows.now }
{
    for (node, bits) in used.iter().zip(rows) {
        if !is_bare(*node, *bits) {
            return false;
        }
    }
    true
}

fn is_bare(node: bool, bits: [u64; WORDS]) -> bool
    ensures { result ≡ node || zero_bits bits }
{
    node || bitfield::is_blank(bits)
}
