// The sweeps down the table that test a vote graph, on lent columns: parents are earlier, so that what is known of a parent is
// known by then.
#![tactic(auto)]

ghost use Rattle.std.specs.Prelude.{◌≡◌, cond, not, ◌&&◌, ◌||◌, ◌<◌, eqb, ltb};
ghost use Rattle.sizes.specs.Sizes.{BLOCKS};
ghost use Rattle.nodes.specs.Nodes.{Falls};
ghost use Rattle.graph_sweeps.specs.Swept.{inside, tied};

use climbs::wide;
use sizes::BLOCKS;

// One sweep finds the blocks at or below the base. A place is compared as well as looked up, so that places are counted.
pub fn inside<'a>(
    parents: &'a [u8; BLOCKS],
    count: usize,
    base: u8,
    used: &'a [bool; BLOCKS],
) -> bool
    requires { Falls parents.now }
    ensures { result ≡ inside parents.now count base used.now }
{
    let top = wide(base);
    let mut under = [false; BLOCKS];
    for k in 0..BLOCKS {
        let low = is_under(top, k, under[wide(parents[k])]);
        if !is_inside(used[k], k, count, low) {
            return false;
        }
        under[k] = low;
    }
    true
}

// A block is at or below the base where it is the base, or its parent is.
fn is_under(base: usize, k: usize, over: bool) -> bool
    ensures { result ≡ eqb k base || (ltb 0 k && over) }
{
    if k == base {
        return true;
    }
    if k == 0 {
        return false;
    }
    over
}

fn is_inside(node: bool, k: usize, count: usize, low: bool) -> bool
    ensures { result ≡ not node || (ltb k count && low) }
{
    if !node {
        return true;
    }
    if count <= k {
        return false;
    }
    low
}

// One sweep finds the nearest node at or above each block. What is noted is a place, so that places are counted.
pub fn tied<'a>(
    parents: &'a [u8; BLOCKS],
    used: &'a [bool; BLOCKS],
    rest: &'a [bool; BLOCKS],
    above: &'a [u8; BLOCKS],
) -> bool
    requires { Falls parents.now }
    ensures { result ≡ tied parents.now used.now rest.now above.now }
{
    let mut near = [0u8; BLOCKS];
    for k in 0..BLOCKS {
        let over = near[wide(parents[k])];
        if !is_tied(above[k], rest[k], over) {
            return false;
        }
        near[k] = node_or(used[k], k, over);
    }
    true
}

fn is_tied(above: u8, listed: bool, over: u8) -> bool
    ensures { result ≡ eqb above (cond listed over 0) }
{
    if listed {
        return above == over;
    }
    above == 0
}

fn node_or(node: bool, k: usize, over: u8) -> u8
    requires { k < BLOCKS }
    ensures { result ≡ cond node k over }
{
    if node {
        return k as u8;
    }
    over
}
