// The shape rules of a vote graph that is handed in, tested on lent columns.
#![tactic(auto)]

ghost use Rattle.std.specs.Prelude.{◌≡◌};
ghost use Rattle.lent.specs.Moment.{before};
ghost use Rattle.nodes.specs.Nodes.{Falls};
ghost use Rattle.nodes.specs.Columns.{graph_at};
ghost use Rattle.graph_shape.specs.Graphed.{counted, others, graphed};

use climbs::wide;
use sizes::{BLOCKS, WORDS};

// Whether the columns of a vote graph keep its shape rules, on a table of `count` blocks by their parents and ids.
pub fn is_graph<'a>(
    parents: &'a [u8; BLOCKS],
    ids: &'a [u32; BLOCKS],
    count: usize,
    base: u8,
    used: &'a [bool; BLOCKS],
    above: &'a [u8; BLOCKS],
    rows: &'a [[u64; WORDS]; BLOCKS],
    order: &'a [u8; BLOCKS],
    listed: usize,
    heads: &'a [u8; BLOCKS],
    tips: usize,
) -> bool
    requires { Falls parents.now }
    ensures { result ≡ graphed parents.now ids.now base count (graph_at before used above rows order listed heads tips) }
{
    if !counted(count, base, used, listed, tips) {
        return false;
    }
    if !graph_sweeps::inside(parents, count, base, used) {
        return false;
    }
    let rest = others(used, base);
    if !graph_sweeps::tied(parents, used, &rest, above) {
        return false;
    }
    if !lists::laid(order, listed, &rest) {
        return false;
    }
    let ends = graph_lists::childless(used, above, order, listed);
    if !lists::laid(heads, tips, &ends) {
        return false;
    }
    if !graph_lists::rising(ids, heads, tips) {
        return false;
    }
    graph_lists::bare(used, rows)
}

fn counted(count: usize, base: u8, used: &[bool; BLOCKS], listed: usize, tips: usize) -> bool
    ensures { result ≡ counted count base used.now listed tips }
{
    if BLOCKS < count {
        return false;
    }
    if BLOCKS < listed {
        return false;
    }
    if BLOCKS < tips {
        return false;
    }
    let at = wide(base);
    if count <= at {
        return false;
    }
    used[at]
}

fn others(used: &[bool; BLOCKS], base: u8) -> [bool; BLOCKS]
    ensures { result ≡ others used.now base }
{
    let mut rest = *used;
    rest[wide(base)] = false;
    rest
}
