// `find_containing_nodes` of vote_graph.rs, on lent columns.
#![tactic(auto)]

ghost use Rattle.std.specs.Prelude.{◌≡◌, ◌≤◌, length};
ghost use Rattle.sizes.specs.Sizes.{BLOCKS};
ghost use Rattle.climbs.specs.Places.{col, Falls};
ghost use Rattle.nodes.specs.Nodes.{placed, found};

use climbs::wide;
use nodes::Places;
use sizes::BLOCKS;

// The nodes whose edge holds a block that has none, by way of the node above each. What an earlier head settled is not
// climbed again.
pub fn find_containing_nodes(
    parents: &[u8; BLOCKS],
    above: &[u8; BLOCKS],
    heads: &[u8],
    block: u8,
) -> Places
    requires { (Falls parents.now) × (Falls above.now) × (length heads.now ≤ BLOCKS) }
    ensures { result ≡ placed (found (col parents.now) (col above.now) heads.now block) }
{
    let mut visited = [false; BLOCKS];
    let mut places = [0u8; BLOCKS];
    let mut count = 0;
    'next: for head in heads {
        let mut node = *head;
        loop {
            if node <= block {
                continue 'next;
            }
            let at = wide(node);
            if visited[at] {
                continue 'next;
            }
            visited[at] = true;
            let over = above[at];
            if block < over {
                node = over;
                continue;
            }
            if !climbs::reaches(parents, block, node) {
                continue 'next;
            }
            places[count] = node;
            count += 1;
            continue 'next;
        }
    }
    Places { places, count }
}
