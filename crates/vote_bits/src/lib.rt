// Node bits and equivocator bits as the recorded votes say, tested on lent columns: one sweep up the table joins the bits of first
// votes, since parents are earlier.
#![tactic(auto)]

ghost use Rattle.std.specs.Prelude.{◌≡◌, false, not, ◌||◌};
ghost use Rattle.bitfield.specs.Bits.{has};
ghost use Rattle.nodes.specs.Nodes.{Falls};
ghost use Rattle.vote_bits.specs.Told.{lies, same_bits, told, doubled, Held};

use climbs::wide;
use sizes::{BLOCKS, VOTES, WORDS};

// Whether the bits of every node are the first votes for it and for blocks below it.
pub fn told<'a>(
    parents: &'a [u8; BLOCKS],
    used: &'a [bool; BLOCKS],
    rows: &'a [[u64; WORDS]; BLOCKS],
    counts: &'a [u8; VOTES],
    first_block: &'a [u8; VOTES],
) -> bool
    requires { Falls parents.now }
    ensures { result ≡ told parents.now used.now rows.now counts.now first_block.now }
{
    let mut joined = [[0u64; WORDS]; BLOCKS];
    join_votes(parents, counts, first_block, &mut joined);
    for (x, &node) in used.iter().enumerate() {
        if !is_told(node, rows[x], joined[x]) {
            return false;
        }
    }
    true
}

// Every first vote's bit at its target, and from there in every block above.
fn join_votes<'a>(
    parents: &'a [u8; BLOCKS],
    counts: &'a [u8; VOTES],
    first_block: &'a [u8; VOTES],
    rows: &'a mut [[u64; WORDS]; BLOCKS],
)
    requires { (Falls parents.now) × (Held rows.old (λ x j. false)) }
    ensures { Held rows.new (lies parents.now counts.now first_block.now) }
{
    for (j, &n) in counts.iter().enumerate() {
        if n == 0 {
            continue;
        }
        let at = wide(first_block[j]);
        let bits = rows[at];
        let more = bitfield::set_bit(bits, j);
        rows[at] = more;
    }
    for low in (1..BLOCKS).rev() {
        let over = wide(parents[low]);
        let bits = rows[low];
        let above = rows[over];
        let more = bitfield::merge(above, bits);
        rows[over] = more;
    }
}

fn is_told(node: bool, bits: [u64; WORDS], first: [u64; WORDS]) -> bool
    ensures { result ≡ not node || same_bits bits (has first) }
{
    !node || same_bits(bits, first)
}

fn same_bits(a: [u64; WORDS], b: [u64; WORDS]) -> bool
    ensures { result ≡ same_bits a (has b) }
{
    a == b
}

// Whether the equivocators' bits are those of two pairs.
pub fn doubled(counts: &[u8; VOTES], equivocations: [u64; WORDS]) -> bool
    ensures { result ≡ doubled counts.now equivocations }
{
    let mut bits = [0u64; WORDS];
    for (j, &n) in counts.iter().enumerate() {
        if n <= 1 {
            continue;
        }
        let more = bitfield::set_bit(bits, j);
        bits = more;
    }
    same_bits(equivocations, bits)
}
