// The journal's records as bytes: a two-byte mark and fixed fields, little-endian.
#![tactic(auto)]

ghost use Rattle.std.specs.Prelude.{◌≡◌, ◌++◌, ◌≤◌, length, drop};
ghost use Rattle.records.specs.Bytes.{second_mark, fields, vote_bytes};

use context::Phase;
use tracker::Pair;

// The second byte of a vote's mark.
fn mark(phase: Phase) -> u8
    ensures { result ≡ second_mark phase }
{
    match phase {
        Phase::Prevote => b'v',
        Phase::Precommit => b'c',
    }
}

// A record of a mark that begins with 'P', four bytes each of v, t and n, and eight of s.
fn put(out: &mut [u8], second: u8, v: u32, t: u32, n: u32, s: u64)
    requires { 22 ≤ length out.old }
    ensures { out.new ≡ fields second v t n s ++ drop 22 out.old }
{
    out[0] = b'P';
    out[1] = second;
    out[2..6].copy_from_slice(&v.to_le_bytes());
    out[6..10].copy_from_slice(&t.to_le_bytes());
    out[10..14].copy_from_slice(&n.to_le_bytes());
    out[14..22].copy_from_slice(&s.to_le_bytes());
}

// A vote's record, 22 bytes from the start of what is lent; the bytes after it stay.
pub fn put_vote(out: &mut [u8], phase: Phase, voter: u32, pair: Pair)
    requires { 22 ≤ length out.old }
    ensures { out.new ≡ vote_bytes phase voter pair ++ drop 22 out.old }
{
    put(
        out,
        mark(phase),
        voter,
        pair.target,
        pair.number,
        pair.signature,
    );
}
