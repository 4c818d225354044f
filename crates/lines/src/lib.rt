// The lines that a replay prints, written from the start of a lent array of 512 bytes; what stands after them stays. A number has at
// most 20 digits, so that no text has more than 432 bytes.
#![tactic(auto)]

ghost use Rattle.std.specs.Prelude.{◌++◌, ◌≡◌, ◌+◌, ◌≤◌, length, drop};
ghost use Rattle.lines.specs.Lines.{decimal, named, line, heard_line, block_end, block_line, completable_line, answer_lines, refused, no_round, round_lines};
ghost use Rattle.lines.specs.Put.{Put};

use answers::Answers;
use context::Phase;
use round::Round;

// Bytes at a place of a buffer.
fn put_in(out: &mut [u8], at: usize, s: &[u8]) -> usize
    requires { at + length s.now ≤ length out.old }
    ensures { Put out.old at s.now out.new result }
{
    spans::copy(s, &mut out[at..]);
    at + s.len()
}

// A part of a lent array is made of it as a slice.
fn put(out: &mut [u8; 512], at: usize, s: &[u8]) -> usize
    requires { at + length s.now ≤ 512 }
    ensures { Put out.old at s.now out.new result }
{
    put_in(out, at, s)
}

fn put_number(out: &mut [u8; 512], at: usize, n: u64) -> usize
    requires { at + 20 ≤ 512 }
    ensures { (Put out.old at (decimal n) out.new result) × (result ≤ at + 20) }
{
    let mut digits = [0u8; 20];
    let k = io::decimal(n, &mut digits);
    put(out, at, &digits[..k])
}

fn put_named(out: &mut [u8; 512], at: usize, word: &[u8], n: u64) -> usize
    requires { at + length word.now + 20 ≤ 512 }
    ensures { (Put out.old at (named word.now n) out.new result) × (result ≤ at + length word.now + 20) }
{
    let a = put(out, at, word);
    put_number(out, a, n)
}

pub fn put_line(out: &mut [u8; 512], at: usize, word: &[u8], n: u64) -> usize
    requires { at + length word.now + 21 ≤ 512 }
    ensures { (Put out.old at (line word.now n) out.new result) × (result ≤ at + length word.now + 21) }
{
    let a = put_named(out, at, word, n);
    put(out, a, b"\n")
}

// Heard weight, total, threshold and voters heard.
pub fn put_heard(
    out: &mut [u8; 512],
    at: usize,
    word: &[u8],
    weight: u64,
    total: u64,
    threshold: u64,
    voters: u32,
) -> usize
    requires { at + length word.now + 99 ≤ 512 }
    ensures { (Put out.old at (heard_line word.now weight total threshold voters) out.new result) × (result ≤ at + length word.now + 99) }
{
    let a = put_named(out, at, word, weight);
    let b = put_named(out, a, b" of ", total);
    let c = put_named(out, b, b" need ", threshold);
    let d = put_named(out, c, b" voters ", voters as u64);
    put(out, d, b"\n")
}

// A block and its number, or none.
fn put_told(out: &mut [u8; 512], at: usize, told: Option<(u32, u32)>) -> usize
    requires { at + 43 ≤ 512 }
    ensures { (Put out.old at (block_end told) out.new result) × (result ≤ at + 43) }
{
    match told {
        Some((id, number)) => {
            let a = put_named(out, at, b" ", id as u64);
            let b = put_named(out, a, b" ", number as u64);
            put(out, b, b"\n")
        }
        None => put(out, at, b" none\n"),
    }
}

pub fn put_block(out: &mut [u8; 512], at: usize, word: &[u8], told: Option<(u32, u32)>) -> usize
    requires { at + length word.now + 43 ≤ 512 }
    ensures { (Put out.old at (block_line word.now told) out.new result) × (result ≤ at + length word.now + 43) }
{
    let a = put(out, at, word);
    put_told(out, a, told)
}

pub fn put_completable(out: &mut [u8; 512], at: usize, completable: bool) -> usize
    requires { at + 16 ≤ 512 }
    ensures { (Put out.old at (completable_line completable) out.new result) × (result ≤ at + 16) }
{
    if completable {
        return put(out, at, b"completable yes\n");
    }
    put(out, at, b"completable no\n")
}

fn put_answers<'a>(
    out: &mut [u8; 512],
    at: usize,
    ids: &'a [u32; 256],
    numbers: &'a [u32; 256],
    answers: Answers,
) -> usize
    requires { at + 163 ≤ 512 }
    ensures { (Put out.old at (answer_lines ids.now numbers.now answers) out.new result) × (result ≤ at + 163) }
{
    let ghost_told = round::block_of(ids, numbers, answers.prevote);
    let estimate_told = round::block_of(ids, numbers, answers.estimate);
    let final_told = round::block_of(ids, numbers, answers.finalized);
    let a = put_block(out, at, b"ghost", ghost_told);
    let b = put_block(out, a, b"estimate", estimate_told);
    let c = put_block(out, b, b"final", final_told);
    put_completable(out, c, answers.completable)
}

// A refusal's number, and the record's, counted from 1.
pub fn put_refused(out: &mut [u8; 512], number: u8, record: u64) -> usize
    ensures { (out.new ≡ refused number «record» ++ drop (length (refused number «record»)) out.old) × (result ≡ length (refused number «record»)) }
{
    let a = put_named(out, 0, b"refused ", number as u64);
    let b = put_named(out, a, b" at ", record);
    put(out, b, b"\n")
}

// An end before the round was opened.
pub fn put_no_round(out: &mut [u8; 512], tail: usize) -> usize
    ensures { (out.new ≡ no_round tail ++ drop (length (no_round tail)) out.old) × (result ≡ length (no_round tail)) }
{
    let a = put(out, 0, b"no round\n");
    put_line(out, a, b"tail ", tail as u64)
}

// Document 01's eight lines of a round.
pub fn put_round(out: &mut [u8; 512], round: Round, tail: usize) -> usize
    ensures { (out.new ≡ round_lines round tail ++ drop (length (round_lines round tail)) out.old) × (result ≡ length (round_lines round tail)) }
{
    let voters = round.context.voters;
    let heard = round.heard;
    let table = round.table;
    let prevoters = round::heard_in(round.graph, Phase::Prevote);
    let precommitters = round::heard_in(round.graph, Phase::Precommit);
    let a = put_line(out, 0, b"round ", round.number);
    let b = put_heard(
        out,
        a,
        b"prevote ",
        heard.prevote,
        voters.total,
        voters.threshold,
        prevoters,
    );
    let c = put_heard(
        out,
        b,
        b"precommit ",
        heard.precommit,
        voters.total,
        voters.threshold,
        precommitters,
    );
    let d = put_answers(out, c, &table.ids, &table.numbers, round.answers);
    put_line(out, d, b"tail ", tail as u64)
}
