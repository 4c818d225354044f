// The lines of a journal, from what its replay tells.
#![tactic(auto)]

ghost use Rattle.std.specs.Prelude.{◌≡◌, ◌++◌, ◌+◌, ◌≤◌, length, drop};
ghost use Rattle.listing.specs.Written.{Lent};
ghost use Rattle.lines.specs.Put.{Put};
ghost use Rattle.summary_lines.specs.Text.{answer_text, round_text, text_of, printed};

use refusals::Refusal;
use summary::{Outcome, Summary};

fn put_answers(
    out: &mut [u8; 512],
    at: usize,
    highest: Option<(u32, u32)>,
    estimate: Option<(u32, u32)>,
    finalized: Option<(u32, u32)>,
    completable: bool,
) -> usize
    requires { at + 163 ≤ 512 }
    ensures { (Put out.old at (answer_text highest estimate finalized completable) out.new result) × (result ≤ at + 163) }
{
    let a = lines::put_block(out, at, b"ghost", highest);
    let b = lines::put_block(out, a, b"estimate", estimate);
    let c = lines::put_block(out, b, b"final", finalized);
    lines::put_completable(out, c, completable)
}

fn put_round(out: &mut [u8; 512], summary: Summary) -> usize
    ensures { (out.new ≡ round_text summary ++ drop (length (round_text summary)) out.old) × (result ≡ length (round_text summary)) }
{
    let heard = summary.heard;
    let a = lines::put_line(out, 0, b"round ", summary.number);
    let b = lines::put_heard(
        out,
        a,
        b"prevote ",
        heard.prevote,
        summary.total,
        summary.threshold,
        summary.prevoters,
    );
    let c = lines::put_heard(
        out,
        b,
        b"precommit ",
        heard.precommit,
        summary.total,
        summary.threshold,
        summary.precommitters,
    );
    let d = put_answers(
        out,
        c,
        summary.prevote,
        summary.estimate,
        summary.finalized,
        summary.completable,
    );
    lines::put_line(out, d, b"tail ", summary.tail as u64)
}

// The lines, in a lent array. A refused record is the one after those taken.
fn put(out: &mut [u8; 512], summary: Summary) -> usize
    ensures { (out.new ≡ text_of summary ++ drop (length (text_of summary)) out.old) × (result ≡ length (text_of summary)) }
{
    match summary.outcome {
        Outcome::Voting => put_round(out, summary),
        Outcome::Early => lines::put_no_round(out, summary.tail),
        Outcome::Refused(refusal) => lines::put_refused(
            out,
            refusal.number(),
            feeding::more(summary.records, 1),
        ),
    }
}

// The lines from the start of a lent buffer; the bytes after them stay.
pub fn print(summary: Summary, out: &mut [u8]) -> Result<usize, Refusal>
    ensures { ◌≡◌ {A = Lent} (record { answer = result; bytes = out.new }) (printed summary out.old) }
{
    let mut text = [0u8; 512];
    let size = put(&mut text, summary);
    if out.len() < size {
        return Err(Refusal::ShortBuffer);
    }
    spans::copy(&text[..size], out);
    Ok(size)
}
