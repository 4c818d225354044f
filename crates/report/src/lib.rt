// What a replay prints.
#![tactic(auto)]

ghost use Rattle.std.specs.Prelude.{◌≡◌, ◌++◌, length, drop};
ghost use Rattle.listing.specs.Written.{Lent};
ghost use Rattle.report.specs.Report.{lines_of, printed};

use feeding::Replay;
use journal::Turn;
use refusals::Refusal;

// The lines of a replay, in a lent array. A refused record is the one after those taken.
fn put(replay: Replay, out: &mut [u8; 512]) -> usize
    ensures { (out.new ≡ lines_of replay ++ drop (length (lines_of replay)) out.old) × (result ≡ length (lines_of replay)) }
{
    let journal = replay.journal;
    let tail = replay.rest.count;
    match replay.stop {
        Err(refusal) => lines::put_refused(out, refusal.number(), feeding::more(replay.records, 1)),
        Ok(()) => match journal.turn {
            Turn::Votes => lines::put_round(out, journal.round, tail),
            Turn::Blocks | Turn::Voters => lines::put_no_round(out, tail),
        },
    }
}

// The lines from the start of a lent buffer; the bytes after them stay.
pub fn print(replay: Replay, out: &mut [u8]) -> Result<usize, Refusal>
    ensures { ◌≡◌ {A = Lent} (record { answer = result; bytes = out.new }) (printed replay out.old) }
{
    if !replay.is_replay() {
        return Err(Refusal::Misshapen);
    }
    let mut text = [0u8; 512];
    let size = put(replay, &mut text);
    if out.len() < size {
        return Err(Refusal::ShortBuffer);
    }
    spans::copy(&text[..size], out);
    Ok(size)
}
