// A journal's replay: as a function on bytes, and as a state that takes bytes piece by piece, so that a journal of any length is replayed in
// constant memory.
#![tactic(auto)]

ghost use Rattle.std.specs.Prelude.{◌≡◌, [], ◌++◌, ◌≤◌, length, take, drop, T};
ghost use Rattle.weights.specs.Weights.{plus};
ghost use Rattle.held_laws.specs.Kept.{Kept};
ghost use Rattle.marks.specs.declared.End.TheVariants.{Cut};
ghost use Rattle.marks.specs.Marks.{read};
ghost use Rattle.turns.specs.Stands.{Stands};
ghost use Rattle.journal.specs.Journal.{told, run_of};
ghost use Rattle.feeding.specs.Feeding.{rest_stands, kept_rest, after_run, started, replayed, went, stands, fed, laid};

use journal::{Journal, Progress};
use marks::{End, Record};
use refusals::Refusal;

// The bytes of a record that is not whole yet; places past the count are not looked at. It is part of a stored replay, in fixed memory.
#[derive(Clone, Copy)]
pub struct Rest {
    pub bytes: [u8; 22],
    pub count: usize,
}

// A replay between two pieces of its journal. A refused record stops it: what was told before stays, and the refused record is the one after
// those taken.
#[derive(Clone, Copy)]
pub struct Replay {
    pub journal: Journal,
    pub rest: Rest,
    pub records: u64,
    pub stop: Result<(), Refusal>,
}

// The answer, and the replay after the call: a `Result` alone would lose the replay.
#[derive(Clone, Copy)]
pub struct Fed {
    pub answer: Result<(), Refusal>,
    pub replay: Replay,
}

// A record's bytes from two pieces, in fixed memory.
#[derive(Clone, Copy)]
pub struct Joint {
    pub bytes: [u8; 44],
    pub count: usize,
}

// Bytes that are left, at most 22.
fn rest_of(left: &[u8]) -> Rest
    requires { length left.now ≤ 22 }
    ensures { result ≡ kept_rest left.now }
{
    let mut kept = [0u8; 22];
    spans::copy(left, &mut kept);
    Rest {
        bytes: kept,
        count: left.len(),
    }
}

// Records are counted up to 2^64 - 1.
pub fn more(records: u64, count: u64) -> u64
    ensures { result ≡ plus records count }
{
    records.saturating_add(count)
}

// The replay after a run over some bytes.
fn after(records: u64, progress: Progress, bytes: &[u8]) -> Replay
    requires { (progress.at ≤ length bytes.now) × (progress.end ≡ Cut → length (drop progress.at bytes.now) ≤ 22) }
    ensures { result ≡ after_run records (run_of progress bytes.now) }
{
    let seen = more(records, progress.count);
    match progress.end {
        End::Cut => {
            let rest = rest_of(&bytes[progress.at..]);
            Replay {
                journal: progress.journal,
                rest,
                records: seen,
                stop: Ok(()),
            }
        }
        End::Refused(refusal) => stopped(progress.journal, seen, refusal),
        End::Left => stopped(progress.journal, seen, Refusal::OutOfTurn),
    }
}

// A refusal stops the replay, and its tail is dropped.
fn stopped(journal: Journal, records: u64, refusal: Refusal) -> Replay
    ensures { result ≡ record { journal = journal; rest = kept_rest []; records = records; stop = Err refusal } }
{
    Replay {
        journal,
        rest: Rest {
            bytes: [0u8; 22],
            count: 0,
        },
        records,
        stop: Err(refusal),
    }
}

// A whole journal.
pub fn replayed(bytes: &[u8]) -> Replay
    ensures { result ≡ replayed bytes.now }
{
    after(0, journal::from_voters(journal::no_pairs(), bytes), bytes)
}

// Bytes that were left, and a part of the next piece behind them. An array's length is known of a parameter.
fn lay(held: [u8; 22], count: usize, part: &[u8]) -> Joint
    requires { (count ≤ 22) × (length part.now ≤ 22) }
    ensures { (result ≡ laid (take count held ++ part.now)) × (length held ≡ 22) }
{
    let mut both = [0u8; 44];
    spans::copy(&held[..count], &mut both);
    spans::copy(part, &mut both[count..]);
    Joint {
        bytes: both,
        count: count + part.len(),
    }
}

// With 22 bytes of a piece at hand any record is whole.
fn join(held: [u8; 22], count: usize, piece: &[u8]) -> Joint
    requires { count ≤ 22 }
    ensures { (result ≡ laid (take count held ++ take 22 piece.now)) × (length held ≡ 22) }
{
    if piece.len() < 22 {
        return lay(held, count, piece);
    }
    lay(held, count, &piece[..22])
}

// A piece behind bytes that were left.
fn across(journal: Journal, rest: Rest, records: u64, piece: &[u8]) -> Replay
    requires { Stands Kept (told journal) × T (rest_stands rest) }
    ensures { result ≡ went journal rest records piece.now }
{
    let joint = join(rest.bytes, rest.count, piece);
    let both = joint.bytes;
    let bytes = &both[..joint.count];
    let first = journal.run(bytes);
    match first.end {
        End::Cut => {
            if first.count == 0 {
                return after(records, first, bytes);
            }
            let part = &piece[first.at - rest.count..];
            after(more(records, first.count), first.journal.run(part), part)
        }
        End::Refused(_) | End::Left => after(records, first, bytes),
    }
}

// The next piece.
fn went(journal: Journal, rest: Rest, records: u64, piece: &[u8]) -> Replay
    requires { Stands Kept (told journal) × T (rest_stands rest) }
    ensures { result ≡ went journal rest records piece.now }
{
    if rest.count == 0 {
        return after(records, journal.run(piece), piece);
    }
    across(journal, rest, records, piece)
}

fn read(held: [u8; 22], count: usize) -> Record
    requires { count ≤ 22 }
    ensures { result ≡ read (take count held) }
{
    marks::read(&held[..count])
}

fn is_rest(rest: Rest) -> bool
    ensures { result ≡ rest_stands rest }
{
    rest.count <= 22 && matches!(read(rest.bytes, rest.count), Record::Cut)
}

impl Replay {
    // Before the first record.
    pub fn new() -> Replay
        ensures { result ≡ started }
    {
        Replay {
            journal: journal::with_pairs(journal::no_pairs()),
            rest: Rest {
                bytes: [0u8; 22],
                count: 0,
            },
            records: 0,
            stop: Ok(()),
        }
    }

    // Whether a state that is handed in can go on.
    pub fn is_replay(self) -> bool
        ensures { result ≡ stands self }
    {
        self.journal.is_journal() && is_rest(self.rest)
    }

    // The next piece of the journal's bytes. A replay that has stopped stays as it is.
    pub fn feed(self, piece: &[u8]) -> Fed
        ensures { result ≡ fed self piece.now }
    {
        if !self.is_replay() {
            return Fed {
                answer: Err(Refusal::Misshapen),
                replay: self,
            };
        }
        match self.stop {
            Err(refusal) => Fed {
                answer: Err(refusal),
                replay: self,
            },
            Ok(()) => {
                let replay = went(self.journal, self.rest, self.records, piece);
                Fed {
                    answer: replay.stop,
                    replay,
                }
            }
        }
    }
}
