// For bench/ alone: the votes of a journal by the public calls of a round, which test the whole round each time. Nothing else stands on it.
#![tactic(auto)]

ghost use Rattle.std.specs.Prelude.{◌≡◌, length};

use judging::ImportResult;
use refusals::Refusal;
use round::Round;
use tracker::Pair;

// Counted up to 2^64 - 1, so that no sum has to be shown to fit.
fn counted(count: u64, answer: Result<ImportResult, Refusal>) -> u64 {
    match answer {
        Err(_) => count,
        Ok(_) => count.saturating_add(1),
    }
}

// A vote's target, number and signature.
fn pair(fields: &[u8]) -> Pair
    requires { length fields.now ≡ 22 }
{
    Pair {
        target: marks::word(fields, 6),
        number: marks::word(fields, 10),
        signature: marks::long(fields, 14),
    }
}

// Vote records, one after another; the second byte of a mark tells the phase.
fn votes(opened: Round, bytes: &[u8]) -> u64 {
    let mut round = opened;
    let mut taken = 0u64;
    for record in bytes.chunks_exact(22) {
        let signer = marks::word(record, 2);
        let cast = pair(record);
        if record[1] == b'v' {
            let done = round.import_prevote(signer, cast);
            let answer = done.answer;
            round = done.round;
            taken = counted(taken, answer);
        } else {
            let done = round.import_precommit(signer, cast);
            let answer = done.answer;
            round = done.round;
            taken = counted(taken, answer);
        }
    }
    taken
}

// The bytes before `opened` are replayed; the votes after them are imported, and those that are not refused counted.
pub fn beamtassel_imports(journal: &[u8], opened: usize) -> u64 {
    if journal.len() < opened {
        return 0;
    }
    let replay = feeding::replayed(&journal[..opened]);
    let told = replay.journal;
    votes(told.round, &journal[opened..])
}
