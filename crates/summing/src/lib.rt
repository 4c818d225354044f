// What a journal tells, worked out on columns that are lent from turn to turn: the state of the replay is never put together by value,
// which a short journal would spend most of its time on.
#![tactic(auto)]

ghost use Rattle.std.specs.Prelude.{◌≡◌, ◌≤◌, length, take};
ghost use Rattle.sizes.specs.Sizes.{PAIRS};
ghost use Rattle.voter_set.specs.Voters.{new};
ghost use Rattle.block_table.specs.Add.{opened};
ghost use Rattle.held_laws.specs.Kept.{Kept};
ghost use Rattle.lent.specs.Moment.{given_mut, before_mut};
ghost use Rattle.importing.specs.Import.{framed, opened_held};
ghost use Rattle.importing.specs.Lent.{table_at};
ghost use Rattle.marks.specs.declared.Mark.TheVariants.{Rt, Op};
ghost use Rattle.marks.specs.declared.Record.TheVariants.{Whole};
ghost use Rattle.marks.specs.Marks.{read};
ghost use Rattle.nodes.specs.Nodes.{row};
ghost use Rattle.turns.specs.Turns.{pairing, growing, voting, opened_round};
ghost use Rattle.turns.specs.Stands.{Stands};
ghost use Rattle.feeding.specs.Feeding.{replayed};
ghost use Rattle.summary.specs.Summary.{summed};
ghost use Rattle.summing.specs.Summing.{told, of_parts, closed};

use answers::{Answers, Heard};
use context::Phase;
use marks::{End, Mark};
use refusals::Refusal;
use sizes::{BLOCKS, HISTORY, PAIRS, VOTES, WORDS};
use summary::{Outcome, Summary};
use voter_set::VoterSet;

// A round by its parts.
fn of_parts<'a>(
    ids: &'a [u32; BLOCKS],
    numbers: &'a [u32; BLOCKS],
    bits: [u64; WORDS],
    number: u64,
    total: u64,
    threshold: u64,
    heard: Heard,
    answers: Answers,
    records: u64,
    tail: usize,
) -> Summary
    ensures { result ≡ of_parts ids.now numbers.now bits number total threshold heard answers records tail }
{
    let prevote = round::block_of(ids, numbers, answers.prevote);
    let estimate = round::block_of(ids, numbers, answers.estimate);
    let finalized = round::block_of(ids, numbers, answers.finalized);
    let prevoters = context::weighing::heard(bits, Phase::Prevote);
    let precommitters = context::weighing::heard(bits, Phase::Precommit);
    Summary {
        outcome: Outcome::Voting,
        records,
        tail,
        number,
        total,
        threshold,
        heard,
        prevoters,
        precommitters,
        prevote,
        estimate,
        finalized,
        completable: answers.completable,
    }
}

// How the third turn ends. The base's node has every vote.
fn closed<'a>(
    ids: &'a [u32; BLOCKS],
    numbers: &'a [u32; BLOCKS],
    rows: &'a [[u64; WORDS]; BLOCKS],
    base: u8,
    number: u64,
    total: u64,
    threshold: u64,
    heard: Heard,
    answers: Answers,
    records: u64,
    tail: usize,
    end: End,
) -> Summary
    ensures { result ≡ closed end (of_parts ids.now numbers.now (row rows.now base) number total threshold heard answers records tail) records }
{
    match end {
        End::Cut => {
            let at = climbs::wide(base);
            of_parts(
                ids, numbers, rows[at], number, total, threshold, heard, answers, records, tail,
            )
        }
        End::Refused(refusal) => summary::bare(Outcome::Refused(refusal), records, 0),
        End::Left => summary::bare(Outcome::Refused(Refusal::OutOfTurn), records, 0),
    }
}

// The third turn, on a round that was just opened.
fn votes(
    voters: VoterSet,
    ids: &mut [u32; BLOCKS],
    numbers: &mut [u32; BLOCKS],
    parents: &mut [u8; BLOCKS],
    blocks: usize,
    number: u64,
    base: u8,
    records: u64,
    bytes: &[u8],
) -> Summary
    requires { Kept (framed number voters (table_at given_mut ids numbers parents blocks) base) (opened_held base) }
    ensures { result ≡ told records (voting (opened_round number voters (table_at before_mut ids numbers parents blocks) base)) bytes.now }
{
    let mut used = [false; BLOCKS];
    let mut above = [0u8; BLOCKS];
    let mut rows = [[0u64; WORDS]; BLOCKS];
    let mut order = [0u8; BLOCKS];
    let mut heads = [0u8; BLOCKS];
    let mut counts = [0u8; VOTES];
    let mut first_block = [0u8; VOTES];
    let mut first_signature = [0u64; VOTES];
    let mut second_target = [0u32; VOTES];
    let mut second_number = [0u32; VOTES];
    let mut second_signature = [0u64; VOTES];
    let mut entries = [0u16; HISTORY];
    let at = climbs::wide(base);
    used[at] = true;
    heads[0] = base;
    let ran = voting::run(
        &voters.ids,
        &voters.weights,
        voters.count,
        voters.total,
        voters.threshold,
        number,
        ids,
        numbers,
        parents,
        blocks,
        base,
        &mut used,
        &mut above,
        &mut rows,
        &mut order,
        &mut heads,
        &mut counts,
        &mut first_block,
        &mut first_signature,
        &mut second_target,
        &mut second_number,
        &mut second_signature,
        &mut entries,
        importing::blank(),
        bytes,
    );
    closed(
        ids,
        numbers,
        &rows,
        base,
        number,
        voters.total,
        voters.threshold,
        ran.standing.heard,
        ran.standing.answers,
        feeding::more(records, ran.count),
        bytes.len() - ran.at,
        ran.end,
    )
}

// The Op, and what follows it.
fn open(
    voters: VoterSet,
    ids: &mut [u32; BLOCKS],
    numbers: &mut [u32; BLOCKS],
    parents: &mut [u8; BLOCKS],
    blocks: usize,
    records: u64,
    part: &[u8],
) -> Summary
    requires { Stands Kept (growing voters (table_at given_mut ids numbers parents blocks)) × (read part.now ≡ Whole Op) }
    ensures { result ≡ told records (growing voters (table_at before_mut ids numbers parents blocks)) part.now }
{
    let fields = marks::fields(part, Mark::Op);
    let number = marks::long(fields, 0);
    let base = marks::word(fields, 8);
    let Some(place) = blocks::find(ids, blocks, base) else {
        return summary::bare(
            Outcome::Refused(Refusal::UnknownBase),
            feeding::more(records, 0),
            0,
        );
    };
    let seen = feeding::more(records, 1);
    votes(
        voters,
        ids,
        numbers,
        parents,
        blocks,
        number,
        place,
        seen,
        &part[14..],
    )
}

// The second turn, and the third where an Op is among the bytes.
fn grown(voters: VoterSet, root: u32, height: u32, records: u64, bytes: &[u8]) -> Summary
    requires { Stands Kept (growing voters (opened root height)) }
    ensures { result ≡ told records (growing voters (opened root height)) bytes.now }
{
    let table = block_table::new(root, height);
    let mut ids = table.ids;
    let mut numbers = table.numbers;
    let mut parents = table.parents;
    let ran = growing::run(&mut ids, &mut numbers, &mut parents, table.count, bytes);
    let seen = feeding::more(records, ran.count);
    match ran.end {
        End::Left => open(
            voters,
            &mut ids,
            &mut numbers,
            &mut parents,
            ran.blocks,
            seen,
            &bytes[ran.at..],
        ),
        End::Cut => summary::bare(Outcome::Early, seen, bytes.len() - ran.at),
        End::Refused(refusal) => summary::bare(Outcome::Refused(refusal), seen, 0),
    }
}

// The voter set of the pairs so far.
fn make(ids: &[u32], weights: &[u64], count: usize) -> Result<VoterSet, Refusal>
    requires { (count ≤ length ids.now) × (count ≤ length weights.now) }
    ensures { result ≡ new (take count ids.now) (take count weights.now) }
{
    VoterSet::new(&ids[..count], &weights[..count])
}

// The Rt, and what follows it.
fn root(
    ids: &[u32; PAIRS],
    weights: &[u64; PAIRS],
    pairs: usize,
    records: u64,
    part: &[u8],
) -> Summary
    requires { (pairs ≤ PAIRS) × (read part.now ≡ Whole Rt) }
    ensures { result ≡ told records (pairing (record { ids = ids.entry.now; weights = weights.now; count = pairs })) part.now }
{
    let fields = marks::fields(part, Mark::Rt);
    match make(ids, weights, pairs) {
        Err(refusal) => summary::bare(Outcome::Refused(refusal), feeding::more(records, 0), 0),
        Ok(voters) => {
            let first = marks::word(fields, 0);
            let height = marks::word(fields, 4);
            let seen = feeding::more(records, 1);
            grown(voters, first, height, seen, &part[10..])
        }
    }
}

// A whole journal.
pub fn replayed(bytes: &[u8]) -> Summary
    ensures { result ≡ summed (replayed bytes.now) }
{
    let mut ids = [0u32; PAIRS];
    let mut weights = [0u64; PAIRS];
    let ran = pairing::run(&mut ids, &mut weights, 0, bytes);
    let seen = feeding::more(0, ran.count);
    match ran.end {
        End::Left => root(&ids, &weights, ran.pairs, seen, &bytes[ran.at..]),
        End::Cut => summary::bare(Outcome::Early, seen, bytes.len() - ran.at),
        End::Refused(refusal) => summary::bare(Outcome::Refused(refusal), seen, 0),
    }
}
