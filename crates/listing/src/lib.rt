// Lists of recorded votes, as entries of history.
#![tactic(auto)]

ghost use Rattle.std.specs.Prelude.{◌≡◌, ◌≤◌, ◌<◌};
ghost use Rattle.sizes.specs.Sizes.{VOTERS, VOTES, HISTORY};
ghost use Rattle.loops.specs.Listing.{front, keep};
ghost use Rattle.lent.specs.Moment.{before};
ghost use Rattle.nodes.specs.Nodes.{Falls};
ghost use Rattle.tracker.specs.Votes.{votes_at};
ghost use Rattle.entry_lists.specs.Entries.{Fit, entered};
ghost use Rattle.listing.specs.Entries.{by_voter, phase_in, finalizes, suits, wants};
ghost use Rattle.listing.specs.Written.{chosen, pair_of, record_of, Lent, written};

use context::Phase;
use entry_lists::Entries;
use refusals::Refusal;
use sizes::{BLOCKS, HISTORY, VOTERS, VOTES};
use tracker::{Pair, VoteMultiplicity};

// The votes of a phase; or the precommits that finalize the block at a place. No closure, since the promises of the lists speak of what is wanted.
#[derive(Clone, Copy)]
pub enum Wanted {
    Of(Phase),
    Finalizing(u8),
}

fn phase_in(wanted: Wanted) -> Phase
    ensures { result ≡ phase_in wanted }
{
    match wanted {
        Wanted::Of(phase) => phase,
        Wanted::Finalizing(_) => Phase::Precommit,
    }
}

// A single precommit where it is at or below the block, both of an equivocator always.
fn finalizes<'a>(
    counts: &'a [u8; VOTES],
    first_block: &'a [u8; VOTES],
    parents: &'a [u8; BLOCKS],
    block: u8,
    at: usize,
) -> bool
    requires { (Falls parents.now) × (at < VOTES) }
    ensures { result ≡ finalizes counts.now first_block.now parents.now block at }
{
    if counts[at] != 1 {
        return true;
    }
    climbs::reaches(parents, block, first_block[at])
}

fn suits<'a>(
    counts: &'a [u8; VOTES],
    first_block: &'a [u8; VOTES],
    parents: &'a [u8; BLOCKS],
    wanted: Wanted,
    at: usize,
) -> bool
    requires { (Falls parents.now) × (at < VOTES) }
    ensures { result ≡ suits counts.now first_block.now parents.now wanted at }
{
    match wanted {
        Wanted::Of(_) => true,
        Wanted::Finalizing(block) => finalizes(counts, first_block, parents, block, at),
    }
}

// The wanted entries of the first `size` voters, by rising voter.
pub fn entries_of<'a>(
    counts: &'a [u8; VOTES],
    first_block: &'a [u8; VOTES],
    parents: &'a [u8; BLOCKS],
    size: usize,
    wanted: Wanted,
) -> Entries
    requires { (Falls parents.now) × (size ≤ VOTERS) }
    ensures { result ≡ entered (keep (wants counts.now first_block.now parents.now wanted) (by_voter (phase_in wanted) size)) }
{
    let phase = phase_in(wanted);
    let mut entries = [0u16; HISTORY];
    let mut n = 0;
    for place in 0..size {
        let at = context::index(place, phase);
        let pairs = counts[at];
        if pairs == 0 {
            continue;
        }
        if !suits(counts, first_block, parents, wanted, at) {
            continue;
        }
        entries[n] = layouts::entry(at, 0);
        n = n + 1;
        if pairs == 1 {
            continue;
        }
        entries[n] = layouts::entry(at, 1);
        n = n + 1;
    }
    Entries { entries, count: n }
}

fn chosen(recorded: VoteMultiplicity, later: bool) -> Pair
    ensures { result ≡ chosen recorded later }
{
    match recorded {
        VoteMultiplicity::Silent => Pair {
            target: 0,
            number: 0,
            signature: 0,
        },
        VoteMultiplicity::Single(first) => first,
        VoteMultiplicity::Equivocated(first, second) => {
            if later {
                return second;
            }
            first
        }
    }
}

// The pair of an entry.
fn pair_of<'a>(
    counts: &'a [u8; VOTES],
    first_block: &'a [u8; VOTES],
    first_signature: &'a [u64; VOTES],
    second_target: &'a [u32; VOTES],
    second_number: &'a [u32; VOTES],
    second_signature: &'a [u64; VOTES],
    ids: &'a [u32; BLOCKS],
    numbers: &'a [u32; BLOCKS],
    entry: u16,
) -> Pair
    requires { entry < HISTORY }
    ensures { result ≡ pair_of (votes_at before counts first_block first_signature second_target second_number second_signature) ids.now numbers.now entry }
{
    let recorded = tracker::recorded(
        counts,
        first_block,
        first_signature,
        second_target,
        second_number,
        second_signature,
        ids,
        numbers,
        layouts::entry_index(entry),
    );
    chosen(recorded, layouts::entry_pair(entry) == 1)
}

// The records of entries, from the start of what is lent; the bytes after the last stay.
pub fn write<'a>(
    entries: &'a [u16; HISTORY],
    count: usize,
    counts: &'a [u8; VOTES],
    first_block: &'a [u8; VOTES],
    first_signature: &'a [u64; VOTES],
    second_target: &'a [u32; VOTES],
    second_number: &'a [u32; VOTES],
    second_signature: &'a [u64; VOTES],
    voters: &'a [u32; VOTERS],
    ids: &'a [u32; BLOCKS],
    numbers: &'a [u32; BLOCKS],
    out: &mut [u8],
) -> Result<usize, Refusal>
    requires { (count ≤ HISTORY) × Fit entries.now count }
    ensures { ◌≡◌ {A = Lent} (record { answer = result; bytes = out.new })
        (written (record_of (votes_at before counts first_block first_signature second_target second_number second_signature) voters.now ids.now numbers.now)
        (front count entries.now) out.old) }
{
    if out.len() < 22 * count {
        return Err(Refusal::ShortBuffer);
    }
    let mut used = 0;
    for entry in &entries[..count] {
        let at = layouts::entry_index(*entry);
        let phase = context::phase_at(at);
        let pair = pair_of(
            counts,
            first_block,
            first_signature,
            second_target,
            second_number,
            second_signature,
            ids,
            numbers,
            *entry,
        );
        let place = layouts::index_place(at);
        records::put_vote(&mut out[used..], phase, voters[place], pair);
        used = used + 22;
    }
    Ok(used)
}
