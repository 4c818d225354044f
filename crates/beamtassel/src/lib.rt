// The library that consoles link: calls on journals' bytes and a lent buffer. None asks anything of its caller. `beamtassel_c` exports each for
// C and Rust.
// A call returns how many bytes it wrote from the start of `out`, or 4294967296 and the number of its refusal; then `out` is as it was.
#![tactic(auto)]

ghost use Rattle.std.specs.Prelude.{◌≡◌, ◌+◌, List, ℕ};
ghost use Rattle.feeding.specs.Feeding.{replayed};
ghost use Rattle.beamtassel.specs.Calls.{Call, number_of, has_round, weighed, replay_call, print_call, finalizing_call, compared, two_views_call, version};

use feeding::Replay;
use journal::Turn;
use refusals::Refusal;

// What a call returns.
fn number_of(written: Result<usize, Refusal>) -> u64
    ensures { result ≡ number_of written }
{
    match written {
        Ok(size) => size as u64,
        Err(refusal) => 4294967296 + refusal.number() as u64,
    }
}

// The report in numbers: 22 of eight bytes each.
pub fn beamtassel_replay(journal: &[u8], out: &mut [u8]) -> u64
    ensures { ◌≡◌ {A = Call} (record { number = result; out = out.new }) (replay_call journal.now out.old) }
{
    number_of(figures::write(summing::replayed(journal), out))
}

// The report in lines.
pub fn beamtassel_print(journal: &[u8], out: &mut [u8]) -> u64
    ensures { ◌≡◌ {A = Call} (record { number = result; out = out.new }) (print_call journal.now out.old) }
{
    number_of(summary_lines::print(summing::replayed(journal), out))
}

fn has_round(turn: Turn) -> bool
    ensures { result ≡ has_round turn }
{
    match turn {
        Turn::Votes => true,
        Turn::Blocks => false,
        Turn::Voters => false,
    }
}

// The precommits that finalize, as Pc records.
pub fn beamtassel_finalizing(journal: &[u8], out: &mut [u8]) -> u64
    ensures { ◌≡◌ {A = Call} (record { number = result; out = out.new }) (finalizing_call journal.now out.old) }
{
    number_of(finalizing(journal, out))
}

fn finalizing(journal: &[u8], out: &mut [u8]) -> Result<usize, Refusal>
    ensures { ◌≡◌ {A = Call} (record { number = number_of result; out = out.new }) (finalizing_call journal.now out.old) }
{
    let replay = feeding::replayed(journal);
    replay.stop?;
    if !has_round(replay.journal.turn) {
        return Err(Refusal::NothingFinal);
    }
    replay.journal.round.finalizing_precommits(out)
}

// The sum, in eight bytes.
fn put_weight(weight: u64, out: &mut [u8]) -> Result<usize, Refusal>
    ensures { ◌≡◌ {A = Call} (record { number = number_of result; out = out.new }) (weighed (Ok weight) out.old) }
{
    if out.len() < 8 {
        return Err(Refusal::ShortBuffer);
    }
    figures::put(out, weight);
    Ok(8)
}

// The weight of the voters who precommitted twice in either of two journals of one round, or in both for blocks that differ in id.
pub fn beamtassel_two_views(first: &[u8], second: &[u8], out: &mut [u8]) -> u64
    ensures { ◌≡◌ {A = Call} (record { number = result; out = out.new }) (two_views_call first.now second.now out.old) }
{
    number_of(views(first, second, out))
}

fn views(first: &[u8], second: &[u8], out: &mut [u8]) -> Result<usize, Refusal>
    ensures { ◌≡◌ {A = Call} (record { number = number_of result; out = out.new }) (two_views_call first.now second.now out.old) }
{
    let one = feeding::replayed(first);
    let other = feeding::replayed(second);
    compared(&one, &other, out)
}

// Two replays of one round. Never inlined: what it copies would stand on the stack while the second journal is replayed.
#[inline(never)]
fn compared(one: &Replay, other: &Replay, out: &mut [u8]) -> Result<usize, Refusal>
    requires { (first : List ℕ) × (second : List ℕ) × (one.now ≡ replayed first) × (other.now ≡ replayed second) }
    ensures { ◌≡◌ {A = Call} (record { number = number_of result; out = out.new }) (compared one.now other.now out.old) }
{
    one.stop?;
    other.stop?;
    if !has_round(one.journal.turn) {
        return Err(Refusal::UnlikeViews);
    }
    if !has_round(other.journal.turn) {
        return Err(Refusal::UnlikeViews);
    }
    let weight = two_views::two_views(one.journal.round, other.journal.round)?;
    put_weight(weight, out)
}

// The library's version: major, minor and patch, of which the last two take three digits each.
pub fn beamtassel_version() -> u64
    ensures { result ≡ version 0 2 0 }
{
    2000
}
