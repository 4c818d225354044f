// The calls of `beamtassel` for C and Rust, under the names that include/beamtassel.h declares. Each is the library's call and states its clauses.
#![tactic(auto)]

ghost use Rattle.std.specs.Prelude.{◌≡◌};
ghost use Rattle.beamtassel.specs.Calls.{Call, replay_call, print_call, finalizing_call, two_views_call, version};

// The report in numbers: 22 of eight bytes each.
#[unsafe(no_mangle)]
pub extern "C" fn beamtassel_replay(journal: &[u8], out: &mut [u8]) -> u64
    ensures { ◌≡◌ {A = Call} (record { number = result; out = out.new }) (replay_call journal.now out.old) }
{
    beamtassel::beamtassel_replay(journal, out)
}

// The report in lines.
#[unsafe(no_mangle)]
pub extern "C" fn beamtassel_print(journal: &[u8], out: &mut [u8]) -> u64
    ensures { ◌≡◌ {A = Call} (record { number = result; out = out.new }) (print_call journal.now out.old) }
{
    beamtassel::beamtassel_print(journal, out)
}

// The precommits that finalize, as Pc records.
#[unsafe(no_mangle)]
pub extern "C" fn beamtassel_finalizing(journal: &[u8], out: &mut [u8]) -> u64
    ensures { ◌≡◌ {A = Call} (record { number = result; out = out.new }) (finalizing_call journal.now out.old) }
{
    beamtassel::beamtassel_finalizing(journal, out)
}

// The weight of the voters who precommitted twice in either of two journals of one round, or in both for blocks that differ in id.
#[unsafe(no_mangle)]
pub extern "C" fn beamtassel_two_views(first: &[u8], second: &[u8], out: &mut [u8]) -> u64
    ensures { ◌≡◌ {A = Call} (record { number = result; out = out.new }) (two_views_call first.now second.now out.old) }
{
    beamtassel::beamtassel_two_views(first, second, out)
}

// The library's version: major, minor and patch, of which the last two take three digits each.
#[unsafe(no_mangle)]
pub extern "C" fn beamtassel_version() -> u64
    ensures { result ≡ version 0 2 0 }
{
    beamtassel::beamtassel_version()
}
