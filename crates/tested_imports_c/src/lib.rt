// For bench/ alone: the call of `tested_imports` under the name that the benchmark links.
#![tactic(auto)]

// The bytes before `opened` are replayed; the votes after them are imported, and those that are not refused counted.
#[unsafe(no_mangle)]
pub extern "C" fn beamtassel_imports(journal: &[u8], opened: usize) -> u64 {
    tested_imports::beamtassel_imports(journal, opened)
}
