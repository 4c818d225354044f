// Lists of entries of history, as `layouts` has them.
#![tactic(auto)]

use sizes::HISTORY;

// Entries of history in an order, in fixed memory.
#[derive(Clone, Copy)]
pub struct Entries {
    pub entries: [u16; HISTORY],
    pub count: usize,
}
