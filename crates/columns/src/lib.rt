// Columns of numbers: arrays lent as slices, of which the first `count` places are used.
#![tactic(auto)]

ghost use Rattle.std.specs.Prelude.{◌≡◌, ◌+◌, ◌-◌, ◌≤◌, min, length};
ghost use Rattle.loops.specs.Loop.{first};
ghost use Rattle.loops.specs.All.{any};
ghost use Rattle.columns.specs.Find.{used, is_at, find, contains};

// The first used place where x stands.
pub fn find(column: &[u32], count: usize, x: u32) -> Option<usize>
    ensures { result ≡ find column.now count x }
{
    let end = used(column, count);
    let from = skip(column, end, x);
    let at = column[from..end].iter().position(|y| *y == x)?;
    Some(from + at)
}

// Whether x stands at a used place. Every place is looked at, which lets the compiler compare many at once.
pub fn contains(column: &[u32], count: usize, x: u32) -> bool
    ensures { result ≡ contains column.now count x }
{
    let end = used(column, count);
    let mut seen = false;
    for y in &column[..end] {
        seen = (*y == x) | seen;
    }
    seen
}

fn used(column: &[u32], count: usize) -> usize
    ensures { result ≡ used column.now count }
{
    count.min(column.len())
}

// Places that need not be searched, whole eights of them. They are counted by hand, since the count is the answer.
fn skip(column: &[u32], end: usize, x: u32) -> usize
    requires { end ≤ length column.now }
    ensures { (result ≤ end) × (first (is_at column.now x) Some None end 0 ≡ first (is_at column.now x) Some None (end - result) result) }
{
    let mut from = 0;
    while 8 <= end - from {
        if eight(column, from, x) {
            return from;
        }
        from = from + 8;
    }
    from
}

// Whether x stands at one of eight places, all compared without an early exit.
fn eight(column: &[u32], from: usize, x: u32) -> bool
    requires { from + 8 ≤ length column.now }
    ensures { result ≡ any 8 (λ j. is_at column.now x (from + j)) }
{
    (column[from + 7] == x)
        | ((column[from + 6] == x)
            | ((column[from + 5] == x)
                | ((column[from + 4] == x)
                    | ((column[from + 3] == x)
                        | ((column[from + 2] == x)
                            | ((column[from + 1] == x) | (column[from] == x)))))))
}
