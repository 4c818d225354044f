// Tests of columns of numbers, whatever the width of a number and the size of a column.
#![tactic(auto)]

ghost use Rattle.std.specs.Prelude.{◌≡◌, ◌≤◌, ◌<◌, List, ℕ, length, get_or};
ghost use Rattle.columns.specs.Blank.{blank};
ghost use Rattle.lists.specs.Numbers.{plain_reads};
ghost use Rattle.lists.specs.Laid.{none_left, once_each, laid};

// A number that stands in columns, of any width that an index has.
pub trait Number: Copy {
    ghost value: { Self → ℕ };

    // a column's numbers
    ghost numbers: { List Self → List ℕ };

    // The number as an index.
    fn wide(self) -> usize
        ensures { result ≡ value self };

    // what stands at a place of the column is the number there
    ghost reads: { (xs : List Self) (k : ℕ) (x : Self) → k < length xs → get_or xs k x ≡ x → get_or (numbers xs) k 0 ≡ value x };
}

impl Number for u8 {
    ghost value = { λ x. x };

    ghost numbers = { λ xs. xs };

    ghost reads = { plain_reads };

    fn wide(self) -> usize {
        self as usize
    }
}

impl Number for u16 {
    ghost value = { λ x. x };

    ghost numbers = { λ xs. xs };

    ghost reads = { plain_reads };

    fn wide(self) -> usize {
        self as usize
    }
}

impl Number for u32 {
    ghost value = { λ x. x };

    ghost numbers = { λ xs. xs };

    ghost reads = { plain_reads };

    fn wide(self) -> usize {
        self as usize
    }
}

impl Number for u64 {
    ghost value = { λ x. x };

    ghost numbers = { λ xs. xs };

    ghost reads = { plain_reads };

    fn wide(self) -> usize {
        self as usize
    }
}

// Whether the places from `count` on are 0. Every place is looked at, which lets the compiler compare many at once.
pub fn blank<T: Number>(column: &[T], count: usize) -> bool
    requires { count ≤ length column.now }
    ensures { result ≡ blank (T.numbers column.now) count (length column.now) }
{
    let mut clear = true;
    for x in &column[count..] {
        clear = (x.wide() == 0) & clear;
    }
    clear
}

// Whether the first places of a column are the marked ones, once each, and the rest of it is 0.
pub fn laid<T: Number, const N: usize>(places: &[T; N], n: usize, marks: &[bool; N]) -> bool
    requires { n ≤ N }
    ensures { result ≡ laid N (T.numbers places.now) n marks.now }
{
    once_each(places, n, marks) && blank(places, n)
}

// Each place takes its mark away, so that none comes twice and what is left was missed.
fn once_each<T: Number, const N: usize>(places: &[T; N], n: usize, marks: &[bool; N]) -> bool
    requires { n ≤ N }
    ensures { result ≡ once_each N (T.numbers places.now) n marks.now }
{
    let mut left = *marks;
    for place in &places[..n] {
        let at = place.wide();
        if N <= at || !left[at] {
            return false;
        }
        left[at] = false;
    }
    none_left(&left)
}

fn none_left(marks: &[bool]) -> bool
    ensures { result ≡ none_left (length marks.now) marks.now }
{
    !marks.contains(&true)
}
