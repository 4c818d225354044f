// The shape test of a voter set, on lent columns.
#![tactic(auto)]

ghost use Rattle.std.specs.Prelude.{◌≡◌, ◌≤◌, length};
ghost use Rattle.voter_shape.specs.Sound.{rising, non_zero, placed, sound};

use sizes::VOTERS;

// Whether columns of ids and weights, with a count, a threshold and a total, keep the shape rules.
pub fn is_sound<'a>(
    ids: &'a [u32],
    weights: &'a [u64],
    count: usize,
    threshold: u64,
    total: u64,
) -> bool
    ensures { result ≡ sound ids.now weights.now count threshold total }
{
    if !placed(ids, weights, count) {
        return false;
    }
    let Some(sum) = totals::sum(weights) else {
        return false;
    };
    if total != sum {
        return false;
    }
    threshold == grandpa::threshold(total)
}

fn placed<'a>(ids: &'a [u32], weights: &'a [u64], count: usize) -> bool
    ensures { result ≡ placed ids.now weights.now count }
{
    if ids.len() != VOTERS {
        return false;
    }
    if weights.len() != VOTERS {
        return false;
    }
    if VOTERS < count {
        return false;
    }
    if !rising(ids, count) {
        return false;
    }
    if !non_zero(weights, count) {
        return false;
    }
    lists::blank(ids, count) && lists::blank(weights, count)
}

// Every place is looked at, which lets the compiler compare many at once. The places are counted by hand: an id is compared
// with the one before.
fn rising(ids: &[u32], count: usize) -> bool
    requires { count ≤ length ids.now }
    ensures { result ≡ rising ids.now count }
{
    let mut ok = true;
    for k in 1..count {
        ok = (ids[k - 1] < ids[k]) & ok;
    }
    ok
}

// Every place is looked at here too.
fn non_zero(weights: &[u64], count: usize) -> bool
    requires { count ≤ length weights.now }
    ensures { result ≡ non_zero weights.now count }
{
    let mut ok = true;
    for weight in &weights[..count] {
        ok = (*weight != 0) & ok;
    }
    ok
}
