// The sum of a lent column of weights, where it fits.
#![tactic(auto)]

ghost use Rattle.std.specs.Prelude.{◌≡◌};
ghost use Rattle.totals.specs.Totals.{total_of, summed};

pub fn sum(weights: &[u64]) -> Option<u64>
    ensures { result ≡ summed (total_of weights.now) }
{
    let mut total = 0u64;
    for weight in weights {
        total = total.checked_add(*weight)?;
    }
    Some(total)
}
