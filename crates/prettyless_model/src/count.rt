//! Counts of visits. Printer and probe share it.
ghost use Rattle.std.specs.Prelude.{◌≡◌, ◌+◌, ◌-◌, ◌^◌, ◌≤◌, min};

/// One visit more, in a count that stays at its greatest value.
#[inline]
pub fn one_more(count: u64) -> u64
    ensures one { result ≡ min (count + 1) (2 ^ 64 - 1) }
    ensures rises { count ≤ result }
    ensures at_most { result ≤ count + 1 }
{
    count.saturating_add(1)
}
