// Counts that stay at their end.
ghost use Rattle.std.specs.Prelude.{◌≡◌, ◌≤◌};
ghost use Rattle.rc_outside.specs.Faults.{raised_count};

/// Raises a count by one. At its end, 2^64 - 1, it stays.
pub(crate) fn raise(count: &mut u64)
    ensures raised { count.new ≡ raised_count count.old }
    ensures grown { count.old ≤ count.new }
{
    *count = count.saturating_add(1);
}
