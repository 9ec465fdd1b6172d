//! A count of faults, which stands still at the greatest `u64`.

ghost use Rattle.std.specs.Prelude.{◌≡◌, ◌≤◌};
ghost use Rattle.outside_io.specs.Faults.{Rose};
ghost use Rattle.outside_io.specs.Calls.{one_more};

/// Raises the count by one, unless it stands at its last value.
pub(crate) fn raise(count: &mut u64)
    ensures by_one { count.new ≡ one_more count.old }
    ensures never_falls { count.old ≤ count.new }
    ensures rose { Rose count.old count.new }
{
    let before = *count;
    *count = before.saturating_add(1);
}
