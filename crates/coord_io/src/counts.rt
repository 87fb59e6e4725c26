//! Counts of faults.
ghost use Rattle.std.specs.Prelude.{◌≤◌};
ghost use Rattle.coord_io.specs.Faults.{Rose};

/// Counts one more fault. The count stands still at its last value.
pub fn raise(count: &mut u64)
    ensures rose { Rose count.old count.new }
    ensures no_fall { count.old ≤ count.new }
{
    *count = count.saturating_add(1);
}
