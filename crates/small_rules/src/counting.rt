//! Counts.
ghost use Rattle.std.specs.Prelude.{◌≡◌};
ghost use Rattle.small_rules.specs.Counting.{counted};

/// One more; a count stays at its greatest value, 18,446,744,073,709,551,615.
pub fn count(number: &mut u64)
    ensures { number.new ≡ counted number.old 1 }
{
    *number = number.saturating_add(1);
}
