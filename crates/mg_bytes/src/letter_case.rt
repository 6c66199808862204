//! Comparison without the case of letters.
ghost use Rattle.std.specs.Prelude.{◌≡◌};
ghost use Rattle.mg_bytes.specs.Case.{same_but_case};

/// Whether two texts are the same up to the case of ASCII letters.
pub fn same_no_case(left: &[u8], right: &[u8]) -> bool
    ensures { result ≡ same_but_case left.now right.now }
{
    left.eq_ignore_ascii_case(right)
}
