//! A law of endpoint names: what is written of one is read again.
ghost use Rattle.std.specs.Prelude.{◌≡◌, ℕ, ◌<◌, ◌≤◌, ◌^◌, List, Ok};
ghost use Rattle.endpoint_names.specs.Name.{name_text, name_of};

use crate::name::Pattern;

/// The name that is written of a line from 1 to the number of lines, of all lines or of any one is read as that, on the
/// gateway with the same domain, whatever the domain.
pub fn a_written_name_is_read_again()
    ensures line { (line lines : ℕ) (domain : List ℕ) → 1 ≤ line → line ≤ lines → lines < 2 ^ 16 →
        name_of (name_text (Pattern.One line) domain) domain lines ≡ Ok (Pattern.One line) }
    ensures all { (lines : ℕ) (domain : List ℕ) → name_of (name_text Pattern.All domain) domain lines ≡ Ok Pattern.All }
    ensures any { (lines : ℕ) (domain : List ℕ) → name_of (name_text Pattern.Any domain) domain lines ≡ Ok Pattern.Any }
{}
