//! The numbers of lines.
ghost use Rattle.std.specs.Prelude.{◌≡◌};
ghost use Rattle.std.specs.Str.{bytes_eq};
ghost use Rattle.call_processing.specs.Numbers.{line_called};

use mg_bytes::Text;
use std::marker::Model;

/// The number of each line, in the order of the lines: the digits by which it is dialled. A contract sees their list.
#[derive(Drop)]
pub struct NumberPlan {
    numbers: Vec<Text>,
}

impl Model for NumberPlan {
    ghost use Rattle.std.specs.Prelude.{List, ℕ};

    ghost Value = { List (List ℕ) };

    ghost view = { λ p. p.numbers.items };
}

impl NumberPlan {
    /// A plan with these numbers.
    pub fn of(numbers: Vec<Text>) -> NumberPlan
        ensures { result ≡ numbers.items }
    {
        NumberPlan { numbers }
    }

    /// The line that has this number: of several, the first. `None` where none has it.
    pub fn line_called(&self, digits: &[u8]) -> Option<usize>
        ensures { result ≡ line_called digits.now self.now }
    {
        self.numbers
            .iter()
            .position(|number| is_number(number, digits))
    }
}

fn is_number(number: &Text, digits: &[u8]) -> bool
    ensures { result ≡ bytes_eq number.now digits.now }
{
    number.as_bytes() == digits
}
