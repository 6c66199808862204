//! Numbers as people read them.
ghost use Rattle.std.specs.Prelude.{◌≡◌, ◌++◌};
ghost use Rattle.log_format.specs.Grouping.{comma_before, grouped, number_shown};

use itoa::Buffer;
use mg_bytes::Draft;

fn put_comma(out: &mut Draft, rest: &[u8])
    ensures { out.new ≡ out.old ++ comma_before rest.now }
{
    if rest.len() > 0 && rest.len() % 3 == 0 {
        out.put_byte(b',');
    }
}

#[tactic(auto, unfolding(crate::specs::Grouping::grouped))]
fn put_grouped(out: &mut Draft, digits: &[u8])
    ensures { out.new ≡ out.old ++ grouped digits.now }
{
    let mut rest = digits;
    while let [digit, after @ ..] = rest {
        out.put_byte(*digit);
        put_comma(out, after);
        rest = after;
    }
}

/// Puts a number with a comma before each three of its digits that stand behind others, as `65,535`.
pub fn write_number(out: &mut Draft, number: u64)
    ensures { out.new ≡ out.old ++ number_shown number }
{
    let mut buffer = Buffer::new();
    put_grouped(out, buffer.format(number).as_bytes());
}
