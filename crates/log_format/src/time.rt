//! The date and the time of day.
ghost use Rattle.std.specs.Prelude.{◌≡◌, ◌<◌, ◌^◌, ◌++◌};
ghost use Rattle.log_format.specs.TimeOfDay.{two_digits, three_digits, date_of, time_of_day, date_and_time};

use crate::calendar::{month_in, year_in};
use mg_bytes::Draft;

const DAY: u64 = 86_400_000_000;

const HOUR: u64 = 3_600_000_000;

const MINUTE: u64 = 60_000_000;

const SECOND: u64 = 1_000_000;

const MILLISECOND: u64 = 1_000;

#[tactic(auto, unfolding(crate::specs::TimeOfDay::two_digits))]
fn two_digits(number: u64) -> [u8; 2]
    ensures { result ≡ two_digits number }
{
    [b'0' + (number / 10 % 10) as u8, b'0' + (number % 10) as u8]
}

#[tactic(auto, unfolding(crate::specs::TimeOfDay::three_digits))]
fn three_digits(number: u64) -> [u8; 3]
    ensures { result ≡ three_digits number }
{
    [
        b'0' + (number / 100 % 10) as u8,
        b'0' + (number / 10 % 10) as u8,
        b'0' + (number % 10) as u8,
    ]
}

// Puts the date of a day, which is counted from 1 January 1970 on, as `2026-11-27`.
#[tactic(auto, unfolding(crate::specs::TimeOfDay::date_of))]
fn put_date(out: &mut Draft, day: u64)
    requires { day < 2 ^ 32 }
    ensures { out.new ≡ out.old ++ date_of day }
{
    let (year, day) = year_in(day);
    let (month, day) = month_in(year, day);
    out.put(&two_digits(year / 100));
    out.put(&two_digits(year));
    out.put_byte(b'-');
    out.put(&two_digits(month));
    out.put_byte(b'-');
    out.put(&two_digits(day + 1));
}

// Puts the time of day of a moment in microseconds since 1970 began, as `12:03:07.123`.
#[tactic(auto, unfolding(crate::specs::TimeOfDay::time_of_day))]
fn put_time(out: &mut Draft, moment: u64)
    ensures { out.new ≡ out.old ++ time_of_day moment }
{
    out.put(&two_digits(moment / HOUR % 24));
    out.put_byte(b':');
    out.put(&two_digits(moment / MINUTE % 60));
    out.put_byte(b':');
    out.put(&two_digits(moment / SECOND % 60));
    out.put_byte(b'.');
    out.put(&three_digits(moment / MILLISECOND % 1_000));
}

/// Puts the date and the time of day of a moment in microseconds since 1970 began, in UTC, as `2026-11-27T12:03:07.123Z` (RFC 3339, 5.6).
#[tactic(auto, unfolding(crate::specs::TimeOfDay::date_and_time))]
pub(crate) fn put_date_and_time(out: &mut Draft, moment: u64)
    ensures { out.new ≡ out.old ++ date_and_time moment }
{
    put_date(out, moment / DAY);
    out.put_byte(b'T');
    put_time(out, moment);
    out.put_byte(b'Z');
}
