//! The Gregorian calendar, from 1970 on.
ghost use Rattle.std.specs.Prelude.{◌≡◌, ◌≤◌};
ghost use Rattle.log_format.specs.Calendar.{is_leap, year_length, month_lengths, year_in, month_in};

// The year that days are counted from, and the first that isn't told.
const FIRST_YEAR: u64 = 1970;

const YEARS_END: u64 = 10_000;

fn is_leap(year: u64) -> bool
    ensures { result ≡ is_leap year }
{
    year % 4 == 0 && (year % 100 != 0 || year % 400 == 0)
}

fn year_length(year: u64) -> u64
    ensures { result ≡ year_length year }
{
    if is_leap(year) { 366 } else { 365 }
}

fn month_lengths(leap: bool) -> [u64; 12]
    ensures { result ≡ month_lengths leap }
{
    let february = if leap { 29 } else { 28 };
    [31, february, 31, 30, 31, 30, 31, 31, 30, 31, 30, 31]
}

/// The year of a day, which is counted from 1 January 1970 on, and how many days of that year stand before it.
pub(crate) fn year_in(day: u64) -> (u64, u64)
    ensures falls { result ≡ year_in 8030 1970 day }
    ensures left { result.1 ≤ day }
{
    let mut left = day;
    for year in FIRST_YEAR..YEARS_END {
        let length = year_length(year);
        if left < length {
            return (year, left);
        }
        left -= length;
    }
    (YEARS_END, left)
}

/// The month of a day of which so many of this year stand before it, from 1 on, and how many days of that month do.
pub(crate) fn month_in(year: u64, day: u64) -> (u64, u64)
    ensures falls { result ≡ month_in (month_lengths (is_leap year)) 1 day }
    ensures left { result.1 ≤ day }
{
    let lengths = month_lengths(is_leap(year));
    let mut left = day;
    let mut month = 1;
    for length in lengths.iter() {
        if left < *length {
            return (month, left);
        }
        left -= *length;
        month += 1;
    }
    (month, left)
}
