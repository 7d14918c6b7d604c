//! Days as years, months and days of a month, from the year 0 to the year 2262.

ghost use Rattle.std.specs.Prelude.{◌<◌, ◌+◌, ◌≡◌, ◌≤◌};
ghost use Rattle.definitions.specs.Dates.{days_before, is_leap, month_lengths};
ghost use Rattle.values_json.specs.DateParts.{month_and_day_in};

/// The first day past the range of dates; days are numbered from the start of the year 0.
pub(crate) const LAST_DAY: u32 = 826_280;

/// Returns the number of days before `year`.
pub(crate) fn days_before(year: u32) -> u32
    requires { year ≤ 2264 }
    ensures { result ≡ days_before year }
{
    365 * year + (year + 3) / 4 - (year + 99) / 100 + (year + 399) / 400
}

/// Returns the year of `day`.
pub(crate) fn year_of(day: u32) -> u32
    requires { day < LAST_DAY }
    ensures begins { days_before result ≤ day }
    ensures ends { day < days_before (result + 1) }
    ensures reached { result ≤ 2262 }
{
    // 146097 days are 400 years, so this is off by at most one.
    let year = day * 400 / 146_097;
    if day < days_before(year) {
        year - 1
    } else if days_before(year + 1) <= day {
        year + 1
    } else {
        year
    }
}

/// Returns the number of days of each month of `year`.
fn month_lengths(year: u32) -> [u32; 12]
    ensures { result ≡ month_lengths year }
{
    let february = if is_leap(year) { 29 } else { 28 };
    [31, february, 31, 30, 31, 30, 31, 31, 30, 31, 30, 31]
}

/// Whether `year` has a leap day.
fn is_leap(year: u32) -> bool
    ensures { result ≡ is_leap year }
{
    year % 4 == 0 && (year % 100 != 0 || year % 400 == 0)
}

/// Returns the month and the day of the month, both from 1, of a day of `year`, which is numbered from 0.
pub(crate) fn month_and_day(year: u32, day: u32) -> (u32, u32)
    requires { day < 366 }
    ensures { (result.0, result.1) ≡ month_and_day_in year day }
{
    let mut month = 1;
    let mut left = day;
    for days in &month_lengths(year) {
        if left < *days {
            return (month, left + 1);
        }
        left -= *days;
        month += 1;
    }
    (month, left + 1)
}
