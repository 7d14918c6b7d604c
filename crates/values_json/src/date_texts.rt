//! Dates printed as texts.

ghost use Rattle.std.specs.Prelude.{◌++◌, ◌+ℤ◌, ◌*◌, ◌<◌, ◌^◌, ◌≡◌, IfOk, OnOk, nat_abs, pos, string_bytes};
ghost use Rattle.definitions.specs.Dates.{date_text, fraction_text, nanos_before_1970, time_text};
ghost use Rattle.values_json.specs.DateParts.{civil_text, parts_text};

use crate::civil::{LAST_DAY, days_before, month_and_day, year_of};
use crate::padded_numbers::push_padded;
use std::alloc::{AllocError, Global};
use terms::DateTime;

/// The length of the longest text of a date: a year of four digits, and a fraction of nine.
const MAX_LEN: usize = 30;

/// Prints `date` as `YYYY-MM-DDTHH:MM:SS`, a dot and the fraction's digits without trailing zeros if it isn't zero, and
/// `Z`.
pub fn date_text(alloc: Global, date: DateTime) -> Result<String, AllocError>
    ensures { IfOk result (λ text. string_bytes text ≡ date_text date) }
{
    let mut text = String::with_capacity(alloc, MAX_LEN)?;
    push_instant(&mut text, nanos_from_year_0(date))?;
    Ok(text)
}

/// Returns the nanoseconds since the start of the year 0.
fn nanos_from_year_0(date: DateTime) -> u128
    ensures value { result ≡ nat_abs (date +ℤ pos nanos_before_1970) }
    ensures reached { result < LAST_DAY * (86400 * 10 ^ 9) }
{
    (date.into_timestamp_nanos() as i128 + 62_167_219_200_000_000_000) as u128
}

/// Appends the instant `nanos` nanoseconds after the start of the year 0.
fn push_instant(text: &mut String, nanos: u128) -> Result<(), AllocError>
    requires { nanos < LAST_DAY * (86400 * 10 ^ 9) }
    ensures { OnOk result (string_bytes text.new ≡ string_bytes text.old ++ parts_text nanos) }
{
    push_day(text, (nanos / 86_400_000_000_000) as u32)?;
    text.push_str("T")?;
    push_time(text, (nanos / 1_000_000_000 % 86_400) as u32)?;
    push_fraction(text, (nanos % 1_000_000_000) as u32)?;
    text.push_str("Z")
}

/// Appends the date of `day`; days are numbered from the start of the year 0.
fn push_day(text: &mut String, day: u32) -> Result<(), AllocError>
    requires { day < LAST_DAY }
    ensures { OnOk result (string_bytes text.new ≡ string_bytes text.old ++ civil_text day) }
{
    let year = year_of(day);
    let (month, day_of_month) = month_and_day(year, day - days_before(year));
    push_padded(text, 4, year)?;
    text.push_str("-")?;
    push_padded(text, 2, month)?;
    text.push_str("-")?;
    push_padded(text, 2, day_of_month)
}

/// Appends the time of `second`, in a day.
fn push_time(text: &mut String, second: u32) -> Result<(), AllocError>
    requires { second < 86400 }
    ensures { OnOk result (string_bytes text.new ≡ string_bytes text.old ++ time_text second) }
{
    push_padded(text, 2, second / 3600)?;
    text.push_str(":")?;
    push_padded(text, 2, second / 60 % 60)?;
    text.push_str(":")?;
    push_padded(text, 2, second % 60)
}

/// Appends a dot and the digits of `nanos` without trailing zeros, if they aren't zero.
fn push_fraction(text: &mut String, nanos: u32) -> Result<(), AllocError>
    requires { nanos < 10 ^ 9 }
    ensures { OnOk result (string_bytes text.new ≡ string_bytes text.old ++ fraction_text nanos) }
{
    if nanos == 0 {
        return Ok(());
    }
    let mut digits = nanos;
    let mut width = 9;
    while digits % 10 == 0 {
        digits /= 10;
        width -= 1;
    }
    text.push_str(".")?;
    push_padded(text, width, digits)
}
