//! Dates read from texts.

ghost use Rattle.std.specs.Prelude.{◌≡◌};
ghost use Rattle.std.specs.Result.{result_map_both};
ghost use Rattle.definitions.specs.Reading.{date_value};
ghost use Rattle.definitions.specs.Values as values;
ghost use Rattle.values_json.specs.Dates.{date_within};

use definitions::Fault;
use jiff::Timestamp;
use terms::DateTime;

/// Reads a date that `jiff` reads as a timestamp. Other texts are `ParseError`; a date that 64 bits of nanoseconds
/// don't reach is `OverflowError`.
pub fn read_date(text: &str) -> Result<DateTime, Fault>
    ensures { result_map_both values.date (λ fault. fault) result ≡ date_value text.now }
{
    match text.parse::<Timestamp>() {
        Ok(timestamp) => date_within(timestamp.as_nanosecond()),
        Err(_) => Err(Fault::ParseError),
    }
}

/// Makes the date `nanos` nanoseconds after the start of 1970.
fn date_within(nanos: i128) -> Result<DateTime, Fault>
    ensures { result_map_both values.date (λ fault. fault) result ≡ date_within nanos }
{
    match i64::try_from(nanos) {
        Ok(nanos) => Ok(DateTime::from_timestamp_nanos(nanos)),
        Err(_) => Err(Fault::OverflowError),
    }
}
