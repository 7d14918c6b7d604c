//! Numbers and bools read from JSON.

ghost use Rattle.std.specs.Prelude.{◌≡◌};
ghost use Rattle.std.specs.Result.{result_map_both};
ghost use Rattle.definitions.specs.Reading as reading;
ghost use Rattle.definitions.specs.Values as values;
ghost use Rattle.serde_json.specs.View.{number_view};

use definitions::Fault;
use serde_json::Number;

/// Reads the number in `text`: one or more decimal digits, maybe after a `+`. Other texts, and numbers from 2^64 on,
/// are `ParseError`.
pub fn read_u64_text(text: &str) -> Result<u64, Fault>
    ensures { result_map_both values.u64 (λ fault. fault) result ≡ reading.or_parse_error (reading.u64_text text.now) }
{
    match text.parse::<u64>() {
        Ok(value) => Ok(value),
        Err(_) => Err(Fault::ParseError),
    }
}

/// Reads the number in `text`: one or more decimal digits, maybe after a `+` or a `-`. Other texts, and numbers that
/// don't fit in 64 bits, are `ParseError`.
pub fn read_i64_text(text: &str) -> Result<i64, Fault>
    ensures { result_map_both values.i64 (λ fault. fault) result ≡ reading.or_parse_error (reading.i64_text text.now) }
{
    match text.parse::<i64>() {
        Ok(value) => Ok(value),
        Err(_) => Err(Fault::ParseError),
    }
}

/// Reads the bool in `text`: `true` or `false`. Other texts are `ParseError`.
pub fn read_bool_text(text: &str) -> Result<bool, Fault>
    ensures { result_map_both values.bool (λ fault. fault) result
        ≡ reading.or_parse_error (reading.bool_text text.now) }
{
    match text {
        "true" => Ok(true),
        "false" => Ok(false),
        _ => Err(Fault::ParseError),
    }
}

/// Reads a whole number from 0 below 2^64. One below 0 is `OverflowError`, and a float is `FloatValue`.
pub fn read_u64_number(number: &Number) -> Result<u64, Fault>
    ensures { result_map_both values.u64 (λ fault. fault) result ≡ reading.u64_number (number_view number.now) }
{
    match number.as_u64() {
        Some(value) => Ok(value),
        None if number.is_f64() => Err(Fault::FloatValue),
        None => Err(Fault::OverflowError),
    }
}

/// Reads a whole number from -2^63 below 2^63. One from 2^63 on is `OverflowError`, and a float is `FloatValue`.
pub fn read_i64_number(number: &Number) -> Result<i64, Fault>
    ensures { result_map_both values.i64 (λ fault. fault) result ≡ reading.i64_number (number_view number.now) }
{
    match number.as_i64() {
        Some(value) => Ok(value),
        None if number.is_u64() => Err(Fault::OverflowError),
        None => Err(Fault::FloatValue),
    }
}
