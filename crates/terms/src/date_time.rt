//! Instants.

ghost use Rattle.std.specs.Prelude.{◌≡◌, ℤ};
ghost use Rattle.definitions.specs.Terms.{whole_seconds};

use std::marker::Model;

/// Nanoseconds of a second.
pub const NANOS_PER_SECOND: i64 = 1_000_000_000;

/// An instant: nanoseconds since 1970-01-01T00:00:00Z, negative before it. Instants are ordered by time.
#[derive(Clone, Copy, Debug, PartialEq, Eq, PartialOrd, Ord, Hash)]
pub struct DateTime {
    timestamp_nanos: i64,
}

impl Model for DateTime {
    ghost Value = { ℤ };

    ghost view = { λ d. d.timestamp_nanos };

    ghost inverse = { λ z. record { timestamp_nanos = z } };
}

impl DateTime {
    /// Makes the instant `nanoseconds` after the start of 1970; a negative number is before it.
    pub const fn from_timestamp_nanos(nanoseconds: i64) -> DateTime
        ensures { result ≡ nanoseconds }
    {
        DateTime {
            timestamp_nanos: nanoseconds,
        }
    }

    /// Returns the nanoseconds since the start of 1970.
    pub const fn into_timestamp_nanos(self) -> i64
        ensures { result ≡ self }
    {
        self.timestamp_nanos
    }
}

/// Returns the whole seconds of `nanos`, rounded toward zero: a term of an instant has no more.
pub(crate) fn whole_seconds(nanos: i64) -> i64
    ensures { result ≡ whole_seconds nanos }
{
    nanos / NANOS_PER_SECOND * NANOS_PER_SECOND
}
