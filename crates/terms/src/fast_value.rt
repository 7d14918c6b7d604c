//! Values of eight bytes.

ghost use Rattle.std.specs.Int.{to_be_bytes, w64};
ghost use Rattle.std.specs.Prelude.{◌++◌, ◌≡◌, Some};
ghost use Rattle.definitions.specs.Schema.{Kind, bool_kind, date_kind, i64_kind, u64_kind};
ghost use Rattle.definitions.specs.Terms.{leaf_bytes, type_code, value_bytes};
ghost use Rattle.definitions.specs.Values.{Value, bool, date, i64, u64};
ghost use Rattle.terms.specs.Kinds.{kind_of};

use crate::date_time::{DateTime, whole_seconds};
use crate::field_type::Type;
use crate::sortable::signed_number;

/// A value that is eight bytes in a term: u64, i64, bool or `DateTime`.
pub trait FastValue: Copy {
    /// The value's kind.
    ghost kind: { Kind };

    /// The value in a document.
    ghost value: { Self → Value };

    /// Returns the type whose code comes before the value.
    fn to_type() -> Type
        ensures { kind_of result ≡ kind };

    /// Returns the number whose eight bytes, big-endian, are the value's.
    fn to_u64(self) -> u64
        ensures { value_bytes kind (value self) ≡ Some (to_be_bytes w64 result) };

    /// Returns the type and the number of the value in a JSON object: a whole number that fits i64 is an i64 there.
    fn to_leaf(self) -> (Type, u64)
        ensures { leaf_bytes (value self) ≡ Some (type_code (kind_of result.0) ++ to_be_bytes w64 result.1) };
}

impl FastValue for u64 {
    ghost kind = { u64_kind };

    ghost value = { u64 };

    fn to_type() -> Type {
        Type::U64
    }

    fn to_u64(self) -> u64 {
        self
    }

    fn to_leaf(self) -> (Type, u64) {
        match i64::try_from(self) {
            Ok(signed) => signed.to_leaf(),
            Err(_) => (Type::U64, self),
        }
    }
}

impl FastValue for i64 {
    ghost kind = { i64_kind };

    ghost value = { i64 };

    fn to_type() -> Type {
        Type::I64
    }

    fn to_u64(self) -> u64 {
        signed_number(self)
    }

    fn to_leaf(self) -> (Type, u64) {
        (Type::I64, self.to_u64())
    }
}

impl FastValue for bool {
    ghost kind = { bool_kind };

    ghost value = { bool };

    fn to_type() -> Type {
        Type::Bool
    }

    fn to_u64(self) -> u64 {
        u64::from(self)
    }

    fn to_leaf(self) -> (Type, u64) {
        (Type::Bool, self.to_u64())
    }
}

impl FastValue for DateTime {
    ghost kind = { date_kind };

    ghost value = { date };

    fn to_type() -> Type {
        Type::Date
    }

    fn to_u64(self) -> u64 {
        signed_number(whole_seconds(self.into_timestamp_nanos()))
    }

    fn to_leaf(self) -> (Type, u64) {
        (Type::Date, self.to_u64())
    }
}
