//! Why a text isn't read as a query.

ghost use Rattle.std.specs.Prelude.{◌≡◌};
ghost use Rattle.query_text.specs.declared.refusal.Reason.TheVariants.{OutOfMemory};

use std::alloc::{AllocError, AllocFailed};

/// Why a text isn't read as a query.
#[derive(Clone, Copy, Debug, PartialEq, Eq)]
pub enum Reason {
    /// A request for memory was refused.
    OutOfMemory,
    /// A quotation mark isn't closed.
    UnclosedQuote,
    /// An opening parenthesis isn't closed.
    UnclosedGroup,
    /// A closing parenthesis closes none.
    StrayClose,
    /// Nothing stands in the text, in parentheses, or on a side of `OR`.
    Nothing,
    /// Nothing stands behind a `+`, a `-` or a field's name.
    NothingMarked,
    /// A field's name stands before a parenthesis.
    FieldOfGroup,
    /// Something stands right beside a phrase or a parenthesis that is no part of it.
    NoSpace,
    /// What stands behind `^` or `~` is no number below 2^32.
    BadNumber,
    /// `AND` or `NOT` stands where it has nothing to stand between or before, or `NOT` before a mark.
    StrayOperator,
    /// An operator of other grammars stands there: `!`, `&&` or `||`.
    ForeignOperator,
    /// Parentheses are nested too deep.
    TooDeep,
    /// A prefix stands by itself.
    LonePrefix,
    /// A letter of a word is left open by `?`.
    Wildcard,
    /// `~` stands in a word.
    Fuzzy,
    /// A phrase that ends in a prefix has a slop.
    SlopOfPrefix,
    /// Bytes are no UTF-8.
    NotUtf8,
    /// The schema has no field of that name.
    UnknownField,
    /// No field is named, and the schema has no text field that is indexed.
    NoTextField,
    /// The text has no word that is found by itself.
    NoWord,
    /// The text has no word, since letters and digits go on for more than 40 bytes.
    LongWord,
    /// Words beside each other are asked for in a field that records no positions.
    NoPositions,
    /// The text is no value of the field's type.
    BadValue,
    /// A field of JSON objects is named without a path of keys.
    NoPath,
    /// A range of values stands behind a field's name.
    Range,
}

/// Why a text isn't read as a query, and the offset of the byte where that is seen.
#[derive(Clone, Copy, Debug, PartialEq, Eq)]
pub struct Refusal {
    pub reason: Reason,
    pub place: usize,
}

impl From<AllocError> for Reason {
    ghost from_gives = { λ _ reason. reason ≡ OutOfMemory };

    fn from(_: AllocError) -> Self {
        Reason::OutOfMemory
    }
}

impl<T: Drop> From<AllocFailed<T>> for Reason {
    ghost from_gives = { λ _ reason. reason ≡ OutOfMemory };

    fn from(_: AllocFailed<T>) -> Self {
        Reason::OutOfMemory
    }
}

impl From<AllocError> for Refusal {
    ghost from_gives = { λ _ refusal. refusal.reason ≡ OutOfMemory };

    fn from(_: AllocError) -> Self {
        Refusal {
            reason: Reason::OutOfMemory,
            place: 0,
        }
    }
}

impl<T: Drop> From<AllocFailed<T>> for Refusal {
    ghost from_gives = { λ _ refusal. refusal.reason ≡ OutOfMemory };

    fn from(_: AllocFailed<T>) -> Self {
        Refusal {
            reason: Reason::OutOfMemory,
            place: 0,
        }
    }
}
