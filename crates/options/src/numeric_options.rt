//! The options of number and bool fields.
ghost use Rattle.std.specs.Prelude.{◌≡◌, ◌&&◌, true};
ghost use Rattle.options.specs.Options.{NumericData, default_numeric, numeric_or};

use crate::flags::{CoerceFlag, FastFlag, IndexedFlag, SchemaFlagList, SetsIn, StoredFlag};
use std::marker::Model;
use std::ops::BitOr;

/// The options of a number or bool field.
#[derive(Clone, Copy)]
pub struct NumericOptions {
    stored: bool,
    indexed: bool,
    fieldnorms: bool,
    fast: bool,
    coerce: bool,
}

impl Model for NumericOptions {
    ghost Value = { NumericData };

    ghost view = { λ o. record { stored = o.stored; indexed = o.indexed; fieldnorms = o.fieldnorms; fast = o.fast; coerce = o.coerce } };

    ghost inverse = { λ o. record { stored = o.stored; indexed = o.indexed; fieldnorms = o.fieldnorms; fast = o.fast; coerce = o.coerce } };
}

impl NumericOptions {
    /// Stores values with their documents.
    pub fn set_stored(self) -> Self
        ensures { result ≡ record self { stored = true } }
    {
        NumericOptions {
            stored: true,
            ..self
        }
    }

    /// Lets documents be found by their values. No lengths are kept by this alone.
    pub fn set_indexed(self) -> Self
        ensures { result ≡ record self { indexed = true } }
    {
        NumericOptions {
            indexed: true,
            ..self
        }
    }

    /// Keeps lengths if the field is indexed: the number of values of each document.
    pub fn set_fieldnorm(self) -> Self
        ensures { result ≡ record self { fieldnorms = true } }
    {
        NumericOptions {
            fieldnorms: true,
            ..self
        }
    }

    /// Sets a flag that is kept as data, without effect.
    pub fn set_fast(self) -> Self
        ensures { result ≡ record self { fast = true } }
    {
        NumericOptions { fast: true, ..self }
    }

    /// Reads values from texts, too.
    pub fn set_coerce(self) -> Self
        ensures { result ≡ record self { coerce = true } }
    {
        NumericOptions {
            coerce: true,
            ..self
        }
    }

    /// Whether values are stored with their documents.
    pub fn is_stored(&self) -> bool
        ensures { result ≡ self.now.stored }
    {
        self.stored
    }

    /// Whether documents are found by their values.
    pub fn is_indexed(&self) -> bool
        ensures { result ≡ self.now.indexed }
    {
        self.indexed
    }

    /// Whether lengths are kept.
    pub fn fieldnorms(&self) -> bool
        ensures { result ≡ (self.now.indexed && self.now.fieldnorms) }
    {
        self.fieldnorms && self.indexed
    }

    /// Returns what `set_fast` set.
    pub fn is_fast(&self) -> bool
        ensures { result ≡ self.now.fast }
    {
        self.fast
    }

    /// Whether values are read from texts, too.
    pub fn should_coerce(&self) -> bool
        ensures { result ≡ self.now.coerce }
    {
        self.coerce
    }
}

impl Default for NumericOptions {
    ghost is_default = { λ o. o ≡ default_numeric };

    fn default() -> NumericOptions {
        NumericOptions {
            stored: false,
            indexed: false,
            fieldnorms: false,
            fast: false,
            coerce: false,
        }
    }
}

impl<Other: Into<NumericOptions>> BitOr<Other> for NumericOptions {
    type Output = NumericOptions;

    ghost bitor_gives = { λ a other o. (b : NumericData) × Other.converts other b × (o ≡ numeric_or a b) };

    fn bitor(self, other: Other) -> NumericOptions {
        let other: NumericOptions = other.into();
        NumericOptions {
            stored: self.stored || other.stored,
            indexed: self.indexed || other.indexed,
            fieldnorms: self.fieldnorms || other.fieldnorms,
            fast: self.fast || other.fast,
            coerce: self.coerce || other.coerce,
        }
    }
}

impl SetsIn<NumericOptions> for StoredFlag {
    ghost options_with = { λ _ o. record o { stored = true } };

    fn set_in(self, options: NumericOptions) -> NumericOptions {
        options.set_stored()
    }
}

impl SetsIn<NumericOptions> for IndexedFlag {
    ghost options_with = { λ _ o. record o { indexed = true; fieldnorms = true } };

    fn set_in(self, options: NumericOptions) -> NumericOptions {
        options.set_indexed().set_fieldnorm()
    }
}

impl SetsIn<NumericOptions> for FastFlag {
    ghost options_with = { λ _ o. record o { fast = true } };

    fn set_in(self, options: NumericOptions) -> NumericOptions {
        options.set_fast()
    }
}

impl SetsIn<NumericOptions> for CoerceFlag {
    ghost options_with = { λ _ o. record o { coerce = true } };

    fn set_in(self, options: NumericOptions) -> NumericOptions {
        options.set_coerce()
    }
}

impl From<StoredFlag> for NumericOptions {
    ghost from_gives = { λ _ o. o ≡ record default_numeric { stored = true } };

    fn from(stored: StoredFlag) -> NumericOptions {
        stored.set_in(NumericOptions::default())
    }
}

impl From<IndexedFlag> for NumericOptions {
    ghost from_gives = { λ _ o. o ≡ record default_numeric { indexed = true; fieldnorms = true } };

    fn from(indexed: IndexedFlag) -> NumericOptions {
        indexed.set_in(NumericOptions::default())
    }
}

impl From<FastFlag> for NumericOptions {
    ghost from_gives = { λ _ o. o ≡ record default_numeric { fast = true } };

    fn from(fast: FastFlag) -> NumericOptions {
        fast.set_in(NumericOptions::default())
    }
}

impl From<CoerceFlag> for NumericOptions {
    ghost from_gives = { λ _ o. o ≡ record default_numeric { coerce = true } };

    fn from(coerce: CoerceFlag) -> NumericOptions {
        coerce.set_in(NumericOptions::default())
    }
}

impl<Head: SetsIn<NumericOptions>, Tail: SetsIn<NumericOptions>> From<SchemaFlagList<Head, Tail>>
    for NumericOptions {
    ghost from_gives = { λ flags o. o ≡ Head.options_with flags.head (Tail.options_with flags.tail default_numeric) };

    fn from(flags: SchemaFlagList<Head, Tail>) -> NumericOptions {
        flags.set_in(NumericOptions::default())
    }
}

impl<Flag: SetsIn<NumericOptions>> BitOr<NumericOptions> for SchemaFlagList<Flag, ()> {
    type Output = NumericOptions;

    ghost bitor_gives = { λ flag b o. o ≡ numeric_or (Flag.options_with flag.head default_numeric) b };

    fn bitor(self, options: NumericOptions) -> NumericOptions {
        NumericOptions::from(self) | options
    }
}
