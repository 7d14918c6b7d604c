//! The options of bytes fields.
ghost use Rattle.std.specs.Prelude.{◌≡◌, ◌&&◌, true};
ghost use Rattle.options.specs.Options.{ValueData, default_value, value_or};

use crate::flags::{FastFlag, IndexedFlag, SchemaFlagList, SetsIn, StoredFlag};
use std::marker::Model;
use std::ops::BitOr;

/// The options of a bytes field.
#[derive(Clone, Copy)]
pub struct BytesOptions {
    stored: bool,
    indexed: bool,
    fieldnorms: bool,
    fast: bool,
}

impl Model for BytesOptions {
    ghost Value = { ValueData };

    ghost view = { λ o. record { stored = o.stored; indexed = o.indexed; fieldnorms = o.fieldnorms; fast = o.fast } };

    ghost inverse = { λ o. record { stored = o.stored; indexed = o.indexed; fieldnorms = o.fieldnorms; fast = o.fast } };
}

impl BytesOptions {
    /// Stores values with their documents.
    pub fn set_stored(self) -> Self
        ensures { result ≡ record self { stored = true } }
    {
        BytesOptions {
            stored: true,
            ..self
        }
    }

    /// Lets documents be found by their values. No lengths are kept by this alone.
    pub fn set_indexed(self) -> Self
        ensures { result ≡ record self { indexed = true } }
    {
        BytesOptions {
            indexed: true,
            ..self
        }
    }

    /// Keeps lengths if the field is indexed: the number of values of each document.
    pub fn set_fieldnorms(self) -> Self
        ensures { result ≡ record self { fieldnorms = true } }
    {
        BytesOptions {
            fieldnorms: true,
            ..self
        }
    }

    /// Sets a flag that is kept as data, without effect.
    pub fn set_fast(self) -> Self
        ensures { result ≡ record self { fast = true } }
    {
        BytesOptions { fast: true, ..self }
    }

    /// Whether values are stored with their documents.
    pub fn is_stored(&self) -> bool
        ensures { result ≡ self.now.stored }
    {
        self.stored
    }

    /// Whether documents are found by their values.
    pub fn is_indexed(&self) -> bool
        ensures { result ≡ self.now.indexed }
    {
        self.indexed
    }

    /// Whether lengths are kept.
    pub fn fieldnorms(&self) -> bool
        ensures { result ≡ (self.now.indexed && self.now.fieldnorms) }
    {
        self.fieldnorms && self.indexed
    }

    /// Returns what `set_fast` set.
    pub fn is_fast(&self) -> bool
        ensures { result ≡ self.now.fast }
    {
        self.fast
    }
}

impl Default for BytesOptions {
    ghost is_default = { λ o. o ≡ default_value };

    fn default() -> BytesOptions {
        BytesOptions {
            stored: false,
            indexed: false,
            fieldnorms: false,
            fast: false,
        }
    }
}

impl<Other: Into<BytesOptions>> BitOr<Other> for BytesOptions {
    type Output = BytesOptions;

    ghost bitor_gives = { λ a other o. (b : ValueData) × Other.converts other b × (o ≡ value_or a b) };

    fn bitor(self, other: Other) -> BytesOptions {
        let other: BytesOptions = other.into();
        BytesOptions {
            stored: self.stored || other.stored,
            indexed: self.indexed || other.indexed,
            fieldnorms: self.fieldnorms || other.fieldnorms,
            fast: self.fast || other.fast,
        }
    }
}

impl SetsIn<BytesOptions> for StoredFlag {
    ghost options_with = { λ _ o. record o { stored = true } };

    fn set_in(self, options: BytesOptions) -> BytesOptions {
        options.set_stored()
    }
}

impl SetsIn<BytesOptions> for IndexedFlag {
    ghost options_with = { λ _ o. record o { indexed = true; fieldnorms = true } };

    fn set_in(self, options: BytesOptions) -> BytesOptions {
        options.set_indexed().set_fieldnorms()
    }
}

impl SetsIn<BytesOptions> for FastFlag {
    ghost options_with = { λ _ o. record o { fast = true } };

    fn set_in(self, options: BytesOptions) -> BytesOptions {
        options.set_fast()
    }
}

impl From<StoredFlag> for BytesOptions {
    ghost from_gives = { λ _ o. o ≡ record default_value { stored = true } };

    fn from(stored: StoredFlag) -> BytesOptions {
        stored.set_in(BytesOptions::default())
    }
}

impl From<IndexedFlag> for BytesOptions {
    ghost from_gives = { λ _ o. o ≡ record default_value { indexed = true; fieldnorms = true } };

    fn from(indexed: IndexedFlag) -> BytesOptions {
        indexed.set_in(BytesOptions::default())
    }
}

impl From<FastFlag> for BytesOptions {
    ghost from_gives = { λ _ o. o ≡ record default_value { fast = true } };

    fn from(fast: FastFlag) -> BytesOptions {
        fast.set_in(BytesOptions::default())
    }
}

impl<Head: SetsIn<BytesOptions>, Tail: SetsIn<BytesOptions>> From<SchemaFlagList<Head, Tail>>
    for BytesOptions {
    ghost from_gives = { λ flags o. o ≡ Head.options_with flags.head (Tail.options_with flags.tail default_value) };

    fn from(flags: SchemaFlagList<Head, Tail>) -> BytesOptions {
        flags.set_in(BytesOptions::default())
    }
}
