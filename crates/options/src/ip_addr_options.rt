//! The options of IP address fields.
ghost use Rattle.std.specs.Prelude.{◌≡◌, ◌&&◌, true};
ghost use Rattle.options.specs.Options.{ValueData, default_value, value_or};

use crate::flags::{FastFlag, IndexedFlag, SchemaFlagList, SetsIn, StoredFlag};
use std::marker::Model;
use std::ops::BitOr;

/// The options of an IP address field.
#[derive(Clone, Copy)]
pub struct IpAddrOptions {
    stored: bool,
    indexed: bool,
    fieldnorms: bool,
    fast: bool,
}

impl Model for IpAddrOptions {
    ghost Value = { ValueData };

    ghost view = { λ o. record { stored = o.stored; indexed = o.indexed; fieldnorms = o.fieldnorms; fast = o.fast } };

    ghost inverse = { λ o. record { stored = o.stored; indexed = o.indexed; fieldnorms = o.fieldnorms; fast = o.fast } };
}

impl IpAddrOptions {
    /// Stores values with their documents.
    pub fn set_stored(self) -> Self
        ensures { result ≡ record self { stored = true } }
    {
        IpAddrOptions {
            stored: true,
            ..self
        }
    }

    /// Lets documents be found by their values. No lengths are kept by this alone.
    pub fn set_indexed(self) -> Self
        ensures { result ≡ record self { indexed = true } }
    {
        IpAddrOptions {
            indexed: true,
            ..self
        }
    }

    /// Keeps lengths if the field is indexed: the number of values of each document.
    pub fn set_fieldnorms(self) -> Self
        ensures { result ≡ record self { fieldnorms = true } }
    {
        IpAddrOptions {
            fieldnorms: true,
            ..self
        }
    }

    /// Sets a flag that is kept as data, without effect.
    pub fn set_fast(self) -> Self
        ensures { result ≡ record self { fast = true } }
    {
        IpAddrOptions { fast: true, ..self }
    }

    /// Whether values are stored with their documents.
    pub fn is_stored(&self) -> bool
        ensures { result ≡ self.now.stored }
    {
        self.stored
    }

    /// Whether documents are found by their values.
    pub fn is_indexed(&self) -> bool
        ensures { result ≡ self.now.indexed }
    {
        self.indexed
    }

    /// Whether lengths are kept.
    pub fn fieldnorms(&self) -> bool
        ensures { result ≡ (self.now.indexed && self.now.fieldnorms) }
    {
        self.fieldnorms && self.indexed
    }

    /// Returns what `set_fast` set.
    pub fn is_fast(&self) -> bool
        ensures { result ≡ self.now.fast }
    {
        self.fast
    }
}

impl Default for IpAddrOptions {
    ghost is_default = { λ o. o ≡ default_value };

    fn default() -> IpAddrOptions {
        IpAddrOptions {
            stored: false,
            indexed: false,
            fieldnorms: false,
            fast: false,
        }
    }
}

impl<Other: Into<IpAddrOptions>> BitOr<Other> for IpAddrOptions {
    type Output = IpAddrOptions;

    ghost bitor_gives = { λ a other o. (b : ValueData) × Other.converts other b × (o ≡ value_or a b) };

    fn bitor(self, other: Other) -> IpAddrOptions {
        let other: IpAddrOptions = other.into();
        IpAddrOptions {
            stored: self.stored || other.stored,
            indexed: self.indexed || other.indexed,
            fieldnorms: self.fieldnorms || other.fieldnorms,
            fast: self.fast || other.fast,
        }
    }
}

impl SetsIn<IpAddrOptions> for StoredFlag {
    ghost options_with = { λ _ o. record o { stored = true } };

    fn set_in(self, options: IpAddrOptions) -> IpAddrOptions {
        options.set_stored()
    }
}

impl SetsIn<IpAddrOptions> for IndexedFlag {
    ghost options_with = { λ _ o. record o { indexed = true; fieldnorms = true } };

    fn set_in(self, options: IpAddrOptions) -> IpAddrOptions {
        options.set_indexed().set_fieldnorms()
    }
}

impl SetsIn<IpAddrOptions> for FastFlag {
    ghost options_with = { λ _ o. record o { fast = true } };

    fn set_in(self, options: IpAddrOptions) -> IpAddrOptions {
        options.set_fast()
    }
}

impl From<StoredFlag> for IpAddrOptions {
    ghost from_gives = { λ _ o. o ≡ record default_value { stored = true } };

    fn from(stored: StoredFlag) -> IpAddrOptions {
        stored.set_in(IpAddrOptions::default())
    }
}

impl From<IndexedFlag> for IpAddrOptions {
    ghost from_gives = { λ _ o. o ≡ record default_value { indexed = true; fieldnorms = true } };

    fn from(indexed: IndexedFlag) -> IpAddrOptions {
        indexed.set_in(IpAddrOptions::default())
    }
}

impl From<FastFlag> for IpAddrOptions {
    ghost from_gives = { λ _ o. o ≡ record default_value { fast = true } };

    fn from(fast: FastFlag) -> IpAddrOptions {
        fast.set_in(IpAddrOptions::default())
    }
}

impl<Head: SetsIn<IpAddrOptions>, Tail: SetsIn<IpAddrOptions>> From<SchemaFlagList<Head, Tail>>
    for IpAddrOptions {
    ghost from_gives = { λ flags o. o ≡ Head.options_with flags.head (Tail.options_with flags.tail default_value) };

    fn from(flags: SchemaFlagList<Head, Tail>) -> IpAddrOptions {
        flags.set_in(IpAddrOptions::default())
    }
}
