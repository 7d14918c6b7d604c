//! The options of facet fields.
ghost use Rattle.std.specs.Prelude.{◌≡◌, true};
ghost use Rattle.options.specs.Options.{FacetData, default_facet, facet_or};

use crate::flags::{IndexedFlag, SchemaFlagList, SetsIn, StoredFlag};
use std::marker::Model;
use std::ops::BitOr;

/// The options of a facet field. It is always indexed.
#[derive(Clone, Copy)]
pub struct FacetOptions {
    stored: bool,
}

impl Model for FacetOptions {
    ghost Value = { FacetData };

    ghost view = { λ o. record { stored = o.stored } };

    ghost inverse = { λ o. record { stored = o.stored } };
}

impl FacetOptions {
    /// Stores facets with their documents.
    pub fn set_stored(self) -> Self
        ensures { result ≡ record self { stored = true } }
    {
        FacetOptions { stored: true }
    }

    /// Whether facets are stored with their documents.
    pub fn is_stored(&self) -> bool
        ensures { result ≡ self.now.stored }
    {
        self.stored
    }
}

impl Default for FacetOptions {
    ghost is_default = { λ o. o ≡ default_facet };

    fn default() -> FacetOptions {
        FacetOptions { stored: false }
    }
}

impl<Other: Into<FacetOptions>> BitOr<Other> for FacetOptions {
    type Output = FacetOptions;

    ghost bitor_gives = { λ a other o. (b : FacetData) × Other.converts other b × (o ≡ facet_or a b) };

    fn bitor(self, other: Other) -> FacetOptions {
        let other: FacetOptions = other.into();
        FacetOptions {
            stored: self.stored || other.stored,
        }
    }
}

impl SetsIn<FacetOptions> for StoredFlag {
    ghost options_with = { λ _ o. record o { stored = true } };

    fn set_in(self, options: FacetOptions) -> FacetOptions {
        options.set_stored()
    }
}

/// Facet fields are indexed without it.
impl SetsIn<FacetOptions> for IndexedFlag {
    ghost options_with = { λ _ o. o };

    fn set_in(self, options: FacetOptions) -> FacetOptions {
        options
    }
}

impl From<StoredFlag> for FacetOptions {
    ghost from_gives = { λ _ o. o ≡ record default_facet { stored = true } };

    fn from(stored: StoredFlag) -> FacetOptions {
        stored.set_in(FacetOptions::default())
    }
}

impl From<IndexedFlag> for FacetOptions {
    ghost from_gives = { λ _ o. o ≡ default_facet };

    fn from(indexed: IndexedFlag) -> FacetOptions {
        indexed.set_in(FacetOptions::default())
    }
}

impl<Head: SetsIn<FacetOptions>, Tail: SetsIn<FacetOptions>> From<SchemaFlagList<Head, Tail>>
    for FacetOptions {
    ghost from_gives = { λ flags o. o ≡ Head.options_with flags.head (Tail.options_with flags.tail default_facet) };

    fn from(flags: SchemaFlagList<Head, Tail>) -> FacetOptions {
        flags.set_in(FacetOptions::default())
    }
}
