//! The options of JSON fields.
ghost use Rattle.std.specs.Prelude.{◌≡◌, Some, is_some, true};
ghost use Rattle.std.specs.Option.{option_copied};
ghost use Rattle.options.specs.Options.{HasKnownTokenizer, JsonData, default_json, json_or};

use crate::flags::{FastFlag, SchemaFlagList, SetsIn, StoredFlag};
use crate::text_options::TextFieldIndexing;
use std::alloc::AllocError;
use std::marker::Model;
use std::ops::BitOr;

/// The options of a JSON field.
#[derive(Drop)]
pub struct JsonObjectOptions {
    stored: bool,
    indexing: Option<TextFieldIndexing>,
    fast: bool,
    expand_dots: bool,
}

impl Model for JsonObjectOptions {
    ghost Value = { JsonData };

    ghost view = { λ o. record { stored = o.stored; indexing = o.indexing; fast = o.fast; expand_dots = o.expand_dots } };
}

impl JsonObjectOptions {
    /// Stores objects with their documents.
    pub fn set_stored(self) -> Self
        ensures { result ≡ record self { stored = true } }
    {
        JsonObjectOptions {
            stored: true,
            ..self
        }
    }

    /// Lets documents be found by the leaves of their objects; texts by their tokens. The gap is 1: texts of one path
    /// have no other.
    pub fn set_indexing_options(self, indexing: TextFieldIndexing) -> Self
        requires { indexing.gap ≡ 1 }
        ensures { result ≡ record self { indexing = Some indexing } }
    {
        JsonObjectOptions {
            indexing: Some(indexing),
            ..self
        }
    }

    /// Sets a flag that is kept as data, without effect.
    pub fn set_fast(self) -> Self
        ensures { result ≡ record self { fast = true } }
    {
        JsonObjectOptions { fast: true, ..self }
    }

    /// Lets a dot in a key separate keys.
    pub fn set_expand_dots_enabled(self) -> Self
        ensures { result ≡ record self { expand_dots = true } }
    {
        JsonObjectOptions {
            expand_dots: true,
            ..self
        }
    }

    /// Whether objects are stored with their documents.
    pub fn is_stored(&self) -> bool
        ensures { result ≡ self.now.stored }
    {
        self.stored
    }

    /// Whether documents are found by the leaves of their objects.
    pub fn is_indexed(&self) -> bool
        ensures { result ≡ is_some self.now.indexing }
    {
        self.indexing.is_some()
    }

    /// Returns how texts in objects are indexed; `None` if the field isn't indexed.
    pub fn get_text_indexing_options(&self) -> Option<&TextFieldIndexing>
        ensures { option_copied result ≡ self.now.indexing }
    {
        self.indexing.as_ref()
    }

    /// Returns what `set_fast` set.
    pub fn is_fast(&self) -> bool
        ensures { result ≡ self.now.fast }
    {
        self.fast
    }

    /// Whether a dot in a key separates keys.
    pub fn is_expand_dots_enabled(&self) -> bool
        ensures { result ≡ self.now.expand_dots }
    {
        self.expand_dots
    }
}

impl Default for JsonObjectOptions {
    ghost is_default = { λ o. o ≡ default_json };

    fn default() -> JsonObjectOptions {
        JsonObjectOptions {
            stored: false,
            indexing: None,
            fast: false,
            expand_dots: false,
        }
    }
}

impl Clone for JsonObjectOptions {
    ghost is_clone = { λ o copy. copy ≡ o };

    ghost is_infallible = { λ o. HasKnownTokenizer o.indexing };

    fn clone(&self) -> Result<JsonObjectOptions, AllocError> {
        let indexing = match &self.indexing {
            Some(indexing) => Some(indexing.clone()?),
            None => None,
        };
        Ok(JsonObjectOptions {
            stored: self.stored,
            indexing,
            fast: self.fast,
            expand_dots: self.expand_dots,
        })
    }
}

impl<Other: Into<JsonObjectOptions>> BitOr<Other> for JsonObjectOptions {
    type Output = JsonObjectOptions;

    ghost bitor_gives = { λ a other o. (b : JsonData) × Other.converts other b × (o ≡ json_or a b) };

    fn bitor(self, other: Other) -> JsonObjectOptions {
        let other: JsonObjectOptions = other.into();
        JsonObjectOptions {
            stored: self.stored || other.stored,
            indexing: self.indexing.or(other.indexing),
            fast: self.fast || other.fast,
            expand_dots: self.expand_dots || other.expand_dots,
        }
    }
}

impl SetsIn<JsonObjectOptions> for StoredFlag {
    ghost options_with = { λ _ o. record o { stored = true } };

    fn set_in(self, options: JsonObjectOptions) -> JsonObjectOptions {
        options.set_stored()
    }
}

impl SetsIn<JsonObjectOptions> for FastFlag {
    ghost options_with = { λ _ o. record o { fast = true } };

    fn set_in(self, options: JsonObjectOptions) -> JsonObjectOptions {
        options.set_fast()
    }
}

impl From<StoredFlag> for JsonObjectOptions {
    ghost from_gives = { λ _ o. o ≡ record default_json { stored = true } };

    fn from(stored: StoredFlag) -> JsonObjectOptions {
        stored.set_in(JsonObjectOptions::default())
    }
}

impl From<FastFlag> for JsonObjectOptions {
    ghost from_gives = { λ _ o. o ≡ record default_json { fast = true } };

    fn from(fast: FastFlag) -> JsonObjectOptions {
        fast.set_in(JsonObjectOptions::default())
    }
}

impl<Head: SetsIn<JsonObjectOptions>, Tail: SetsIn<JsonObjectOptions>> From<
    SchemaFlagList<Head, Tail>,
> for JsonObjectOptions {
    ghost from_gives = { λ flags o. o ≡ Head.options_with flags.head (Tail.options_with flags.tail default_json) };

    fn from(flags: SchemaFlagList<Head, Tail>) -> JsonObjectOptions {
        flags.set_in(JsonObjectOptions::default())
    }
}
