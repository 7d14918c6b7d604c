//! The options of text fields.
ghost use Rattle.std.specs.Prelude.{◌≡◌, ◌≤◌, IfOk, IsOk, true};
ghost use Rattle.std.specs.Cow.{IsBorrowedStr, cow_str_bytes};
ghost use Rattle.std.specs.Option.{option_copied};
ghost use Rattle.definitions.specs.Schema.{max_gap};
ghost use Rattle.options.specs.Options.{HasKnownTokenizer, Indexing, IsKnownTokenizer, TextData, default_indexing, default_text, text_or};
ghost use Rattle.options.specs.RecordOption.{record_option_of};

use crate::flags::{CoerceFlag, FastFlag, SchemaFlagList, SetsIn, StoredFlag};
use crate::index_record_option::IndexRecordOption;
use std::alloc::{AllocError, Global};
use std::borrow::CowStr;
use std::marker::Model;
use std::ops::BitOr;

/// How a text field is indexed.
#[derive(Drop)]
pub struct TextFieldIndexing {
    tokenizer: CowStr<'static>,
    fieldnorms: bool,
    index_option: IndexRecordOption,
    gap: u32,
}

impl Model for TextFieldIndexing {
    ghost Value = { Indexing };

    ghost view = { λ i. record { tokenizer = cow_str_bytes i.tokenizer; fieldnorms = i.fieldnorms; record_option = record_option_of i.index_option; gap = i.gap } };

    // The names of the two analyzers that are always available take no memory.
    ghost invariant = { λ i. IsKnownTokenizer (cow_str_bytes i.tokenizer) → IsBorrowedStr i.tokenizer };
}

impl TextFieldIndexing {
    /// Sets the name of the analyzer of the texts. Names other than `raw` and `default` are copied.
    pub fn set_tokenizer(self, alloc: Global, name: &str) -> Result<Self, AllocError>
        ensures ok { IfOk result (λ i. i ≡ record self { tokenizer = name.now }) }
        ensures succeeds { IsKnownTokenizer name.now → IsOk result }
    {
        let tokenizer = match name {
            "raw" => CowStr::Borrowed("raw"),
            "default" => CowStr::Borrowed("default"),
            _ => CowStr::Owned(String::from_str(alloc, name)?),
        };
        Ok(TextFieldIndexing { tokenizer, ..self })
    }

    /// Returns the name of the analyzer.
    pub fn tokenizer(&self) -> &str
        ensures { result.now ≡ self.now.tokenizer }
    {
        self.tokenizer.as_str()
    }

    /// Sets whether lengths are kept: the number of tokens of each document.
    pub fn set_fieldnorms(self, fieldnorms: bool) -> Self
        ensures { result ≡ record self { fieldnorms = fieldnorms } }
    {
        TextFieldIndexing { fieldnorms, ..self }
    }

    /// Whether lengths are kept.
    pub fn fieldnorms(&self) -> bool
        ensures { result ≡ self.now.fieldnorms }
    {
        self.fieldnorms
    }

    /// Sets what is recorded of the field's terms.
    pub fn set_index_option(self, index_option: IndexRecordOption) -> Self
        ensures { result ≡ record self { record_option = record_option_of index_option } }
    {
        TextFieldIndexing {
            index_option,
            ..self
        }
    }

    /// Returns what is recorded of the field's terms.
    pub fn index_option(&self) -> IndexRecordOption
        ensures { record_option_of result ≡ self.now.record_option }
    {
        self.index_option
    }

    /// Sets how many positions are left out between two values of a text field: at most 1000.
    pub fn set_gap(self, gap: u32) -> Self
        requires { gap ≤ max_gap }
        ensures { result ≡ record self { gap = gap } }
    {
        TextFieldIndexing { gap, ..self }
    }

    /// Returns how many positions are left out between two values of a text field.
    pub fn gap(&self) -> u32
        ensures { result ≡ self.now.gap }
    {
        self.gap
    }
}

impl Default for TextFieldIndexing {
    ghost is_default = { λ i. i ≡ default_indexing };

    fn default() -> TextFieldIndexing {
        TextFieldIndexing {
            tokenizer: CowStr::Borrowed("default"),
            fieldnorms: true,
            index_option: IndexRecordOption::Basic,
            gap: 1,
        }
    }
}

impl Clone for TextFieldIndexing {
    ghost is_clone = { λ i copy. copy ≡ i };

    ghost is_infallible = { λ i. IsKnownTokenizer i.tokenizer };

    fn clone(&self) -> Result<TextFieldIndexing, AllocError> {
        let tokenizer = match &self.tokenizer {
            CowStr::Borrowed(name) => CowStr::Borrowed(*name),
            CowStr::Owned(name) => CowStr::Owned(name.clone()?),
        };
        Ok(TextFieldIndexing {
            tokenizer,
            fieldnorms: self.fieldnorms,
            index_option: self.index_option,
            gap: self.gap,
        })
    }
}

/// The options of a text field.
#[derive(Drop)]
pub struct TextOptions {
    stored: bool,
    indexing: Option<TextFieldIndexing>,
    fast: bool,
    coerce: bool,
}

impl Model for TextOptions {
    ghost Value = { TextData };

    ghost view = { λ o. record { stored = o.stored; indexing = o.indexing; fast = o.fast; coerce = o.coerce } };
}

impl TextOptions {
    /// Stores texts with their documents.
    pub fn set_stored(self) -> Self
        ensures { result ≡ record self { stored = true } }
    {
        TextOptions {
            stored: true,
            ..self
        }
    }

    /// Whether texts are stored with their documents.
    pub fn is_stored(&self) -> bool
        ensures { result ≡ self.now.stored }
    {
        self.stored
    }

    /// Lets documents be found by the tokens of their texts.
    pub fn set_indexing_options(self, indexing: TextFieldIndexing) -> Self
        ensures { result ≡ record self { indexing = Some indexing } }
    {
        TextOptions {
            indexing: Some(indexing),
            ..self
        }
    }

    /// Returns how the field is indexed; `None` if it isn't.
    pub fn get_indexing_options(&self) -> Option<&TextFieldIndexing>
        ensures { option_copied result ≡ self.now.indexing }
    {
        self.indexing.as_ref()
    }

    /// Sets a flag that is kept as data, without effect.
    pub fn set_fast(self) -> Self
        ensures { result ≡ record self { fast = true } }
    {
        TextOptions { fast: true, ..self }
    }

    /// Returns what `set_fast` set.
    pub fn is_fast(&self) -> bool
        ensures { result ≡ self.now.fast }
    {
        self.fast
    }

    /// Reads texts from whole numbers, bools and null, too.
    pub fn set_coerce(self) -> Self
        ensures { result ≡ record self { coerce = true } }
    {
        TextOptions {
            coerce: true,
            ..self
        }
    }

    /// Whether texts are read from whole numbers, bools and null, too.
    pub fn should_coerce(&self) -> bool
        ensures { result ≡ self.now.coerce }
    {
        self.coerce
    }
}

impl Default for TextOptions {
    ghost is_default = { λ o. o ≡ default_text };

    fn default() -> TextOptions {
        TextOptions {
            stored: false,
            indexing: None,
            fast: false,
            coerce: false,
        }
    }
}

impl Clone for TextOptions {
    ghost is_clone = { λ o copy. copy ≡ o };

    ghost is_infallible = { λ o. HasKnownTokenizer o.indexing };

    fn clone(&self) -> Result<TextOptions, AllocError> {
        let indexing = match &self.indexing {
            Some(indexing) => Some(indexing.clone()?),
            None => None,
        };
        Ok(TextOptions {
            stored: self.stored,
            indexing,
            fast: self.fast,
            coerce: self.coerce,
        })
    }
}

impl<Other: Into<TextOptions>> BitOr<Other> for TextOptions {
    type Output = TextOptions;

    ghost bitor_gives = { λ a other o. (b : TextData) × Other.converts other b × (o ≡ text_or a b) };

    fn bitor(self, other: Other) -> TextOptions {
        let other: TextOptions = other.into();
        TextOptions {
            stored: self.stored || other.stored,
            indexing: self.indexing.or(other.indexing),
            fast: self.fast || other.fast,
            coerce: self.coerce || other.coerce,
        }
    }
}

impl SetsIn<TextOptions> for StoredFlag {
    ghost options_with = { λ _ o. record o { stored = true } };

    fn set_in(self, options: TextOptions) -> TextOptions {
        options.set_stored()
    }
}

impl SetsIn<TextOptions> for FastFlag {
    ghost options_with = { λ _ o. record o { fast = true } };

    fn set_in(self, options: TextOptions) -> TextOptions {
        options.set_fast()
    }
}

impl SetsIn<TextOptions> for CoerceFlag {
    ghost options_with = { λ _ o. record o { coerce = true } };

    fn set_in(self, options: TextOptions) -> TextOptions {
        options.set_coerce()
    }
}

impl From<StoredFlag> for TextOptions {
    ghost from_gives = { λ _ o. o ≡ record default_text { stored = true } };

    fn from(stored: StoredFlag) -> TextOptions {
        stored.set_in(TextOptions::default())
    }
}

impl From<FastFlag> for TextOptions {
    ghost from_gives = { λ _ o. o ≡ record default_text { fast = true } };

    fn from(fast: FastFlag) -> TextOptions {
        fast.set_in(TextOptions::default())
    }
}

impl From<CoerceFlag> for TextOptions {
    ghost from_gives = { λ _ o. o ≡ record default_text { coerce = true } };

    fn from(coerce: CoerceFlag) -> TextOptions {
        coerce.set_in(TextOptions::default())
    }
}

impl<Head: SetsIn<TextOptions>, Tail: SetsIn<TextOptions>> From<SchemaFlagList<Head, Tail>>
    for TextOptions {
    ghost from_gives = { λ flags o. o ≡ Head.options_with flags.head (Tail.options_with flags.tail default_text) };

    fn from(flags: SchemaFlagList<Head, Tail>) -> TextOptions {
        flags.set_in(TextOptions::default())
    }
}

impl<Flag: SetsIn<TextOptions>> BitOr<TextOptions> for SchemaFlagList<Flag, ()> {
    type Output = TextOptions;

    ghost bitor_gives = { λ flag b o. o ≡ text_or (Flag.options_with flag.head default_text) b };

    fn bitor(self, options: TextOptions) -> TextOptions {
        TextOptions::from(self) | options
    }
}

/// A text field that is found by the tokens of `default`, with positions and lengths. Not stored.
pub const TEXT: TextOptions = TextOptions {
    stored: false,
    indexing: Some(TextFieldIndexing {
        tokenizer: CowStr::Borrowed("default"),
        fieldnorms: true,
        index_option: IndexRecordOption::WithFreqsAndPositions,
        gap: 1,
    }),
    fast: false,
    coerce: false,
};

/// A text field that is found by the whole text, with lengths. Not stored.
pub const STRING: TextOptions = TextOptions {
    stored: false,
    indexing: Some(TextFieldIndexing {
        tokenizer: CowStr::Borrowed("raw"),
        fieldnorms: true,
        index_option: IndexRecordOption::Basic,
        gap: 1,
    }),
    fast: false,
    coerce: false,
};
