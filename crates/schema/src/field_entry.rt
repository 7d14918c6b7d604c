//! Field entries: a field's name, type and options.

ghost use Rattle.std.specs.Prelude.{[], if◌then◌else◌, option_map, string_bytes, ◌↔◌, ◌≡◌, ◌≤◌, IsTrue, None, Some};
ghost use Rattle.definitions.specs.Schema.{bytes_kind, date_kind, gap_of, has_lengths, has_positions, ip_addr_kind, is_indexed, is_text, json_kind, keeps_length, max_gap};
ghost use Rattle.options.specs.RecordOption.{record_option_of};
ghost use Rattle.schema.specs.Entries.{entry_of, gap_in};
ghost use Rattle.terms.specs.Kinds.{kind_of};

use options::{
    BytesOptions, DateOptions, FacetOptions, IndexRecordOption, IpAddrOptions, JsonObjectOptions,
    NumericOptions, TextFieldIndexing, TextOptions,
};
use std::marker::Model;
use terms::Type;

/// The most positions that are left out between two values of a text field.
pub(crate) const MAX_GAP: u32 = 1000;

/// The type of a field, with its options.
#[derive(Drop)]
pub enum FieldType {
    /// Texts.
    Str(TextOptions),
    /// Numbers from 0 below 2^64.
    U64(NumericOptions),
    /// Signed numbers of 64 bits.
    I64(NumericOptions),
    /// True or false.
    Bool(NumericOptions),
    /// Nanoseconds since 1970.
    Date(DateOptions),
    /// Paths of steps.
    Facet(FacetOptions),
    /// Any bytes.
    Bytes(BytesOptions),
    /// JSON objects.
    JsonObject(JsonObjectOptions),
    /// IP addresses of 128 bits, IPv4 mapped into IPv6.
    IpAddr(IpAddrOptions),
}

impl FieldType {
    /// Returns the type without its options.
    pub fn value_type(&self) -> Type
        ensures { kind_of result ≡ (entry_of [] self.now).kind }
    {
        match self {
            FieldType::Str(_) => Type::Str,
            FieldType::U64(_) => Type::U64,
            FieldType::I64(_) => Type::I64,
            FieldType::Bool(_) => Type::Bool,
            FieldType::Date(_) => Type::Date,
            FieldType::Facet(_) => Type::Facet,
            FieldType::Bytes(_) => Type::Bytes,
            FieldType::JsonObject(_) => Type::Json,
            FieldType::IpAddr(_) => Type::IpAddr,
        }
    }

    /// Whether this is the type of texts.
    pub fn is_str(&self) -> bool
        ensures { result ≡ is_text (entry_of [] self.now).kind }
    {
        matches!(self, FieldType::Str(_))
    }

    /// Whether this is the type of JSON objects.
    pub fn is_json(&self) -> bool
        ensures { IsTrue result ↔ ((entry_of [] self.now).kind ≡ json_kind) }
    {
        matches!(self, FieldType::JsonObject(_))
    }

    /// Whether this is the type of bytes.
    pub fn is_bytes(&self) -> bool
        ensures { IsTrue result ↔ ((entry_of [] self.now).kind ≡ bytes_kind) }
    {
        matches!(self, FieldType::Bytes(_))
    }

    /// Whether this is the type of dates.
    pub fn is_date(&self) -> bool
        ensures { IsTrue result ↔ ((entry_of [] self.now).kind ≡ date_kind) }
    {
        matches!(self, FieldType::Date(_))
    }

    /// Whether this is the type of IP addresses.
    pub fn is_ip_addr(&self) -> bool
        ensures { IsTrue result ↔ ((entry_of [] self.now).kind ≡ ip_addr_kind) }
    {
        matches!(self, FieldType::IpAddr(_))
    }

    /// Whether documents are found by the field's values. Facets always are.
    pub fn is_indexed(&self) -> bool
        ensures { result ≡ is_indexed (entry_of [] self.now) }
    {
        match self {
            FieldType::Str(options) => options.get_indexing_options().is_some(),
            FieldType::U64(options) | FieldType::I64(options) | FieldType::Bool(options) =>
                options.is_indexed(),
            FieldType::Date(options) => options.is_indexed(),
            FieldType::Facet(_) => true,
            FieldType::Bytes(options) => options.is_indexed(),
            FieldType::JsonObject(options) => options.is_indexed(),
            FieldType::IpAddr(options) => options.is_indexed(),
        }
    }

    /// Whether the field keeps a length for each document. Facets and JSON objects have none.
    pub fn has_fieldnorms(&self) -> bool
        ensures { result ≡ keeps_length (entry_of [] self.now) }
    {
        match self {
            FieldType::Str(options) => match options.get_indexing_options() {
                Some(indexing) => indexing.fieldnorms(),
                None => false,
            },
            FieldType::U64(options) | FieldType::I64(options) | FieldType::Bool(options) =>
                options.fieldnorms(),
            FieldType::Date(options) => options.fieldnorms(),
            FieldType::Bytes(options) => options.fieldnorms(),
            FieldType::IpAddr(options) => options.fieldnorms(),
            FieldType::Facet(_) | FieldType::JsonObject(_) => false,
        }
    }

    /// Returns what is recorded of the field's terms; for a JSON field, of those of texts. `None` if it isn't indexed.
    pub fn get_index_record_option(&self) -> Option<IndexRecordOption>
        ensures { let e = entry_of [] self.now in option_map record_option_of result
            ≡ (if is_indexed e then Some e.record_option else None) }
    {
        match self {
            FieldType::Str(options) => options
                .get_indexing_options()
                .map(TextFieldIndexing::index_option),
            FieldType::JsonObject(options) => options
                .get_text_indexing_options()
                .map(TextFieldIndexing::index_option),
            _ if self.is_indexed() => Some(IndexRecordOption::Basic),
            _ => None,
        }
    }
}

/// A field of a schema: its name, and its type with its options.
#[derive(Drop)]
pub struct FieldEntry {
    name: String,
    field_type: FieldType,
}

impl Model for FieldEntry {
    ghost use Rattle.std.specs.Prelude.{string_bytes};
    ghost use Rattle.definitions.specs.Schema.{Entry};
    ghost use Rattle.schema.specs.Entries.{entry_of, gap_in};

    ghost Value = { Entry };

    ghost view = { λ e. entry_of (string_bytes e.name) e.field_type };
}

impl FieldEntry {
    /// Makes the entry of a field; whether a schema may have it is checked by the builder.
    pub(crate) fn new(name: String, field_type: FieldType) -> FieldEntry
        ensures { result ≡ entry_of (string_bytes name) field_type }
    {
        FieldEntry { name, field_type }
    }

    /// Returns the field's name.
    pub fn name(&self) -> &str
        ensures { result.now ≡ self.now.name }
    {
        self.name.as_str()
    }

    /// Returns the field's type, with its options.
    pub fn field_type(&self) -> &FieldType
        ensures { entry_of self.now.name result.now ≡ self.now }
    {
        &self.field_type
    }

    /// Whether positions of the field's terms are recorded.
    pub fn records_positions(&self) -> bool
        ensures { result ≡ has_positions self.now.record_option }
    {
        match self.field_type().get_index_record_option() {
            Some(option) => option.has_positions(),
            None => false,
        }
    }

    /// Returns the type of the field's values.
    pub fn value_type(&self) -> Type
        ensures { kind_of result ≡ self.now.kind }
    {
        self.field_type.value_type()
    }

    /// Returns the name of the tokenizer of the field's texts; empty if it has no texts, or they aren't indexed.
    pub fn tokenizer(&self) -> &str
        ensures { result.now ≡ self.now.tokenizer }
    {
        let indexing = match &self.field_type {
            FieldType::Str(options) => options.get_indexing_options(),
            FieldType::JsonObject(options) => options.get_text_indexing_options(),
            _ => None,
        };
        match indexing {
            Some(indexing) => indexing.tokenizer(),
            None => "",
        }
    }

    /// Returns how many positions are left out between two values of a text field: at most 1000. Of other fields, and
    /// where texts aren't indexed, it is 1.
    pub fn gap(&self) -> u32
        ensures value { result ≡ gap_of self.now }
        ensures few { result ≤ max_gap }
    {
        let indexing = match &self.field_type {
            FieldType::Str(options) => options.get_indexing_options(),
            _ => None,
        };
        match indexing {
            Some(indexing) => gap_within(indexing),
            None => 1,
        }
    }

    /// Whether documents are found by the field's values.
    pub fn is_indexed(&self) -> bool
        ensures { result ≡ is_indexed self.now }
    {
        self.field_type.is_indexed()
    }

    /// Whether the field keeps a length for each document.
    pub fn has_fieldnorms(&self) -> bool
        ensures { result ≡ keeps_length self.now }
    {
        self.field_type.has_fieldnorms()
    }

    /// Whether the field's values are stored with their documents.
    pub fn is_stored(&self) -> bool
        ensures { result ≡ self.now.stored }
    {
        match &self.field_type {
            FieldType::Str(options) => options.is_stored(),
            FieldType::U64(options) | FieldType::I64(options) | FieldType::Bool(options) =>
                options.is_stored(),
            FieldType::Date(options) => options.is_stored(),
            FieldType::Facet(options) => options.is_stored(),
            FieldType::Bytes(options) => options.is_stored(),
            FieldType::JsonObject(options) => options.is_stored(),
            FieldType::IpAddr(options) => options.is_stored(),
        }
    }

    /// Returns what `set_fast` set in the field's options. Facets have no such option.
    pub fn is_fast(&self) -> bool
        ensures { result ≡ self.now.fast }
    {
        match &self.field_type {
            FieldType::Str(options) => options.is_fast(),
            FieldType::U64(options) | FieldType::I64(options) | FieldType::Bool(options) =>
                options.is_fast(),
            FieldType::Date(options) => options.is_fast(),
            FieldType::Facet(_) => false,
            FieldType::Bytes(options) => options.is_fast(),
            FieldType::JsonObject(options) => options.is_fast(),
            FieldType::IpAddr(options) => options.is_fast(),
        }
    }

    /// Whether a dot in a key of the field's objects separates keys.
    pub fn is_expand_dots_enabled(&self) -> bool
        ensures { result ≡ self.now.expand_dots }
    {
        match &self.field_type {
            FieldType::JsonObject(options) => options.is_expand_dots_enabled(),
            _ => false,
        }
    }
}

/// Returns how many positions an indexing leaves out between two values: at most `MAX_GAP`.
pub(crate) fn gap_within(indexing: &TextFieldIndexing) -> u32
    ensures { result ≡ gap_in indexing.now }
{
    indexing.gap().min(MAX_GAP)
}
