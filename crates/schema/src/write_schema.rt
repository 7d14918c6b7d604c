//! Schemas written as JSON.

ghost use Rattle.std.specs.Prelude.{[], ◌∷◌, ◌≡◌, IfOk, Ok, codes, map};
ghost use Rattle.definitions.specs.Schema.{bytes_kind, date_kind, ip_addr_kind, json_kind, text_kind, u64_kind};
ghost use Rattle.definitions.specs.Replies.{number_data};
ghost use Rattle.definitions.specs.SchemaGrammar.{entry_data, entry_named, indexing_data, options_data, record_option_name, schema_data, schema_in};
ghost use Rattle.options.specs.RecordOption.{record_option_of};
ghost use Rattle.serde_json.specs.View.{items_of, items_view, view};
ghost use Rattle.schema.specs.Entries.{entry_of, facet_entry, gap_in, indexed_by, json_entry, numeric_entry, text_entry, value_entry};

use crate::field_entry::{FieldEntry, FieldType, gap_within};
use crate::schema::Schema;
use options::{
    BytesOptions, DateOptions, FacetOptions, IndexRecordOption, IpAddrOptions, JsonObjectOptions,
    NumericOptions, TextFieldIndexing, TextOptions,
};
use serde_json::{Value, json};
use std::alloc::{AllocError, Global};

impl Schema {
    /// Writes the schema as JSON, with every option of each field.
    pub fn to_json_value(&self, alloc: Global) -> Result<Value, AllocError>
        ensures value { IfOk result (λ value. view value ≡ schema_data self.now) }
        ensures read_back { IfOk result (λ value. schema_in (view value) ≡ Ok self.now) }
    {
        let entries = entries_value(alloc, self.entries())?;
        Ok(Value::Array(entries))
    }
}

/// Writes the fields, in order.
fn entries_value(alloc: Global, entries: &[FieldEntry]) -> Result<Vec<Value>, AllocError>
    ensures { IfOk result (λ values. items_view values.items ≡ items_of (map entry_data entries.now)) }
{
    let mut values = Vec::new(alloc);
    for entry in entries {
        values.push(entry_value(alloc, entry)?)?;
    }
    Ok(values)
}

/// Writes a field.
fn entry_value(alloc: Global, entry: &FieldEntry) -> Result<Value, AllocError>
    ensures { IfOk result (λ value. view value ≡ entry_data entry.now) }
{
    let options = options_value(alloc, entry.field_type())?;
    let type_name = entry.field_type().value_type().name();
    json!(in alloc; {"name": entry.name(), "type": type_name, "options": options})
}

/// Writes the options of a field.
fn options_value(alloc: Global, field_type: &FieldType) -> Result<Value, AllocError>
    ensures { IfOk result (λ value. view value ≡ options_data (entry_of [] field_type.now)) }
{
    match field_type {
        FieldType::Str(options) => text_value(alloc, options),
        FieldType::U64(options) | FieldType::I64(options) | FieldType::Bool(options) =>
            numeric_value(alloc, *options),
        FieldType::Date(options) => date_value(alloc, *options),
        FieldType::Facet(options) => facet_value(alloc, *options),
        FieldType::Bytes(options) => bytes_value(alloc, *options),
        FieldType::JsonObject(options) => json_value(alloc, options),
        FieldType::IpAddr(options) => ip_addr_value(alloc, *options),
    }
}

/// Writes the options of a text field.
fn text_value(alloc: Global, options: &TextOptions) -> Result<Value, AllocError>
    ensures { IfOk result (λ value. view value ≡ options_data (text_entry [] options.now)) }
{
    let indexing = match options.get_indexing_options() {
        Some(indexing) => text_indexing_value(alloc, indexing)?,
        None => Value::Null,
    };
    json!(in alloc; {
        "stored": options.is_stored(),
        "fast": options.is_fast(),
        "coerce": options.should_coerce(),
        "indexing": indexing
    })
}

/// Writes the options of a JSON field.
fn json_value(alloc: Global, options: &JsonObjectOptions) -> Result<Value, AllocError>
    ensures { IfOk result (λ value. view value ≡ options_data (json_entry [] options.now)) }
{
    let indexing = match options.get_text_indexing_options() {
        Some(indexing) => json_indexing_value(alloc, indexing)?,
        None => Value::Null,
    };
    json!(in alloc; {
        "stored": options.is_stored(),
        "fast": options.is_fast(),
        "expand_dots": options.is_expand_dots_enabled(),
        "indexing": indexing
    })
}

/// Writes the indexing of a text field.
fn text_indexing_value(alloc: Global, indexing: &TextFieldIndexing) -> Result<Value, AllocError>
    ensures { IfOk result (λ value. view value ≡ indexing_data ((codes "gap", number_data (gap_in indexing.now)) ∷ [])
        (indexed_by (entry_named [] text_kind) indexing.now)) }
{
    json!(in alloc; {
        "record": record_option_name(indexing.index_option()),
        "fieldnorms": indexing.fieldnorms(),
        "tokenizer": indexing.tokenizer(),
        "gap": gap_within(indexing)
    })
}

/// Writes the indexing of a JSON field.
fn json_indexing_value(alloc: Global, indexing: &TextFieldIndexing) -> Result<Value, AllocError>
    ensures { IfOk result (λ value. view value
        ≡ indexing_data [] (indexed_by (entry_named [] json_kind) indexing.now)) }
{
    json!(in alloc; {
        "record": record_option_name(indexing.index_option()),
        "fieldnorms": indexing.fieldnorms(),
        "tokenizer": indexing.tokenizer()
    })
}

/// Returns the name of what is recorded.
fn record_option_name(option: IndexRecordOption) -> &'static str
    ensures { result.now ≡ record_option_name (record_option_of option) }
{
    match option {
        IndexRecordOption::Basic => "basic",
        IndexRecordOption::WithFreqs => "freq",
        IndexRecordOption::WithFreqsAndPositions => "position",
    }
}

/// Writes the options of a number or bool field; whether lengths are kept is written even if it isn't indexed.
fn numeric_value(alloc: Global, options: NumericOptions) -> Result<Value, AllocError>
    ensures { IfOk result (λ value. view value ≡ options_data (numeric_entry u64_kind [] options)) }
{
    json!(in alloc; {
        "stored": options.is_stored(),
        "fast": options.is_fast(),
        "coerce": options.should_coerce(),
        "indexed": options.is_indexed(),
        "fieldnorms": options.set_indexed().fieldnorms()
    })
}

/// Writes the options of a date field.
fn date_value(alloc: Global, options: DateOptions) -> Result<Value, AllocError>
    ensures { IfOk result (λ value. view value ≡ options_data (value_entry date_kind [] options)) }
{
    json!(in alloc; {
        "stored": options.is_stored(),
        "fast": options.is_fast(),
        "indexed": options.is_indexed(),
        "fieldnorms": options.set_indexed().fieldnorms()
    })
}

/// Writes the options of a bytes field.
fn bytes_value(alloc: Global, options: BytesOptions) -> Result<Value, AllocError>
    ensures { IfOk result (λ value. view value ≡ options_data (value_entry bytes_kind [] options)) }
{
    json!(in alloc; {
        "stored": options.is_stored(),
        "fast": options.is_fast(),
        "indexed": options.is_indexed(),
        "fieldnorms": options.set_indexed().fieldnorms()
    })
}

/// Writes the options of an IP address field.
fn ip_addr_value(alloc: Global, options: IpAddrOptions) -> Result<Value, AllocError>
    ensures { IfOk result (λ value. view value ≡ options_data (value_entry ip_addr_kind [] options)) }
{
    json!(in alloc; {
        "stored": options.is_stored(),
        "fast": options.is_fast(),
        "indexed": options.is_indexed(),
        "fieldnorms": options.set_indexed().fieldnorms()
    })
}

/// Writes the options of a facet field.
fn facet_value(alloc: Global, options: FacetOptions) -> Result<Value, AllocError>
    ensures { IfOk result (λ value. view value ≡ options_data (facet_entry [] options)) }
{
    json!(in alloc; {"stored": options.is_stored()})
}
