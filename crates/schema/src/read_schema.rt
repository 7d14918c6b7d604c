//! Schemas read from JSON.

ghost use Rattle.std.specs.Prelude.{[], codes, false, ◌+◌, ◌≡◌, ◌≢◌, IfErr, IfOk, List, None, OnOk, Option, Some, map, option_map, ℕ};
ghost use Rattle.std.specs.Option.{option_map_or};
ghost use Rattle.definitions.specs.Json.{at_or, number_below};
ghost use Rattle.definitions.specs.QueryGrammar.{record_option_in};
ghost use Rattle.definitions.specs.Making.{has_tokens};
ghost use Rattle.definitions.specs.Schema.{Entry, facet_kind, json_kind, max_gap, text_kind};
ghost use Rattle.definitions.specs.SchemaGrammar as definitions;
ghost use Rattle.definitions.specs.declared.fault.Fault.TheVariants as faults;
ghost use Rattle.options.specs.RecordOption.{record_option_of};
ghost use Rattle.serde_json.specs.Data.{Data};
ghost use Rattle.serde_json.specs.View.{items_view, view};
ghost use Rattle.schema.specs.Entries.{entry_of, facet_entry, indexed_by, json_entry, json_flags_in, numeric_options_in, text_entry, text_flags_in, text_indexed_by, value_options_in};
ghost use Rattle.terms.specs.Kinds.{kind_of};

use crate::field_entry::{FieldType, MAX_GAP};
use crate::schema::Schema;
use crate::{flag_or, has_only, object_at, text_at};
use definitions::Fault;
use options::{
    BytesOptions, DateOptions, FacetOptions, IndexRecordOption, IpAddrOptions, JsonObjectOptions,
    NumericOptions, TextFieldIndexing, TextOptions,
};
use serde_json::Value;
use std::alloc::Global;
use terms::Type;

impl Schema {
    /// Reads a schema from JSON. Options that a field's type lacks are ignored. Any other form, and a name that is bad
    /// or comes twice, is `BadSchema`; more than 4294967295 fields are `TooManyFields`.
    pub fn from_json_value(alloc: Global, value: &Value) -> Result<Schema, Fault>
        ensures ok { IfOk result (λ schema. definitions.schema_in (view value.now) ≡ Ok schema) }
        ensures err { IfErr result (λ fault. fault ≢ faults.OutOfMemory
            → definitions.schema_in (view value.now) ≡ Err fault) }
    {
        match value.as_array() {
            Some(entries) => read_entries(alloc, entries.as_slice()),
            None => Err(Fault::BadSchema),
        }
    }
}

/// Reads the schema of the fields in a list.
fn read_entries(alloc: Global, entries: &[Value]) -> Result<Schema, Fault>
    ensures ok { IfOk result (λ schema. definitions.with_entries_in [] (items_view entries.now) ≡ Ok schema) }
    ensures err { IfErr result (λ fault. fault ≢ faults.OutOfMemory
        → definitions.with_entries_in [] (items_view entries.now) ≡ Err fault) }
{
    let mut schema = Schema::builder(alloc).build();
    for entry in entries {
        add_entry(alloc, &mut schema, entry)?;
    }
    Ok(schema)
}

/// Reads a field and adds it.
fn add_entry(alloc: Global, schema: &mut Schema, value: &Value) -> Result<(), Fault>
    ensures ok { OnOk result (definitions.with_entry schema.old (definitions.entry_in (view value.now))
        ≡ Ok schema.new) }
    ensures err { IfErr result (λ fault. fault ≢ faults.OutOfMemory
        → definitions.with_entry schema.old (definitions.entry_in (view value.now)) ≡ Err fault) }
{
    let (name, field_type) = read_entry(alloc, value)?;
    match schema.add(alloc, name, field_type) {
        Ok(_field) => Ok(()),
        Err(fault) => Err(fault_read(fault)),
    }
}

/// Converts an error of adding: a name that is bad, or comes twice, is `BadSchema`.
fn fault_read(fault: Fault) -> Fault
    ensures { result ≡ definitions.fault_read fault }
{
    match fault {
        Fault::DuplicateName | Fault::BadName => Fault::BadSchema,
        other => other,
    }
}

/// Reads a field's name, and its type with its options.
fn read_entry<'a>(alloc: Global, value: &'a Value) -> Result<(&'a str, FieldType), Fault>
    ensures ok { IfOk result (λ p. definitions.entry_in (view value.now) ≡ Some (entry_of p.0.now p.1)) }
    ensures err { IfErr result (λ fault. fault ≢ faults.OutOfMemory → (fault ≡ faults.BadSchema)
        × (definitions.entry_in (view value.now) ≡ None)) }
{
    if !has_only(value, &["name", "type", "options"]) {
        return Err(Fault::BadSchema);
    }
    let name = text_at(value, "name").ok_or(Fault::BadSchema)?;
    let type_name = text_at(value, "type").ok_or(Fault::BadSchema)?;
    let options = object_at(value, "options").ok_or(Fault::BadSchema)?;
    let field_type = read_field_type(alloc, type_name, options)?;
    Ok((name, field_type))
}

/// Reads the options of the type with the name `type_name`.
fn read_field_type(alloc: Global, type_name: &str, options: &Value) -> Result<FieldType, Fault>
    ensures ok { IfOk result (λ t. (name : List ℕ)
        → definitions.typed_entry_in name type_name.now (view options.now) ≡ Some (entry_of name t)) }
    ensures err { IfErr result (λ fault. fault ≢ faults.OutOfMemory → (fault ≡ faults.BadSchema)
        × ((name : List ℕ) → definitions.typed_entry_in name type_name.now (view options.now) ≡ None)) }
{
    let value_type = read_type(type_name).ok_or(Fault::BadSchema)?;
    read_options(alloc, value_type, options)
}

/// Returns the type with the name `name`.
fn read_type(name: &str) -> Option<Type>
    ensures { option_map kind_of result ≡ definitions.kind_named name.now }
{
    match name {
        "text" => Some(Type::Str),
        "u64" => Some(Type::U64),
        "i64" => Some(Type::I64),
        "bool" => Some(Type::Bool),
        "date" => Some(Type::Date),
        "facet" => Some(Type::Facet),
        "bytes" => Some(Type::Bytes),
        "json_object" => Some(Type::Json),
        "ip_addr" => Some(Type::IpAddr),
        _ => None,
    }
}

/// Reads the options of a type.
fn read_options(alloc: Global, value_type: Type, options: &Value) -> Result<FieldType, Fault>
    ensures ok { IfOk result (λ t. (name : List ℕ)
        → definitions.options_in (definitions.entry_named name (kind_of value_type)) (view options.now)
        ≡ Some (entry_of name t)) }
    ensures err { IfErr result (λ fault. fault ≢ faults.OutOfMemory → (fault ≡ faults.BadSchema)
        × ((name : List ℕ) → definitions.options_in (definitions.entry_named name (kind_of value_type))
        (view options.now) ≡ None)) }
{
    match value_type {
        Type::Str => Ok(FieldType::Str(read_text_options(alloc, options)?)),
        Type::Json => Ok(FieldType::JsonObject(read_json_options(alloc, options)?)),
        _ => match read_value_type(value_type, options) {
            Some(read) => Ok(read),
            None => Err(Fault::BadSchema),
        },
    }
}

/// Reads the options of a type without a text indexing.
#[tactic(auto, using(crate::proofs::ReadKinds::u64_read, crate::proofs::ReadKinds::i64_read, crate::proofs::ReadKinds::bool_read, crate::proofs::ReadKinds::date_read, crate::proofs::ReadKinds::bytes_read, crate::proofs::ReadKinds::ip_addr_read))]
fn read_value_type(value_type: Type, options: &Value) -> Option<FieldType>
    requires { has_tokens (kind_of value_type) ≡ false }
    ensures { (name : List ℕ)
        → definitions.options_in (definitions.entry_named name (kind_of value_type)) (view options.now)
        ≡ option_map (entry_of name) result }
{
    match value_type {
        Type::U64 => Some(FieldType::U64(read_numeric_options(options)?)),
        Type::I64 => Some(FieldType::I64(read_numeric_options(options)?)),
        Type::Bool => Some(FieldType::Bool(read_numeric_options(options)?)),
        Type::Date => Some(FieldType::Date(read_date_options(options)?)),
        Type::Facet => Some(FieldType::Facet(read_facet_options(options)?)),
        Type::Bytes => Some(FieldType::Bytes(read_bytes_options(options)?)),
        Type::IpAddr => Some(FieldType::IpAddr(read_ip_addr_options(options)?)),
        Type::Str | Type::Json => None,
    }
}

/// Reads the options of a text field.
fn read_text_options(alloc: Global, options: &Value) -> Result<TextOptions, Fault>
    ensures ok { IfOk result (λ o. (name : List ℕ)
        → definitions.options_in (definitions.entry_named name text_kind) (view options.now)
        ≡ Some (text_entry name o)) }
    ensures err { IfErr result (λ fault. fault ≢ faults.OutOfMemory → (fault ≡ faults.BadSchema)
        × ((name : List ℕ) → definitions.options_in (definitions.entry_named name text_kind) (view options.now)
        ≡ None)) }
{
    let text = read_text_flags(options).ok_or(Fault::BadSchema)?;
    match indexing_at(options) {
        Some(indexing) => {
            let indexing = read_text_indexing(alloc, indexing)?;
            Ok(text.set_indexing_options(indexing))
        }
        None => Ok(text),
    }
}

/// Reads the options of a text field, without its indexing.
fn read_text_flags(options: &Value) -> Option<TextOptions>
    ensures { result ≡ text_flags_in (view options.now) }
{
    let stored = flag_or(options, "stored", false)?;
    let fast = flag_or(options, "fast", false)?;
    let coerce = flag_or(options, "coerce", false)?;
    let mut text = TextOptions::default();
    if stored {
        text = text.set_stored();
    }
    if fast {
        text = text.set_fast();
    }
    if coerce {
        text = text.set_coerce();
    }
    Some(text)
}

/// Reads the options of a JSON field.
fn read_json_options(alloc: Global, options: &Value) -> Result<JsonObjectOptions, Fault>
    ensures ok { IfOk result (λ o. (name : List ℕ)
        → definitions.options_in (definitions.entry_named name json_kind) (view options.now)
        ≡ Some (json_entry name o)) }
    ensures err { IfErr result (λ fault. fault ≢ faults.OutOfMemory → (fault ≡ faults.BadSchema)
        × ((name : List ℕ) → definitions.options_in (definitions.entry_named name json_kind) (view options.now)
        ≡ None)) }
{
    let json = read_json_flags(options).ok_or(Fault::BadSchema)?;
    match indexing_at(options) {
        Some(indexing) => {
            let indexing = read_indexing(alloc, indexing)?;
            Ok(json.set_indexing_options(indexing))
        }
        None => Ok(json),
    }
}

/// Reads the options of a JSON field, without its indexing.
fn read_json_flags(options: &Value) -> Option<JsonObjectOptions>
    ensures { result ≡ json_flags_in (view options.now) }
{
    let stored = flag_or(options, "stored", false)?;
    let fast = flag_or(options, "fast", false)?;
    let expand_dots = flag_or(options, "expand_dots", false)?;
    let mut json = JsonObjectOptions::default();
    if stored {
        json = json.set_stored();
    }
    if fast {
        json = json.set_fast();
    }
    if expand_dots {
        json = json.set_expand_dots_enabled();
    }
    Some(json)
}

/// Returns the indexing of a text or JSON field; `None` where it is absent or null.
fn indexing_at(options: &Value) -> Option<&Value>
    ensures { (read_as : Entry → Data → Option Entry) (e : Entry)
        → at_or e (definitions.indexing_in read_as e) (codes "indexing") (view options.now)
        ≡ option_map_or (λ indexing. read_as e (view indexing.now)) result (Some e) }
{
    let indexing = options.get("indexing")?;
    if indexing.is_null() {
        None
    } else {
        Some(indexing)
    }
}

/// Reads the indexing of a text field, which says its gap.
fn read_text_indexing(alloc: Global, value: &Value) -> Result<TextFieldIndexing, Fault>
    ensures ok { IfOk result (λ indexing. (e : Entry)
        → definitions.with_text_indexing_in e (view value.now) ≡ Some (text_indexed_by e indexing)) }
    ensures err { IfErr result (λ fault. fault ≢ faults.OutOfMemory → (fault ≡ faults.BadSchema)
        × ((e : Entry) → definitions.with_text_indexing_in e (view value.now) ≡ None)) }
{
    let indexing = read_indexing(alloc, value)?;
    let gap = read_gap(value).ok_or(Fault::BadSchema)?;
    Ok(indexing.set_gap(gap))
}

/// Reads the gap of an indexing: a whole number from 0 to `MAX_GAP`, or 1 where it is absent.
fn read_gap(value: &Value) -> Option<u32>
    ensures { result ≡ at_or 1 (number_below (max_gap + 1)) (codes "gap") (view value.now) }
{
    match value.get("gap") {
        Some(gap) => {
            let gap = gap.as_u64()?;
            if gap <= u64::from(MAX_GAP) {
                Some(gap as u32)
            } else {
                None
            }
        }
        None => Some(1),
    }
}

/// Reads an indexing without its gap.
fn read_indexing(alloc: Global, value: &Value) -> Result<TextFieldIndexing, Fault>
    ensures ok { IfOk result (λ indexing. (e : Entry)
        → definitions.with_indexing_in e (view value.now) ≡ Some (indexed_by e indexing)) }
    ensures gap { IfOk result (λ indexing. indexing.gap ≡ 1) }
    ensures err { IfErr result (λ fault. fault ≢ faults.OutOfMemory → (fault ≡ faults.BadSchema)
        × ((e : Entry) → definitions.with_indexing_in e (view value.now) ≡ None)) }
{
    if !value.is_object() {
        return Err(Fault::BadSchema);
    }
    let option = match value.get("record") {
        Some(name) => read_record_option(name).ok_or(Fault::BadSchema)?,
        None => IndexRecordOption::Basic,
    };
    let fieldnorms = flag_or(value, "fieldnorms", true).ok_or(Fault::BadSchema)?;
    let tokenizer = match value.get("tokenizer") {
        Some(name) => name.as_str().ok_or(Fault::BadSchema)?,
        None => "default",
    };
    let indexing = TextFieldIndexing::default()
        .set_index_option(option)
        .set_fieldnorms(fieldnorms)
        .set_tokenizer(alloc, tokenizer)?;
    Ok(indexing)
}

/// Reads the name of what is recorded.
fn read_record_option(value: &Value) -> Option<IndexRecordOption>
    ensures { option_map record_option_of result ≡ record_option_in (view value.now) }
{
    match value.as_str()? {
        "basic" => Some(IndexRecordOption::Basic),
        "freq" => Some(IndexRecordOption::WithFreqs),
        "position" => Some(IndexRecordOption::WithFreqsAndPositions),
        _ => None,
    }
}

/// Reads the options of a number or bool field.
fn read_numeric_options(options: &Value) -> Option<NumericOptions>
    ensures { result ≡ numeric_options_in (view options.now) }
{
    let flags = read_value_flags(options)?;
    let coerce = flag_or(options, "coerce", false)?;
    let mut read = NumericOptions::default();
    if flags.stored {
        read = read.set_stored();
    }
    if flags.indexed {
        read = read.set_indexed();
    }
    if flags.fieldnorms {
        read = read.set_fieldnorm();
    }
    if flags.fast {
        read = read.set_fast();
    }
    if coerce {
        read = read.set_coerce();
    }
    Some(read)
}

/// Reads the options of a date field.
fn read_date_options(options: &Value) -> Option<DateOptions>
    ensures { result ≡ value_options_in (view options.now) }
{
    let flags = read_value_flags(options)?;
    let mut read = DateOptions::default();
    if flags.stored {
        read = read.set_stored();
    }
    if flags.indexed {
        read = read.set_indexed();
    }
    if flags.fieldnorms {
        read = read.set_fieldnorm();
    }
    if flags.fast {
        read = read.set_fast();
    }
    Some(read)
}

/// Reads the options of a bytes field.
fn read_bytes_options(options: &Value) -> Option<BytesOptions>
    ensures { result ≡ value_options_in (view options.now) }
{
    let flags = read_value_flags(options)?;
    let mut read = BytesOptions::default();
    if flags.stored {
        read = read.set_stored();
    }
    if flags.indexed {
        read = read.set_indexed();
    }
    if flags.fieldnorms {
        read = read.set_fieldnorms();
    }
    if flags.fast {
        read = read.set_fast();
    }
    Some(read)
}

/// Reads the options of an IP address field.
fn read_ip_addr_options(options: &Value) -> Option<IpAddrOptions>
    ensures { result ≡ value_options_in (view options.now) }
{
    let flags = read_value_flags(options)?;
    let mut read = IpAddrOptions::default();
    if flags.stored {
        read = read.set_stored();
    }
    if flags.indexed {
        read = read.set_indexed();
    }
    if flags.fieldnorms {
        read = read.set_fieldnorms();
    }
    if flags.fast {
        read = read.set_fast();
    }
    Some(read)
}

/// Reads the options of a facet field.
fn read_facet_options(options: &Value) -> Option<FacetOptions>
    ensures { (name : List ℕ) → definitions.options_in (definitions.entry_named name facet_kind) (view options.now)
        ≡ option_map (facet_entry name) result }
{
    if flag_or(options, "stored", false)? {
        Some(FacetOptions::default().set_stored())
    } else {
        Some(FacetOptions::default())
    }
}

/// The options of fields that are found by whole values. By default, lengths are kept if the field is indexed.
#[derive(Clone, Copy)]
struct ValueFlags {
    stored: bool,
    indexed: bool,
    fieldnorms: bool,
    fast: bool,
}

/// Reads the options of a field that is found by whole values.
fn read_value_flags(options: &Value) -> Option<ValueFlags>
    ensures { option_map (λ f. record {
      stored = f.stored;
      indexed = f.indexed;
      fieldnorms = f.fieldnorms;
      fast =
          f.fast;
    }) result ≡ value_options_in (view options.now) }
{
    let indexed = flag_or(options, "indexed", false)?;
    Some(ValueFlags {
        stored: flag_or(options, "stored", false)?,
        indexed,
        fieldnorms: flag_or(options, "fieldnorms", indexed)?,
        fast: flag_or(options, "fast", false)?,
    })
}
