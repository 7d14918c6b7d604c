//! Documents read from JSON.

ghost use Rattle.std.specs.Prelude.{[], ◌++◌, ◌∷◌, ◌≡◌, ◌≢◌, Err, IfErr, IfOk, IfSome, Ok, OnErr, OnOk, false, true};
ghost use Rattle.definitions.specs.Reading as reading;
ghost use Rattle.definitions.specs.Schema.{json_kind};
ghost use Rattle.definitions.specs.Values as definitions;
ghost use Rattle.definitions.specs.declared.fault.Fault.TheVariants as faults;
ghost use Rattle.document.specs.JsonRead.{added_to};
ghost use Rattle.schema.specs.Entries.{entry_of};
ghost use Rattle.serde_json.specs.View.{items_view, members_view, view};
ghost use Rattle.serde_json.specs.Written.{has_float};
ghost use Rattle.values_json.specs.Leaves.{value_of};

use crate::compact_doc::CompactDoc;
use definitions::Fault;
use document_values::json_object_pair;
use schema::{FieldEntry, FieldType, Schema, is_too_deep};
use serde_json::{Map, Value as Json};
use std::alloc::{AllocError, Global};
use terms::Field;
use values_json::{Leaf, has_float, read_leaf};

impl CompactDoc {
    /// Reads a document from a JSON object: the values of each field, in the order of the members' keys. Keys that name
    /// no field are skipped, and the elements of an array are values of their own. Anything but an object is
    /// `NotAnObject`; the first value that its field doesn't take is refused as its type says. JSON that nests more than
    /// 256 deep, as no text does, isn't looked into: it is `NotIndexable`.
    pub fn from_json_object(
        alloc: Global,
        schema: &Schema,
        json: &Json,
    ) -> Result<CompactDoc, Fault>
        ensures ok { IfOk result (λ doc. reading.read_data schema.now (view json.now) ≡ Ok doc) }
        ensures err { IfErr result (λ fault. fault ≢ faults.OutOfMemory
            → reading.read_data schema.now (view json.now) ≡ Err fault) }
    {
        if is_too_deep(json) {
            return Err(Fault::NotIndexable);
        }
        match json {
            Json::Object(members) => read_members(alloc, schema, members),
            _ => Err(Fault::NotAnObject),
        }
    }
}

/// Reads the values of the fields that `members` name.
fn read_members(
    alloc: Global,
    schema: &Schema,
    members: &Map<String, Json>,
) -> Result<CompactDoc, Fault>
    ensures ok { IfOk result (λ doc. reading.read_members schema.now (members_view members.now.entries) ≡ Ok doc) }
    ensures err { IfErr result (λ fault. fault ≢ faults.OutOfMemory
        → reading.read_members schema.now (members_view members.now.entries) ≡ Err fault) }
{
    let mut doc = CompactDoc::new(alloc);
    for (key, member) in members.iter() {
        read_member(alloc, schema, key.as_str(), member, &mut doc)?;
    }
    Ok(doc)
}

/// Adds the values of the field that `key` names.
fn read_member(
    alloc: Global,
    schema: &Schema,
    key: &str,
    json: &Json,
    doc: &mut CompactDoc,
) -> Result<(), Fault>
    ensures ok { OnOk result (added_to doc.old (reading.read_member schema.now key.now (view json.now)) ≡ Ok doc.new) }
    ensures err { IfErr result (λ fault. fault ≢ faults.OutOfMemory
        → reading.read_member schema.now key.now (view json.now) ≡ Err fault) }
{
    match schema.get_field(key) {
        Ok(field) => read_field(alloc, field, schema.get_field_entry(field), json, doc),
        Err(_) => Ok(()),
    }
}

/// Adds the values of `field`: of an array each element.
fn read_field(
    alloc: Global,
    field: Field,
    entry: &FieldEntry,
    json: &Json,
    doc: &mut CompactDoc,
) -> Result<(), Fault>
    ensures ok { OnOk result (added_to doc.old (reading.read_field field entry.now (view json.now)) ≡ Ok doc.new) }
    ensures err { IfErr result (λ fault. fault ≢ faults.OutOfMemory
        → reading.read_field field entry.now (view json.now) ≡ Err fault) }
{
    match json {
        Json::Array(items) => read_items(alloc, field, entry, items.as_slice(), doc),
        _ => read_one(alloc, field, entry, json, doc),
    }
}

/// Adds a value for each element.
fn read_items(
    alloc: Global,
    field: Field,
    entry: &FieldEntry,
    items: &[Json],
    doc: &mut CompactDoc,
) -> Result<(), Fault>
    ensures ok { OnOk result (added_to doc.old (reading.read_items field entry.now (items_view items.now))
        ≡ Ok doc.new) }
    ensures err { IfErr result (λ fault. fault ≢ faults.OutOfMemory
        → reading.read_items field entry.now (items_view items.now) ≡ Err fault) }
{
    for item in items {
        read_one(alloc, field, entry, item, doc)?;
    }
    Ok(())
}

/// Adds one value. A float in it is refused, at any depth.
fn read_one(
    alloc: Global,
    field: Field,
    entry: &FieldEntry,
    json: &Json,
    doc: &mut CompactDoc,
) -> Result<(), Fault>
    ensures ok { OnOk result ((value : definitions.Value) × (reading.read_value entry.now (view json.now) ≡ Ok value)
        × (doc.new ≡ doc.old ++ (field, value) ∷ [])) }
    ensures err { IfErr result (λ fault. fault ≢ faults.OutOfMemory
        → reading.read_value entry.now (view json.now) ≡ Err fault) }
{
    if let Some(text) = plain_text(entry, json) {
        doc.add_text(field, text)?;
        return Ok(());
    }
    if has_float(json) {
        return Err(Fault::FloatValue);
    }
    if entry.field_type().is_json() {
        return read_object(alloc, field, json, doc);
    }
    let leaf = read_plain(alloc, entry, json)?;
    add_leaf(doc, field, leaf)?;
    Ok(())
}

/// Returns the text of a text field's value.
fn plain_text<'a>(entry: &FieldEntry, json: &'a Json) -> Option<&'a str>
    ensures { IfSome result (λ text. reading.read_value entry.now (view json.now) ≡ Ok (definitions.str text.now)) }
{
    match entry.field_type() {
        FieldType::Str(_) => json.as_str(),
        _ => None,
    }
}

/// Reads one value of a field that has no objects.
fn read_plain(alloc: Global, entry: &FieldEntry, json: &Json) -> Result<Leaf, Fault>
    requires kind { entry.now.kind ≢ json_kind }
    requires whole { has_float (view json.now) ≡ false }
    ensures ok { IfOk result (λ leaf. reading.read_value entry.now (view json.now) ≡ Ok (value_of leaf)) }
    ensures err { IfErr result (λ fault. fault ≢ faults.OutOfMemory
        → reading.read_value entry.now (view json.now) ≡ Err fault) }
{
    let field_type = entry.field_type();
    read_leaf(alloc, field_type.value_type(), coerces(field_type), json)
}

/// Adds an object.
fn read_object(alloc: Global, field: Field, json: &Json, doc: &mut CompactDoc) -> Result<(), Fault>
    ensures ok { OnOk result ((value : definitions.Value)
        × (reading.read_kind json_kind false (view json.now) ≡ Ok value) × (doc.new ≡ doc.old ++ (field, value) ∷ [])) }
    ensures err { IfErr result (λ fault. fault ≢ faults.OutOfMemory
        → reading.read_kind json_kind false (view json.now) ≡ Err fault) }
{
    match json {
        Json::Object(members) => Ok(add_object(alloc, field, members, doc)?),
        _ => Err(Fault::TypeError),
    }
}

/// Adds an object of `members`.
fn add_object(
    alloc: Global,
    field: Field,
    members: &Map<String, Json>,
    doc: &mut CompactDoc,
) -> Result<(), AllocError>
    ensures ok { OnOk result (doc.new
        ≡ doc.old ++ (field, definitions.object (reading.json_members (members_view members.now.entries))) ∷ []) }
    ensures err { OnErr result (doc.new ≡ doc.old) }
{
    let pair = json_object_pair(alloc, field, members)?;
    doc.add(pair)
}

/// Adds a value that is no object.
fn add_leaf(doc: &mut CompactDoc, field: Field, leaf: Leaf) -> Result<(), AllocError>
    ensures ok { OnOk result (doc.new ≡ doc.old ++ (field, value_of leaf) ∷ []) }
    ensures err { OnErr result (doc.new ≡ doc.old) }
{
    match leaf {
        Leaf::Str(text) => doc.add_text(field, text.as_str()),
        Leaf::U64(n) => doc.add_u64(field, n),
        Leaf::I64(n) => doc.add_i64(field, n),
        Leaf::Bool(b) => doc.add_bool(field, b),
        Leaf::Date(time) => doc.add_date(field, time),
        Leaf::Facet(facet) => doc.add_facet(field, &facet),
        Leaf::Bytes(bytes) => doc.add_bytes(field, bytes.as_slice()),
        Leaf::IpAddr(address) => doc.add_ip_addr(field, address),
    }
}

/// Whether a field of `field_type` coerces.
fn coerces(field_type: &FieldType) -> bool
    ensures { result ≡ (entry_of [] field_type.now).coerce }
{
    match field_type {
        FieldType::Str(options) => options.should_coerce(),
        FieldType::U64(options) | FieldType::I64(options) | FieldType::Bool(options) =>
            options.should_coerce(),
        _ => false,
    }
}
