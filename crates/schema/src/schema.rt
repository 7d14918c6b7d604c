//! Schemas: fields, each with a number and a name of its own.

ghost use Rattle.std.specs.Prelude.{[], drop, false, filter_map, if◌then◌else◌, is_ok, length, ok_or, option_map, slice_get, take, unwrap_or, ◌+◌, ◌++◌, ◌<◌, ◌↔◌, ◌≡◌, ◌≢◌, ◌≤◌, ◌∷◌, IfErr, IfOk, IsTrue, OnErr, ℕ};
ghost use Rattle.std.specs.List.{AllByRecursion, enumerate_from, last_or};
ghost use Rattle.std.specs.Result.{result_err};
ghost use Rattle.definitions.specs.FieldPaths.{field_at_split, find_field, splits_from};
ghost use Rattle.definitions.specs.Schema.{AreDistinct, Entry, field_named, is_valid_field_name, bool_kind, bytes_kind, date_kind, i64_kind, ip_addr_kind, max_fields, u64_kind, with_field};
ghost use Rattle.definitions.specs.SchemaGrammar.{schema_data, schema_in};
ghost use Rattle.definitions.specs.declared.fault.Fault.TheVariants as faults;
ghost use Rattle.options.specs.Options.{FacetData, JsonData, NumericData, TextData, ValueData};
ghost use Rattle.schema.specs.Entries.{entry_of, facet_entry, json_entry, numeric_entry, text_entry, value_entry};

use crate::field_entry::{FieldEntry, FieldType};
use crate::fields::Fields;
use definitions::Fault;
use options::{
    BytesOptions, DateOptions, FacetOptions, IpAddrOptions, JsonObjectOptions, NumericOptions,
    TextOptions,
};
use std::alloc::Global;
use std::collections::BTreeMap;
use std::marker::Model;
use terms::Field;

/// The most fields of a schema.
const MAX_FIELDS: usize = 4294967295;

/// A schema: the fields of an index. Each has a number, from 0 on, and a name of its own.
#[derive(Drop)]
pub struct Schema {
    fields: Vec<FieldEntry>,
    numbers: BTreeMap<String, Field>,
}

impl Model for Schema {
    ghost use Rattle.definitions.specs.Schema.{Schema as Fields};
    ghost use Rattle.schema.specs.Names.{Numbers};

    ghost Value = { Fields };

    ghost view = { λ s. s.fields.items };

    ghost invariant = { λ s. Numbers s.numbers s.fields.items };
}

/// A builder of a schema, field by field.
#[derive(Drop)]
pub struct SchemaBuilder {
    alloc: Global,
    schema: Schema,
}

impl Model for SchemaBuilder {
    ghost use Rattle.definitions.specs.Schema.{Schema as Fields};

    ghost Value = { Fields };

    ghost view = { λ b. b.schema };
}

impl SchemaBuilder {
    /// Makes a builder without fields.
    pub fn new(alloc: Global) -> SchemaBuilder
        ensures { result ≡ [] }
    {
        SchemaBuilder {
            alloc,
            schema: Schema {
                fields: Vec::new(alloc),
                numbers: BTreeMap::new(alloc),
            },
        }
    }

    /// Adds a text field. A name that another field has is `DuplicateName`, one that is empty or begins with `-` is
    /// `BadName`, and more than 4294967295 fields are `TooManyFields`.
    pub fn add_text_field<T: Into<TextOptions>>(
        &mut self,
        name: &str,
        options: T,
    ) -> Result<Field, Fault>
        ensures ok { IfOk result (λ field. (o : TextData) × T.converts options o
            × (with_field self.old (text_entry name.now o) ≡ Ok self.new) × (field ≡ length self.old)) }
        ensures err { IfErr result (λ fault. fault ≢ faults.OutOfMemory → (o : TextData) × T.converts options o
            × (with_field self.old (text_entry name.now o) ≡ Err fault)) }
        ensures unchanged { OnErr result (self.new ≡ self.old) }
    {
        self.schema
            .add(self.alloc, name, FieldType::Str(options.into()))
    }

    /// Adds a field of numbers from 0 below 2^64; the errors are those of `add_text_field`.
    pub fn add_u64_field<T: Into<NumericOptions>>(
        &mut self,
        name: &str,
        options: T,
    ) -> Result<Field, Fault>
        ensures ok { IfOk result (λ field. (o : NumericData) × T.converts options o
            × (with_field self.old (numeric_entry u64_kind name.now o) ≡ Ok self.new) × (field ≡ length self.old)) }
        ensures err { IfErr result (λ fault. fault ≢ faults.OutOfMemory → (o : NumericData) × T.converts options o
            × (with_field self.old (numeric_entry u64_kind name.now o) ≡ Err fault)) }
        ensures unchanged { OnErr result (self.new ≡ self.old) }
    {
        self.schema
            .add(self.alloc, name, FieldType::U64(options.into()))
    }

    /// Adds a field of signed numbers of 64 bits; the errors are those of `add_text_field`.
    pub fn add_i64_field<T: Into<NumericOptions>>(
        &mut self,
        name: &str,
        options: T,
    ) -> Result<Field, Fault>
        ensures ok { IfOk result (λ field. (o : NumericData) × T.converts options o
            × (with_field self.old (numeric_entry i64_kind name.now o) ≡ Ok self.new) × (field ≡ length self.old)) }
        ensures err { IfErr result (λ fault. fault ≢ faults.OutOfMemory → (o : NumericData) × T.converts options o
            × (with_field self.old (numeric_entry i64_kind name.now o) ≡ Err fault)) }
        ensures unchanged { OnErr result (self.new ≡ self.old) }
    {
        self.schema
            .add(self.alloc, name, FieldType::I64(options.into()))
    }

    /// Adds a field of bools; the errors are those of `add_text_field`.
    pub fn add_bool_field<T: Into<NumericOptions>>(
        &mut self,
        name: &str,
        options: T,
    ) -> Result<Field, Fault>
        ensures ok { IfOk result (λ field. (o : NumericData) × T.converts options o
            × (with_field self.old (numeric_entry bool_kind name.now o) ≡ Ok self.new) × (field ≡ length self.old)) }
        ensures err { IfErr result (λ fault. fault ≢ faults.OutOfMemory → (o : NumericData) × T.converts options o
            × (with_field self.old (numeric_entry bool_kind name.now o) ≡ Err fault)) }
        ensures unchanged { OnErr result (self.new ≡ self.old) }
    {
        self.schema
            .add(self.alloc, name, FieldType::Bool(options.into()))
    }

    /// Adds a field of dates; the errors are those of `add_text_field`.
    pub fn add_date_field<T: Into<DateOptions>>(
        &mut self,
        name: &str,
        options: T,
    ) -> Result<Field, Fault>
        ensures ok { IfOk result (λ field. (o : ValueData) × T.converts options o
            × (with_field self.old (value_entry date_kind name.now o) ≡ Ok self.new) × (field ≡ length self.old)) }
        ensures err { IfErr result (λ fault. fault ≢ faults.OutOfMemory → (o : ValueData) × T.converts options o
            × (with_field self.old (value_entry date_kind name.now o) ≡ Err fault)) }
        ensures unchanged { OnErr result (self.new ≡ self.old) }
    {
        self.schema
            .add(self.alloc, name, FieldType::Date(options.into()))
    }

    /// Adds a field of facets, which is always indexed; the errors are those of `add_text_field`.
    pub fn add_facet_field<T: Into<FacetOptions>>(
        &mut self,
        name: &str,
        options: T,
    ) -> Result<Field, Fault>
        ensures ok { IfOk result (λ field. (o : FacetData) × T.converts options o
            × (with_field self.old (facet_entry name.now o) ≡ Ok self.new) × (field ≡ length self.old)) }
        ensures err { IfErr result (λ fault. fault ≢ faults.OutOfMemory → (o : FacetData) × T.converts options o
            × (with_field self.old (facet_entry name.now o) ≡ Err fault)) }
        ensures unchanged { OnErr result (self.new ≡ self.old) }
    {
        self.schema
            .add(self.alloc, name, FieldType::Facet(options.into()))
    }

    /// Adds a field of bytes; the errors are those of `add_text_field`.
    pub fn add_bytes_field<T: Into<BytesOptions>>(
        &mut self,
        name: &str,
        options: T,
    ) -> Result<Field, Fault>
        ensures ok { IfOk result (λ field. (o : ValueData) × T.converts options o
            × (with_field self.old (value_entry bytes_kind name.now o) ≡ Ok self.new) × (field ≡ length self.old)) }
        ensures err { IfErr result (λ fault. fault ≢ faults.OutOfMemory → (o : ValueData) × T.converts options o
            × (with_field self.old (value_entry bytes_kind name.now o) ≡ Err fault)) }
        ensures unchanged { OnErr result (self.new ≡ self.old) }
    {
        self.schema
            .add(self.alloc, name, FieldType::Bytes(options.into()))
    }

    /// Adds a field of JSON objects; the errors are those of `add_text_field`.
    pub fn add_json_field<T: Into<JsonObjectOptions>>(
        &mut self,
        name: &str,
        options: T,
    ) -> Result<Field, Fault>
        ensures ok { IfOk result (λ field. (o : JsonData) × T.converts options o
            × (with_field self.old (json_entry name.now o) ≡ Ok self.new) × (field ≡ length self.old)) }
        ensures err { IfErr result (λ fault. fault ≢ faults.OutOfMemory → (o : JsonData) × T.converts options o
            × (with_field self.old (json_entry name.now o) ≡ Err fault)) }
        ensures unchanged { OnErr result (self.new ≡ self.old) }
    {
        self.schema
            .add(self.alloc, name, FieldType::JsonObject(options.into()))
    }

    /// Adds a field of IP addresses; the errors are those of `add_text_field`.
    pub fn add_ip_addr_field<T: Into<IpAddrOptions>>(
        &mut self,
        name: &str,
        options: T,
    ) -> Result<Field, Fault>
        ensures ok { IfOk result (λ field. (o : ValueData) × T.converts options o
            × (with_field self.old (value_entry ip_addr_kind name.now o) ≡ Ok self.new) × (field ≡ length self.old)) }
        ensures err { IfErr result (λ fault. fault ≢ faults.OutOfMemory → (o : ValueData) × T.converts options o
            × (with_field self.old (value_entry ip_addr_kind name.now o) ≡ Err fault)) }
        ensures unchanged { OnErr result (self.new ≡ self.old) }
    {
        self.schema
            .add(self.alloc, name, FieldType::IpAddr(options.into()))
    }

    /// Returns the schema of the fields that were added.
    pub fn build(self) -> Schema
        ensures { result ≡ self }
    {
        self.schema
    }
}

impl Schema {
    /// Makes a builder without fields.
    pub fn builder(alloc: Global) -> SchemaBuilder
        ensures { result ≡ [] }
    {
        SchemaBuilder::new(alloc)
    }

    /// Returns the number of fields.
    pub fn num_fields(&self) -> usize
        ensures value { result ≡ length self.now }
        ensures few { length self.now ≤ max_fields }
        ensures distinct { AreDistinct self.now }
        ensures valid { AllByRecursion (λ e. IsTrue (is_valid_field_name e.name)) self.now }
    {
        self.fields.len()
    }

    /// Returns the field with the name `name`; `FieldNotFound` if there is none.
    pub fn get_field(&self, name: &str) -> Result<Field, Fault>
        ensures value { result ≡ ok_or (field_named self.now name.now) faults.FieldNotFound }
        ensures exact { (i : ℕ) → (result ≡ Ok i) ↔ (option_map (λ e. e.name) (slice_get self.now i) ≡ Some name.now) }
    {
        self.numbers.get(name).copied().ok_or(Fault::FieldNotFound)
    }

    /// Splits `path` into a field's name and the rest; returns the field and the rest. The whole path is tried first as
    /// a name, then the longest part before a dot that no backslash escapes.
    pub fn find_field<'a>(&self, path: &'a str) -> Option<(Field, &'a str)>
        ensures { option_map (λ p. (p.0, p.1.now)) result ≡ find_field self.now path.now }
    {
        if let Some(field) = self.number_of(path) {
            return Some((field, ""));
        }
        self.find_before_dot(path)
    }

    /// Returns an iterator over the fields, each with its entry, in the order of their numbers.
    pub fn fields(&self) -> Fields<'_>
        ensures { result ≡ enumerate_from 0 self.now }
    {
        Fields::new(self.fields.as_slice())
    }

    /// Returns the entries of the fields, in the order of their numbers.
    pub(crate) fn entries(&self) -> &[FieldEntry]
        ensures value { result.now ≡ self.now }
        ensures read_back { schema_in (schema_data self.now) ≡ Ok self.now }
    {
        self.fields.as_slice()
    }

    /// Returns the entry of `field`: its name, type and options.
    pub fn get_field_entry(&self, field: Field) -> &FieldEntry
        requires { field < length self.now }
        ensures { slice_get self.now field ≡ Some result.now }
    {
        &self.fields[field.field_id() as usize]
    }

    /// Returns the name of `field`.
    pub fn get_field_name(&self, field: Field) -> &str
        requires { field < length self.now }
        ensures { option_map (λ e. e.name) (slice_get self.now field) ≡ Some result.now }
    {
        self.get_field_entry(field).name()
    }

    /// Returns the field with the name `name`, if there is one.
    fn number_of(&self, name: &str) -> Option<Field>
        ensures { result ≡ field_named self.now name.now }
    {
        self.get_field(name).ok()
    }

    /// Splits `path` at the last unescaped dot that comes after a field's name; returns the field and the rest.
    fn find_before_dot<'a>(&self, path: &'a str) -> Option<(Field, &'a str)>
        ensures { option_map (λ p. (p.0, p.1.now)) result
            ≡ last_or None (filter_map (field_at_split self.now) (splits_from false path.now)) }
    {
        let mut found = None;
        let mut escaped = false;
        for (i, byte) in path.as_bytes().iter().enumerate() {
            if !escaped && *byte == b'.' {
                if let Some(split) = self.field_before(path, i) {
                    found = Some(split);
                }
            }
            escaped = !escaped && *byte == b'\\';
        }
        found
    }

    /// Returns the field with the name before `dot`, and what follows the dot.
    fn field_before<'a>(&self, path: &'a str, dot: usize) -> Option<(Field, &'a str)>
        requires { slice_get path.now dot ≡ Some 46 }
        ensures { option_map (λ p. (p.0, p.1.now)) result
            ≡ field_at_split self.now (take dot path.now, drop (dot + 1) path.now) }
    {
        let field = self.number_of(&path[..dot])?;
        Some((field, &path[dot + 1..]))
    }

    /// Checks whether a field with the name `name` may be added.
    fn check(&self, name: &str) -> Result<(), Fault>
        ensures { (e : Entry) → e.name ≡ name.now
            → with_field self.now e ≡ (if is_ok result then Ok (self.now ++ e
            ∷ []) else Err (unwrap_or (result_err result) faults.BadName)) }
    {
        if self.number_of(name).is_some() {
            return Err(Fault::DuplicateName);
        }
        if name.is_empty() || name.starts_with('-') {
            return Err(Fault::BadName);
        }
        if self.fields.len() >= MAX_FIELDS {
            return Err(Fault::TooManyFields);
        }
        Ok(())
    }

    /// Adds a field. What can fail comes before any change.
    pub(crate) fn add(
        &mut self,
        alloc: Global,
        name: &str,
        field_type: FieldType,
    ) -> Result<Field, Fault>
        ensures ok { IfOk result (λ field. (with_field self.old (entry_of name.now field_type) ≡ Ok self.new)
            × (field ≡ length self.old)) }
        ensures err { IfErr result (λ fault. fault ≢ faults.OutOfMemory
            → with_field self.old (entry_of name.now field_type) ≡ Err fault) }
        ensures unchanged { OnErr result (self.new ≡ self.old) }
    {
        self.check(name)?;
        let field = Field::from_field_id(self.fields.len() as u32);
        let entry = FieldEntry::new(String::from_str(alloc, name)?, field_type);
        let key = String::from_str(alloc, name)?;
        self.fields.reserve(1)?;
        self.numbers.insert(key, field)?;
        self.fields.push(entry)?;
        Ok(field)
    }
}
