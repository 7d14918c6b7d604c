//! Schemas of fields of all types, added by calls and by flags.

use definitions::Fault;
use options::{
    BytesOptions, COERCE, DateOptions, FAST, FacetOptions, INDEXED, IpAddrOptions,
    JsonObjectOptions, NumericOptions, STORED, STRING, TEXT, TextFieldIndexing, TextOptions,
};
use schema::{Schema, SchemaBuilder};
use std::alloc::{AllocError, Global};
use std::test::Fail;

/// Adds fields of texts and numbers, by calls and by flags.
fn add_texts_and_numbers(builder: &mut SchemaBuilder) -> Result<(), Fault> {
    builder.add_text_field("t", TEXT | STORED | COERCE)?;
    builder.add_text_field("s", STRING.set_fast())?;
    builder.add_u64_field("n", INDEXED | FAST)?;
    builder.add_i64_field("i", NumericOptions::default().set_fieldnorm() | COERCE)?;
    builder.add_bool_field("o", STORED)?;
    Ok(())
}

/// Adds fields of the other types.
fn add_others(builder: &mut SchemaBuilder) -> Result<(), Fault> {
    builder.add_date_field("d", DateOptions::default().set_indexed())?;
    builder.add_facet_field("f", INDEXED | STORED)?;
    builder.add_bytes_field("b", BytesOptions::default().set_fieldnorms() | FAST)?;
    let options = JsonObjectOptions::default().set_indexing_options(TextFieldIndexing::default());
    builder.add_json_field("j", options.set_expand_dots_enabled() | STORED)?;
    builder.add_ip_addr_field("p", INDEXED | STORED)?;
    Ok(())
}

/// A schema with a field of each type.
fn built(alloc: Global) -> Result<Schema, Fault> {
    let mut builder = Schema::builder(alloc);
    add_texts_and_numbers(&mut builder)?;
    add_others(&mut builder)?;
    Ok(builder.build())
}

/// The fields of that schema.
const BUILT: [&str; 10] = [
    r#"{"name":"t","options":{"coerce":true,"fast":false,"indexing":{"fieldnorms":true,"gap":1,"record":"position","tokenizer":"default"},"stored":true},"type":"text"}"#,
    r#"{"name":"s","options":{"coerce":false,"fast":true,"indexing":{"fieldnorms":true,"gap":1,"record":"basic","tokenizer":"raw"},"stored":false},"type":"text"}"#,
    r#"{"name":"n","options":{"coerce":false,"fast":true,"fieldnorms":true,"indexed":true,"stored":false},"type":"u64"}"#,
    r#"{"name":"i","options":{"coerce":true,"fast":false,"fieldnorms":true,"indexed":false,"stored":false},"type":"i64"}"#,
    r#"{"name":"o","options":{"coerce":false,"fast":false,"fieldnorms":false,"indexed":false,"stored":true},"type":"bool"}"#,
    r#"{"name":"d","options":{"fast":false,"fieldnorms":false,"indexed":true,"stored":false},"type":"date"}"#,
    r#"{"name":"f","options":{"stored":true},"type":"facet"}"#,
    r#"{"name":"b","options":{"fast":true,"fieldnorms":true,"indexed":false,"stored":false},"type":"bytes"}"#,
    r#"{"name":"j","options":{"expand_dots":true,"fast":false,"indexing":{"fieldnorms":true,"record":"basic","tokenizer":"default"},"stored":true},"type":"json_object"}"#,
    r#"{"name":"p","options":{"fast":false,"fieldnorms":true,"indexed":true,"stored":true},"type":"ip_addr"}"#,
];

/// Whether that schema has its fields.
fn are_built(alloc: Global) -> Result<bool, Fault> {
    let value = built(alloc)?.to_json_value(alloc)?;
    let fields = value.as_array().ok_or(Fault::BadSchema)?;
    let mut right = fields.len() == BUILT.len();
    for (field, expected) in fields.iter().zip(BUILT) {
        right &= field.to_string(alloc)?.as_str() == expected;
    }
    Ok(right)
}

#[test]
fn fields_of_all_types_are_added(rt: HostRuntime) -> Result<(), Fail> {
    assert!(rt; are_built(rt.alloc())?);
    Ok(())
}

/// Whether dates and facets have the flags that they are given.
fn dates_and_facets_have_flags() -> bool {
    let date = DateOptions::from(STORED | INDEXED | FAST);
    date.is_stored()
        && date.fieldnorms()
        && date.is_fast()
        && (STORED | DateOptions::default()).is_stored()
        && !DateOptions::from(STORED).is_indexed()
        && FacetOptions::from(STORED | INDEXED).is_stored()
        && !FacetOptions::from(INDEXED).is_stored()
        && (FacetOptions::default() | STORED).is_stored()
}

/// Whether values of the other types have.
fn others_have_flags() -> bool {
    (BytesOptions::default() | INDEXED).fieldnorms()
        && (IpAddrOptions::default().set_indexed() | FAST).is_fast()
        && JsonObjectOptions::from(STORED | FAST).is_fast()
        && NumericOptions::from(COERCE | FAST).should_coerce()
        && TextOptions::from(COERCE).should_coerce()
        && (FAST | TextOptions::default()).is_fast()
}

/// Whether a copy of the options of a JSON field keeps that it is indexed.
fn is_copy_indexed() -> Result<bool, AllocError> {
    let json = JsonObjectOptions::default().set_indexing_options(TextFieldIndexing::default());
    Ok(json.clone()?.is_indexed())
}

// Each generic call at the flags of its options.
#[test]
fn flags_of_the_other_types(rt: HostRuntime) -> Result<(), Fail> {
    assert!(rt; dates_and_facets_have_flags() && others_have_flags() && is_copy_indexed()?);
    Ok(())
}
