//! Lengths of fields that are recorded document by document.

use codes::{FieldNormReaders, FieldNormsSerializer, FieldNormsWriter};
use definitions::Fault;
use std::alloc::Global;
use std::test::Fail;

// Lengths 3, 3 and 1 of field 0 alone.
const SECTION: &[u8] = b"\x00\x00\x00\x00\x03\x03\x01";

/// The section of three documents with lengths in one field.
fn section(alloc: Global) -> Result<Vec<u8>, Fault> {
    let mut writer = FieldNormsWriter::for_fields(alloc, &[0])?;
    writer.record(0, 0, 3)?;
    writer.record(1, 0, 3)?;
    writer.record(2, 0, 1)?;
    Ok(writer.serialize(FieldNormsSerializer::from_write(Vec::new(alloc)))?)
}

#[test]
fn a_section_of_lengths(rt: HostRuntime) -> Result<(), Fail> {
    let bytes = section(rt.alloc())?;
    assert!(rt; bytes.as_slice() == SECTION);
    Ok(())
}

// Of two fields and three documents: length 41 of document 1 in field 1; field 2, where document 0 has 9, keeps none.
const TWO_FIELDS: &[u8] = b"\x01\x00\x00\x00\x00\x28\x00\x02\x01\x00\x00\x00\x00\x00";

/// The section of two fields.
fn section_of_two(alloc: Global) -> Result<Vec<u8>, Fault> {
    let mut writer = FieldNormsWriter::for_fields(alloc, &[1, 258])?;
    writer.record(1, 1, 41)?;
    writer.record(0, 2, 9)?;
    writer.fill_up_to_max_doc(3)?;
    Ok(writer.serialize(FieldNormsSerializer::from_write(Vec::new(alloc)))?)
}

/// Whether field 1 of that section has its lengths, and field 2 none.
fn are_lengths_read() -> Result<bool, Fault> {
    let readers = FieldNormReaders::open(TWO_FIELDS, 3, &[1, 258])?;
    let Some(reader) = readers.get_field(1) else {
        return Ok(false);
    };
    let read = reader.num_docs() == 3 && reader.fieldnorm_id(1) == 40 && reader.fieldnorm(1) == 40;
    Ok(read && readers.get_field(2).is_none())
}

#[test]
fn documents_without_a_field_have_length_0(rt: HostRuntime) -> Result<(), Fail> {
    let bytes = section_of_two(rt.alloc())?;
    assert!(rt; bytes.as_slice() == TWO_FIELDS && are_lengths_read()?);
    Ok(())
}
