//! Segments that are written of the documents of a line.

use case_lines::{Refusal, document_of_values, number_in, part};
use schema::Schema;
use serde_json::Value;
use std::alloc::Global;

/// The bytes of the segment of documents `[[VALUES, TIMES], ..]`, with blocks of a given size.
pub(crate) fn written(
    alloc: Global,
    schema: &Schema,
    list: &[Value],
    block_size: usize,
) -> Result<Vec<u8>, Refusal> {
    let mut documents = Vec::with_capacity(alloc, list.len())?;
    for document in list {
        let values = part(document, 0)?.as_array().ok_or(Refusal::NotAsked)?;
        let times = number_in(part(document, 1)?)?;
        documents.push((document_of_values(alloc, values)?, times))?;
    }
    case_segments::written(alloc, schema, &documents, block_size)
}
