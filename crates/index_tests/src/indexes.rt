//! Indexes that the tests ask.

use common::{MemoryDevice, RawAndDefault};
use definitions::Fault;
use index::{AnyQuery, Index, Settings, TermQuery};
use options::{INDEXED, IndexRecordOption, STORED, TEXT};
use schema::{Field, Schema, SchemaBuilder, Term};
use std::alloc::{AllocError, Global};

// An index whose file is in memory.
pub(crate) type MemoryIndex = Index<MemoryDevice, RawAndDefault>;

// The documents of the worked examples.
pub(crate) const DOCS: [&str; 3] = [
    r#"{"title":"the old sea","year":1952}"#,
    r#"{"title":"sea sea wind","year":1987}"#,
    r#"{"title":"wind","year":1952}"#,
];

// Fields `title` and `year`, at 0 and 1.
pub(crate) fn builder(alloc: Global) -> Result<SchemaBuilder, Fault> {
    let mut builder = Schema::builder(alloc);
    builder.add_text_field("title", TEXT | STORED)?;
    builder.add_u64_field("year", INDEXED | STORED)?;
    Ok(builder)
}

// An index of a new file.
pub(crate) fn new_index(alloc: Global, schema: Schema) -> Result<MemoryIndex, Fault> {
    let device = MemoryDevice::new(alloc);
    let settings = Settings::default(alloc)?;
    Ok(Index::create(alloc, device, RawAndDefault, schema, settings)?)
}

// An index of these documents, all committed.
pub(crate) fn index_of(alloc: Global, docs: &[&str]) -> Result<MemoryIndex, Fault> {
    let mut index = new_index(alloc, builder(alloc)?.build())?;
    for doc in docs {
        index.add_json(doc)?;
    }
    index.commit()?;
    Ok(index)
}

// The query for a term with counts.
pub(crate) fn query_for(term: Term) -> AnyQuery {
    AnyQuery::Term(TermQuery::new(term, IndexRecordOption::WithFreqs))
}

// The query for `sea` in `title` with counts.
pub(crate) fn sea(alloc: Global) -> Result<AnyQuery, AllocError> {
    let term = Term::from_field_text(alloc, Field::from_field_id(0), "sea")?;
    Ok(query_for(term))
}
