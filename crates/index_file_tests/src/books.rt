//! Books, and the index whose file the tests look at.

use common::{Device, MemoryDevice, RawAndDefault};
use definitions::Fault;
use index::{AnyQuery, Index, Settings, TermQuery};
use options::{INDEXED, IndexRecordOption, STORED, TEXT};
use schema::{Field, Schema, Term};
use std::alloc::{AllocError, Global};

// An index whose file is in memory.
pub(crate) type MemoryIndex = Index<MemoryDevice, RawAndDefault>;

// The documents of the worked examples.
pub(crate) const BOOKS: [&str; 3] = [
    r#"{"title":"the old sea","year":1952}"#,
    r#"{"title":"sea sea wind","year":1987}"#,
    r#"{"title":"wind","year":1952}"#,
];

// The fields of a book: `title` and `year`, at 0 and 1.
pub(crate) fn book_schema(alloc: Global) -> Result<Schema, Fault> {
    let mut builder = Schema::builder(alloc);
    builder.add_text_field("title", TEXT | STORED)?;
    builder.add_u64_field("year", INDEXED | STORED)?;
    Ok(builder.build())
}

// An index of books, over a device without bytes.
pub(crate) fn new_index<D: Device + Drop>(
    alloc: Global,
    device: D,
) -> Result<Index<D, RawAndDefault>, Fault> {
    let settings = Settings::default(alloc)?;
    Ok(Index::create(alloc, device, RawAndDefault, book_schema(alloc)?, settings)?)
}

// The term `sea` in `title`.
pub(crate) fn sea(alloc: Global) -> Result<Term, AllocError> {
    Term::from_field_text(alloc, Field::from_field_id(0), "sea")
}

// The query for `sea` in `title` with counts.
pub(crate) fn query_for_sea(alloc: Global) -> Result<AnyQuery, AllocError> {
    let query = TermQuery::new(sea(alloc)?, IndexRecordOption::WithFreqs);
    Ok(AnyQuery::Term(query))
}
