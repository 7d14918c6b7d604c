//! The library as a program calls it.

use common::{MemoryDevice, RawAndDefault, Score};
use definitions::Fault;
use index::{AnyQuery, Index, Settings, TermQuery};
use options::{IndexRecordOption, STORED, TEXT};
use schema::{Schema, Term};
use std::alloc::Global;
use std::test::Fail;

// The best score of two titles that are searched for `sea`.
fn best_score(alloc: Global) -> Result<Option<Score>, Fault> {
    let mut builder = Schema::builder(alloc);
    let title = builder.add_text_field("title", TEXT | STORED)?;
    let settings = Settings::default(alloc)?;
    let device = MemoryDevice::new(alloc);
    let mut index = Index::create(alloc, device, RawAndDefault, builder.build(), settings)?;
    index.add_json(r#"{"title":"the old sea"}"#)?;
    index.add_json(r#"{"title":"sea sea wind"}"#)?;
    index.commit()?;
    let sea = Term::from_field_text(alloc, title, "sea")?;
    let query = AnyQuery::Term(TermQuery::new(sea, IndexRecordOption::WithFreqs));
    let hits = index.search(&query, 10)?;
    Ok(hits.first().map(|hit| hit.score))
}

#[test]
fn the_best_of_two_titles(rt: HostRuntime) -> Result<(), Fail> {
    assert!(rt; best_score(rt.alloc())? == Some(40));
    Ok(())
}
