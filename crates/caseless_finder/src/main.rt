//! `caseless_finder`: finds titles whatever the case of their letters, by an analyzer of its own.
#![tactic(auto)]

mod case_folding;

use case_folding::CaseFolding;
use index::{
    Analyzer, AnyQuery, BooleanQuery, Fault, Hit, Index, IndexRecordOption, MemoryDevice, Occur,
    OwnedValue, STORED, Schema, Settings, TEXT, Term, TermQuery,
};
use std::alloc::Global;
use std::process::ExitCode;

/// An index in memory, of texts without case.
type Titles = Index<MemoryDevice, CaseFolding>;

fn main(rt: HostRuntime) -> ExitCode {
    match find_all(&rt) {
        Ok(()) => ExitCode::from(0),
        Err(fault) => {
            let _ = eprintln!(rt; "caseless_finder: {fault}");
            ExitCode::from(1)
        }
    }
}

/// Adds three titles, and prints those that have the words of a text, for three texts.
fn find_all(rt: &HostRuntime) -> Result<(), Fault> {
    let mut index = create(rt.alloc())?;
    index.add_json(r#"{"title":"Über die Straße"}"#)?;
    index.add_json(r#"{"title":"ÜBER DEN FLUSS"}"#)?;
    index.add_json(r#"{"title":"Η ΘΑΛΑΣΣΑ"}"#)?;
    index.commit()?;
    find(rt, &mut index, "über")?;
    find(rt, &mut index, "STRASSE über")?;
    find(rt, &mut index, "θαλασσα")
}

/// Creates an index of titles, without documents.
fn create(alloc: Global) -> Result<Titles, Fault> {
    let mut builder = Schema::builder(alloc);
    builder.add_text_field("title", TEXT | STORED)?;
    let settings = Settings::default(alloc)?;
    let device = MemoryDevice::new(alloc);
    let index = Index::create(alloc, device, CaseFolding, builder.build(), settings)?;
    Ok(index)
}

/// Prints the titles that have a word of `text`.
fn find(rt: &HostRuntime, index: &mut Titles, text: &str) -> Result<(), Fault> {
    let query = any_word(rt.alloc(), index, text)?;
    let _ = println!(rt; "{text}:");
    for hit in &index.search(&query, 10)? {
        print_hit(rt, hit);
    }
    Ok(())
}

/// Makes the query for a word of `text`, which is cut as the titles are.
fn any_word(alloc: Global, index: &Titles, text: &str) -> Result<AnyQuery, Fault> {
    let title = index.schema().get_field("title")?;
    let mut clauses = Vec::new(alloc);
    for token in &CaseFolding.tokens(alloc, "default", text)? {
        let word = Term::from_field_text(alloc, title, &token.text)?;
        let query = TermQuery::new(word, IndexRecordOption::WithFreqs);
        clauses.push((Occur::Should, AnyQuery::Term(query)))?;
    }
    Ok(AnyQuery::Boolean(BooleanQuery::new(clauses)))
}

/// Prints the score and the title of `hit`.
fn print_hit(rt: &HostRuntime, hit: &Hit) {
    if let Some([OwnedValue::Str(title), ..]) = hit.doc.get("title") {
        let _ = println!(rt; "  {} {title}", hit.score);
    }
}
