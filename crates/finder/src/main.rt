//! `finder`: adds two titles to the index of a file, and prints those with a word, the best first.
#![tactic(auto)]

use index::{
    AnyQuery, Fault, FileDevice, Hit, Index, IndexRecordOption, RawAndDefault, Refused, STORED,
    Schema, Settings, TEXT, Term, TermQuery,
};
use std::process::ExitCode;

/// The file of the index.
const PATH: &str = "titles.idx";

/// The index of a file, whose texts are cut into words of ASCII letters without case.
type Titles = Index<FileDevice, RawAndDefault>;

fn main(rt: HostRuntime) -> ExitCode {
    match find(&rt) {
        Ok(()) => ExitCode::from(0),
        Err(fault) => {
            let _ = eprintln!(rt; "finder: {fault}");
            ExitCode::from(1)
        }
    }
}

/// Adds two titles, and prints those with the word `sea`.
fn find(rt: &HostRuntime) -> Result<(), Fault> {
    let alloc = rt.alloc();
    let mut index = open_or_create(rt)?;
    index.add_json(r#"{"title":"the old sea"}"#)?;
    index.add_json(r#"{"title":"sea sea wind"}"#)?;
    index.commit()?;
    let title = index.schema().get_field("title")?;
    let sea = Term::from_field_text(alloc, title, "sea")?;
    let query = AnyQuery::Term(TermQuery::new(sea, IndexRecordOption::WithFreqs));
    for hit in &index.search(&query, 10)? {
        print_hit(rt, hit);
    }
    Ok(())
}

/// Opens the index of the file, or creates one without documents where there is none yet.
fn open_or_create(rt: &HostRuntime) -> Result<Titles, Fault> {
    let device = FileDevice::open(rt, PATH)?;
    match Index::open(rt.alloc(), device, RawAndDefault) {
        Ok(index) => Ok(index),
        Err(refused) => create(rt, refused),
    }
}

/// Creates an index on the device of what wasn't opened, if that is because it holds none.
fn create(rt: &HostRuntime, refused: Refused<FileDevice, RawAndDefault>) -> Result<Titles, Fault> {
    let alloc = rt.alloc();
    let Refused {
        fault,
        device,
        analyzer,
    } = refused;
    if fault != Fault::NoIndex {
        return Err(fault);
    }
    let mut builder = Schema::builder(alloc);
    builder.add_text_field("title", TEXT | STORED)?;
    let settings = Settings::default(alloc)?;
    let index = Index::create(alloc, device, analyzer, builder.build(), settings)?;
    Ok(index)
}

/// Prints the score of `hit`, and its stored values as JSON.
fn print_hit(rt: &HostRuntime, hit: &Hit) {
    let _ = println!(rt; "{} {}", hit.score, hit.doc);
}
