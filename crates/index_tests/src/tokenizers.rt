//! Indexes whose tokenizer an analyzer of the tests' own knows, and the analyzer of `raw` and `default` doesn't.

use crate::indexes::{builder, new_index, query_for};
use crate::whole_analyzer::Whole;
use common::{Device, MemoryDevice, RawAndDefault};
use definitions::Fault;
use index::{Index, Refused, Settings};
use options::{TextFieldIndexing, TextOptions};
use schema::{Field, Schema, Term};
use std::alloc::Global;
use std::test::Fail;

// An index that finds texts as `Whole` cuts them.
type WholeIndex = Index<MemoryDevice, Whole>;

// A field `title`, at 0, whose tokenizer is `whole`.
fn whole_schema(alloc: Global) -> Result<Schema, Fault> {
    let indexing = TextFieldIndexing::default().set_tokenizer(alloc, "whole")?;
    let title = TextOptions::default().set_indexing_options(indexing);
    let mut builder = Schema::builder(alloc);
    builder.add_text_field("title", title)?;
    Ok(builder.build())
}

// An index of a new file.
fn whole_index(alloc: Global, schema: Schema) -> Result<WholeIndex, Fault> {
    let device = MemoryDevice::new(alloc);
    let settings = Settings::default(alloc)?;
    Ok(Index::create(alloc, device, Whole, schema, settings)?)
}

// An index of one title, which is committed.
fn index_of_title(alloc: Global) -> Result<WholeIndex, Fault> {
    let mut index = whole_index(alloc, whole_schema(alloc)?)?;
    index.add_json(r#"{"title":"The old sea"}"#)?;
    index.commit()?;
    Ok(index)
}

// How many documents hold the token.
fn count_of(alloc: Global, index: &WholeIndex, token: &str) -> Result<u64, Fault> {
    let term = Term::from_field_text(alloc, Field::from_field_id(0), token)?;
    index.count(&query_for(term))
}

// Whether the title is found as it was added, and neither by a word of it nor in other letters.
fn is_title_found(alloc: Global, index: &WholeIndex) -> Result<bool, Fault> {
    let whole = count_of(alloc, index, "The old sea")?;
    let word = count_of(alloc, index, "sea")?;
    let lowered = count_of(alloc, index, "the old sea")?;
    Ok(whole == 1 && word == 0 && lowered == 0)
}

// Whether the title is found once it is committed.
fn is_committed_title_found(alloc: Global) -> Result<bool, Fault> {
    is_title_found(alloc, &index_of_title(alloc)?)
}

// Whether it is found again where the file is opened with an analyzer that knows the tokenizer.
fn is_opened_title_found(alloc: Global) -> Result<bool, Fault> {
    let (device, _analyzer) = index_of_title(alloc)?.into_device();
    is_title_found(alloc, &Index::open(alloc, device, Whole)?)
}

// Whether an opening with an analyzer that doesn't is refused, and the file stays as it was.
fn is_opening_refused(alloc: Global) -> Result<bool, Fault> {
    let (mut device, _analyzer) = index_of_title(alloc)?.into_device();
    let earlier = device.read(alloc)?;
    match Index::open(alloc, device, RawAndDefault) {
        Ok(_index) => Ok(false),
        Err(refused) => {
            let Refused {
                fault,
                mut device,
                analyzer: _analyzer,
            } = refused;
            Ok(fault == Fault::UnknownTokenizer && device.read(alloc)? == earlier)
        }
    }
}

// Whether neither analyzer makes an index of a tokenizer that the other one knows.
fn are_creations_refused(alloc: Global) -> Result<bool, Fault> {
    let of_whole = new_index(alloc, whole_schema(alloc)?).err();
    let of_default = whole_index(alloc, builder(alloc)?.build()).err();
    let unknown = Some(Fault::UnknownTokenizer);
    Ok(of_whole == unknown && of_default == unknown)
}

#[test]
fn a_title_is_found_by_the_whole_of_it(rt: HostRuntime) -> Result<(), Fail> {
    assert!(rt; is_committed_title_found(rt.alloc())?);
    Ok(())
}

#[test]
fn a_known_tokenizer_is_opened(rt: HostRuntime) -> Result<(), Fail> {
    assert!(rt; is_opened_title_found(rt.alloc())?);
    Ok(())
}

#[test]
fn an_unknown_tokenizer_is_not_opened(rt: HostRuntime) -> Result<(), Fail> {
    assert!(rt; is_opening_refused(rt.alloc())?);
    Ok(())
}

#[test]
fn an_unknown_tokenizer_is_not_made(rt: HostRuntime) -> Result<(), Fail> {
    assert!(rt; are_creations_refused(rt.alloc())?);
    Ok(())
}
