//! Calls of the generic impls at types of their own, and calls that may want memory.
use options::{
    INDEXED, IndexRecordOption, NumericOptions, STORED, STRING, TEXT, TextFieldIndexing,
    TextOptions,
};
use std::alloc::{AllocError, Global};

// Whether they say these three.
fn says(options: NumericOptions, stored: bool, indexed: bool, fieldnorms: bool) -> bool {
    options.is_stored() == stored
        && options.is_indexed() == indexed
        && options.fieldnorms() == fieldnorms
}

/// Whether flags and options are joined from both sides.
fn numbers_join() -> bool {
    let indexed = NumericOptions::default().set_indexed();
    says(NumericOptions::from(STORED | INDEXED), true, true, true)
        && says(indexed | STORED, true, true, false)
        && says(STORED | indexed, true, true, false)
        && says(INDEXED | NumericOptions::default(), false, true, true)
}

#[test]
fn flags_of_numbers(rt: HostRuntime) {
    assert!(rt; numbers_join());
}

// Whether they say so, and are indexed by this tokenizer and record option.
fn is_indexed(
    options: &TextOptions,
    stored: bool,
    tokenizer: &str,
    record: IndexRecordOption,
) -> bool {
    let Some(indexing) = options.get_indexing_options() else {
        return false;
    };
    options.is_stored() == stored
        && indexing.tokenizer() == tokenizer
        && indexing.index_option() == record
        && indexing.fieldnorms()
}

/// Whether flags and options are joined from both sides.
fn texts_join() -> bool {
    let positions = IndexRecordOption::WithFreqsAndPositions;
    TextOptions::from(STORED).is_stored()
        && is_indexed(&(TEXT | STORED), true, "default", positions)
        && is_indexed(&(STORED | TEXT), true, "default", positions)
        && is_indexed(&(STRING | TEXT), false, "raw", IndexRecordOption::Basic)
}

#[test]
fn flags_of_texts(rt: HostRuntime) {
    assert!(rt; texts_join());
}

/// The gap of a text field; 2000 where it isn't indexed.
fn gap_of(options: &TextOptions) -> u32 {
    options
        .get_indexing_options()
        .map_or(2000, TextFieldIndexing::gap)
}

/// Whether the gap is 1 unless another is set, and the last one that is set counts.
fn gaps_are_set() -> bool {
    let indexing = TextFieldIndexing::default();
    let set = TextFieldIndexing::default().set_gap(7).set_gap(1000);
    indexing.gap() == 1
        && gap_of(&TEXT) == 1
        && gap_of(&STRING) == 1
        && indexing.set_gap(0).gap() == 0
        && gap_of(&(STORED | TextOptions::default().set_indexing_options(set))) == 1000
}

#[test]
fn gaps_of_texts(rt: HostRuntime) {
    assert!(rt; gaps_are_set());
}

/// Whether calls that may find no memory answer what was set.
fn names_are_kept(alloc: Global) -> Result<bool, AllocError> {
    let indexing = TextFieldIndexing::default()
        .set_gap(9)
        .set_tokenizer(alloc, "words")?;
    let options = TextOptions::default().set_indexing_options(indexing.clone()?);
    let again = options.clone()?;
    Ok(
        indexing.tokenizer() == "words"
            && gap_of(&again) == 9
            && is_indexed(&again, false, "words", IndexRecordOption::Basic),
    )
}

#[test]
fn calls_that_may_want_memory(rt: HostRuntime) -> Result<(), AllocError> {
    assert!(rt; names_are_kept(rt.alloc())?);
    Ok(())
}
