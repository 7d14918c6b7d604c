//! Terms from bytes of unknown origin.

ghost use Rattle.std.specs.Prelude.{◌≡◌, IfSome, length};

use codes::FieldNormReader;
use definitions::Fault;
use options::IndexRecordOption;
use segment_postings::check_term;
use std::alloc::{AllocError, Global};
use std::test::Fail;

const BASIC: IndexRecordOption = IndexRecordOption::Basic;

const POSITIONS: IndexRecordOption = IndexRecordOption::WithFreqsAndPositions;

// The documents 0 and 1, with counts 1 and 2.
const POSTINGS_OF_TWO: [u8; 4] = [0x80, 0x80, 0x80, 0x81];

const POSITIONS_OF_TWO: [u8; 4] = [0x80, 0x82, 0x80, 0x81];

// 128 documents of length id 1.
const POSTINGS_OF_ALL: [u8; 8] = [0x87, 0x7f, 0, 0, 0, 0, 1, 1];

// The documents 0, 2, .. 254 of a field without lengths.
const POSTINGS_OF_EVERY_SECOND: [u8; 24] = [
    0x87, 0xfe, 0, 0, 0, 1, 1, 1, 0xfe, 0xff, 0xff, 0xff, 0xff, 0xff, 0xff, 0xff, 0xff, 0xff, 0xff,
    0xff, 0xff, 0xff, 0xff, 0xff,
];

// 128 documents of length id 1, each with count 3, and their positions: each 0.
const POSTINGS_OF_COUNTED: [u8; 45] = [
    0x8c, 0x7f, 0, 0, 0, 0, 2, 0x80, 1, 0, 0, 1, 3, 0xaa, 0xaa, 0xaa, 0xaa, 0xaa, 0xaa, 0xaa, 0xaa,
    0xaa, 0xaa, 0xaa, 0xaa, 0xaa, 0xaa, 0xaa, 0xaa, 0xaa, 0xaa, 0xaa, 0xaa, 0xaa, 0xaa, 0xaa, 0xaa,
    0xaa, 0xaa, 0xaa, 0xaa, 0xaa, 0xaa, 0xaa, 0xaa,
];

const POSITIONS_OF_COUNTED: [u8; 4] = [0x83, 0, 0, 0];

// One length for each of `num_docs` documents, where the field keeps lengths.
fn reader_of(kept: bool, num_docs: u32) -> Option<FieldNormReader<'static>>
    ensures { IfSome result (λ ids. length ids ≡ num_docs) }
{
    if !kept {
        return None;
    }
    Some(FieldNormReader::constant(num_docs, 1))
}

// The bytes of a term, how many documents have it, what is recorded of it, whether its field keeps lengths, and how many
// documents there are, at most 1000.
#[derive(Clone, Copy)]
struct Written<'a> {
    postings: &'a [u8],
    positions: &'a [u8],
    doc_freq: u32,
    option: IndexRecordOption,
    kept: bool,
    num_docs: u32,
}

const TWO: Written<'static> = Written {
    postings: &POSTINGS_OF_TWO,
    positions: &POSITIONS_OF_TWO,
    doc_freq: 2,
    option: POSITIONS,
    kept: true,
    num_docs: 3,
};

const ALL: Written<'static> = Written {
    postings: &POSTINGS_OF_ALL,
    positions: &[],
    doc_freq: 128,
    option: BASIC,
    kept: true,
    num_docs: 128,
};

const EVERY_SECOND: Written<'static> = Written {
    postings: &POSTINGS_OF_EVERY_SECOND,
    positions: &[],
    doc_freq: 128,
    option: BASIC,
    kept: false,
    num_docs: 255,
};

const COUNTED: Written<'static> = Written {
    postings: &POSTINGS_OF_COUNTED,
    positions: &POSITIONS_OF_COUNTED,
    doc_freq: 128,
    option: POSITIONS,
    kept: true,
    num_docs: 128,
};

const DAMAGED: Result<u64, Fault> = Err(Fault::Damaged(None));

// Whether the check of a term with these bytes as its postings answers so.
fn answers_with(term: Written<'_>, postings: &[u8], answer: Result<u64, Fault>) -> bool {
    let num_docs = term.num_docs.min(1000);
    let ids = reader_of(term.kept, num_docs);
    let found = check_term(
        postings,
        term.positions,
        term.doc_freq,
        term.option,
        &ids,
        num_docs,
    );
    found == answer
}

// Whether the check of a term answers so.
fn answers(term: Written<'_>, answer: Result<u64, Fault>) -> bool {
    answers_with(term, term.postings, answer)
}

// Whether worked terms are accepted, each with the sum of its counts.
fn are_accepted() -> bool {
    answers(TWO, Ok(3))
        && answers(ALL, Ok(128))
        && answers(EVERY_SECOND, Ok(128))
        && answers(COUNTED, Ok(384))
}

#[test]
fn worked_terms_are_accepted(rt: HostRuntime) -> Result<(), Fail> {
    assert!(rt; are_accepted());
    Ok(())
}

// Whether a term whose postings are cut at any length is damaged.
fn cut_postings_are_damaged(term: Written<'_>) -> bool {
    let mut right = true;
    for len in 0..term.postings.len() {
        right &= answers_with(term, &term.postings[..len], DAMAGED);
    }
    right
}

// Whether a term whose positions are cut at any length is damaged.
fn cut_positions_are_damaged(term: Written<'_>) -> bool {
    let mut right = true;
    for len in 0..term.positions.len() {
        let mut cut = term;
        cut.positions = &term.positions[..len];
        right &= answers(cut, DAMAGED);
    }
    right
}

#[test]
fn cuts_are_damaged(rt: HostRuntime) -> Result<(), Fail> {
    let right = cut_postings_are_damaged(TWO)
        && cut_positions_are_damaged(TWO)
        && cut_postings_are_damaged(ALL)
        && cut_postings_are_damaged(EVERY_SECOND);
    assert!(rt; right);
    Ok(())
}

// Whether a term is damaged with this byte at any offset of its postings, unless the byte is there anyway.
fn changes_are_damaged(
    alloc: Global,
    term: Written<'_>,
    byte: u8,
    answer: Result<u64, Fault>,
) -> Result<bool, AllocError> {
    let mut right = true;
    for offset in 0..term.postings.len() {
        let mut bytes = term.postings.to_vec(alloc)?;
        bytes[offset] = byte;
        let is_same = byte == term.postings[offset];
        right &= answers_with(term, &bytes, if is_same { answer } else { DAMAGED });
    }
    Ok(right)
}

// Whether worked terms are damaged with this byte at any offset.
fn terms_are_damaged(alloc: Global, byte: u8) -> Result<bool, AllocError> {
    let mut right = changes_are_damaged(alloc, TWO, byte, Ok(3))?;
    right &= changes_are_damaged(alloc, ALL, byte, Ok(128))?;
    right &= changes_are_damaged(alloc, EVERY_SECOND, byte, Ok(128))?;
    right &= changes_are_damaged(alloc, COUNTED, byte, Ok(384))?;
    Ok(right)
}

#[test]
fn changed_bytes_are_damaged(rt: HostRuntime) -> Result<(), Fail> {
    let right = terms_are_damaged(rt.alloc(), 0)? && terms_are_damaged(rt.alloc(), 0xff)?;
    assert!(rt; right);
    Ok(())
}

// Positions of the documents 0 and 1, with counts 1 and 2, and the answer.
const OF_TWO: [(&[u8], Result<u64, Fault>); 6] = [
    (&[0x80, 0x82, 0x80, 0x7f, 0x7f, 0x7f, 0x7f, 0x87], Ok(3)),
    // A position of 2^31, by one number and by two.
    (
        &[0x80, 0, 0, 0, 0, 0x88, 0x80, 0x80],
        Err(Fault::Damaged(None)),
    ),
    (
        &[0x80, 0x82, 0x81, 0x7f, 0x7f, 0x7f, 0x7f, 0x87],
        Err(Fault::Damaged(None)),
    ),
    // One position more or less, and none.
    (&[0x80, 0x82, 0x80, 0x81, 0x80], Err(Fault::Damaged(None))),
    (&[0x80, 0x82, 0x80], Err(Fault::Damaged(None))),
    (&[], Err(Fault::Damaged(None))),
];

// Whether the term of two documents is answered so with each of these positions.
fn are_positions_checked() -> bool {
    let mut right = true;
    for (positions, answer) in OF_TWO {
        let mut term = TWO;
        term.positions = positions;
        right &= answers(term, answer);
    }
    let mut of_none = ALL;
    of_none.positions = &[0x80];
    right && answers(of_none, DAMAGED)
}

#[test]
fn positions_are_checked(rt: HostRuntime) -> Result<(), Fail> {
    assert!(rt; are_positions_checked());
    Ok(())
}

// Whether a term of a segment of `num_docs` documents is answered by `answer`.
fn answers_among(term: Written<'_>, num_docs: u32, answer: Result<u64, Fault>) -> bool {
    let mut term = term;
    term.num_docs = num_docs;
    answers(term, answer)
}

// Whether a document past those of the segment is damage.
fn are_documents_limited() -> bool {
    answers_among(TWO, 2, Ok(3))
        && answers_among(TWO, 1, DAMAGED)
        && answers_among(EVERY_SECOND, 254, DAMAGED)
}

// Whether a term is damaged with another number of documents, or with a byte behind it.
fn are_documents_counted() -> bool {
    let mut of_one = TWO;
    of_one.doc_freq = 1;
    let mut of_none = ALL;
    of_none.postings = &[];
    of_none.doc_freq = 0;
    let mut longer = TWO;
    longer.postings = &[0x80, 0x80, 0x80, 0x81, 0x80];
    answers(of_one, DAMAGED) && answers(of_none, DAMAGED) && answers(longer, DAMAGED)
}

#[test]
fn documents_are_those_of_the_segment(rt: HostRuntime) -> Result<(), Fail> {
    assert!(rt; are_documents_limited() && are_documents_counted());
    Ok(())
}
