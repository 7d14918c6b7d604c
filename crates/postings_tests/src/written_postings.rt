//! The postings of terms as bytes.

ghost use Rattle.std.specs.Prelude.{◌≡◌, IfOk, IfSome, length};

use codes::FieldNormReader;
use definitions::Fault;
use options::IndexRecordOption;
use postings::PostingsSerializer;
use std::alloc::Global;
use std::test::Fail;

const BASIC: IndexRecordOption = IndexRecordOption::Basic;

const FREQS: IndexRecordOption = IndexRecordOption::WithFreqs;

const POSITIONS: IndexRecordOption = IndexRecordOption::WithFreqsAndPositions;

// The length ids of `num_docs` documents; none where the field keeps no lengths.
fn reader_of(ids: &[u8], num_docs: u32) -> Result<Option<FieldNormReader<'_>>, Fault>
    ensures { IfOk result (λ reader. IfSome reader (λ ids. length ids ≡ num_docs)) }
{
    if ids.is_empty() {
        return Ok(None);
    }
    Ok(Some(FieldNormReader::open(ids, num_docs)?))
}

// Adds documents from 0 on, each so far behind the one before, with these counts.
fn write_docs(
    serializer: &mut PostingsSerializer,
    num_docs: u32,
    step: u32,
    counts: &[u32],
) -> Result<(), Fault>
    requires next { serializer.old.next ≡ 0 }
    requires lengths { IfSome serializer.old.norms (λ ids. length ids ≡ num_docs) }
{
    let mut doc: u32 = 0;
    for count in counts {
        if doc >= num_docs || doc >= 2147483647 || *count == 0 || step == 0 {
            return Err(Fault::InvalidArgument);
        }
        serializer.write_doc(doc, *count)?;
        doc = doc.saturating_add(step);
    }
    Ok(())
}

// The postings of a term in a segment of `num_docs` documents.
fn written(
    alloc: Global,
    mode: IndexRecordOption,
    ids: &[u8],
    num_docs: u32,
    step: u32,
    counts: &[u32],
) -> Result<Vec<u8>, Fault> {
    let Ok(doc_freq) = u32::try_from(counts.len()) else {
        return Err(Fault::InvalidArgument);
    };
    let mut serializer = PostingsSerializer::new(alloc, mode, reader_of(ids, num_docs)?);
    let mut output = Vec::new(alloc);
    serializer.new_term(true);
    write_docs(&mut serializer, num_docs, step, counts)?;
    serializer.close_term(doc_freq, &mut output)?;
    Ok(output)
}

// Whether terms that are worked by hand have their bytes.
fn have_worked_bytes(alloc: Global) -> Result<bool, Fault> {
    let token = written(alloc, BASIC, &[1; 128], 128, 1, &[1; 128])?;
    let sea = written(alloc, POSITIONS, &[3, 3, 1], 3, 1, &[1, 2])?;
    Ok(
        token.as_slice() == b"\x87\x7f\0\0\0\0\x01\x01".as_slice()
            && sea.as_slice() == b"\x80\x80\x80\x81".as_slice(),
    )
}

// Whether every second document of 255 has its bytes.
fn has_every_second(alloc: Global) -> Result<bool, Fault> {
    let bytes = written(alloc, BASIC, &[], 1000, 2, &[1; 128])?;
    Ok(
        bytes.starts_with(b"\x87\xfe\0\0\0\x01\x01\x01\xfe")
            && bytes.len() == 24
            && bytes.ends_with(&[0xff; 15]),
    )
}

#[test]
fn worked_terms_have_bytes(rt: HostRuntime) -> Result<(), Fail> {
    assert!(rt; have_worked_bytes(rt.alloc())? && has_every_second(rt.alloc())?);
    Ok(())
}

// The postings of 128 documents with counts of 3, the last with another; the second has the least length.
fn bounded(alloc: Global, mode: IndexRecordOption, last: u32) -> Result<Vec<u8>, Fault> {
    let mut ids = [9; 128];
    ids[1] = 4;
    let mut counts = [3; 128];
    counts[127] = last;
    written(alloc, mode, &ids, 128, 1, &counts)
}

// Whether a block of counts of 3 tells its bound and has its bytes.
fn is_bound_of_three(alloc: Global) -> Result<bool, Fault> {
    let bytes = bounded(alloc, POSITIONS, 3)?;
    Ok(
        bytes.starts_with(b"\x8c\x7f\0\0\0\0\x02\x80\x01\0\0\x04\x03")
            && bytes.len() == 45
            && bytes.ends_with(&[0xaa; 32]),
    )
}

// Whether the greatest count of a block is told as it is up to 254.
fn are_great_bounds(alloc: Global) -> Result<bool, Fault> {
    let whole = bounded(alloc, FREQS, 254)?;
    let over = bounded(alloc, FREQS, 255)?;
    Ok(
        whole.starts_with(b"\x88\x7f\0\0\0\0\x08\x04\xfe")
            && over.starts_with(b"\x88\x7f\0\0\0\0\x08\x04\xff"),
    )
}

#[test]
fn blocks_tell_their_bounds(rt: HostRuntime) -> Result<(), Fail> {
    assert!(rt; is_bound_of_three(rt.alloc())? && are_great_bounds(rt.alloc())?);
    Ok(())
}

// How many documents, and how many bytes they take with what is recorded: each document with count 1, and
// every second one with count 3.
const LENGTHS: [(usize, [usize; 3], [usize; 3]); 7] = [
    (0, [0, 0, 0], [0, 0, 0]),
    (1, [1, 2, 2], [1, 2, 2]),
    (127, [127, 254, 254], [127, 254, 254]),
    (128, [8, 9, 13], [24, 57, 61]),
    (129, [9, 11, 15], [25, 59, 63]),
    (256, [15, 17, 25], [47, 113, 121]),
    (257, [16, 19, 27], [48, 115, 123]),
];

// Whether a number of documents, equally far apart, take as many bytes as wanted with each of what may be recorded.
fn take_as_many(
    alloc: Global,
    counts: &[u32],
    step: u32,
    wanted: [usize; 3],
) -> Result<bool, Fault> {
    let mut right = true;
    for (i, mode) in [BASIC, FREQS, POSITIONS].into_iter().enumerate() {
        right &= written(alloc, mode, &[], 1000, step, counts)?.len() == wanted[i];
    }
    Ok(right)
}

// Whether terms of each number of documents take as many bytes as wanted.
fn have_their_lengths(alloc: Global) -> Result<bool, Fault> {
    let mut right = true;
    for (docs, every, every_second) in LENGTHS {
        right &= take_as_many(alloc, &[1; 257][..docs], 1, every)?;
        right &= take_as_many(alloc, &[3; 257][..docs], 2, every_second)?;
    }
    Ok(right)
}

#[test]
fn terms_have_as_many_bytes(rt: HostRuntime) -> Result<(), Fail> {
    assert!(rt; have_their_lengths(rt.alloc())?);
    Ok(())
}

// The postings of two terms, one behind the other.
fn two_terms(alloc: Global) -> Result<Vec<u8>, Fault> {
    let mut serializer = PostingsSerializer::new(alloc, POSITIONS, None);
    let mut output = Vec::new(alloc);
    serializer.new_term(false);
    serializer.write_doc(7, 2)?;
    serializer.close_term(1, &mut output)?;
    serializer.new_term(true);
    serializer.write_doc(5, 2)?;
    serializer.write_doc(6, 1)?;
    serializer.close_term(2, &mut output)?;
    Ok(output)
}

#[test]
fn terms_follow_one_another(rt: HostRuntime) -> Result<(), Fail> {
    let bytes = two_terms(rt.alloc())?;
    assert!(rt; bytes.as_slice() == b"\x87\x85\x80\x81\x80".as_slice());
    Ok(())
}

// The postings of 128 documents whose counts come to 2^32, or to one less.
fn greatest(alloc: Global, mode: IndexRecordOption, less: u32) -> Result<Vec<u8>, Fault> {
    let mut counts = [33554432; 128];
    counts[127] -= less.min(1);
    written(alloc, mode, &[], 1000, 1, &counts)
}

// Whether a sum of counts is limited where it is recorded, and only there.
fn are_sums_limited(alloc: Global) -> Result<bool, Fault> {
    let positions = greatest(alloc, POSITIONS, 0).err();
    let counts = greatest(alloc, FREQS, 0).err();
    let docs = greatest(alloc, BASIC, 0)?;
    Ok(positions == Some(Fault::Limit) && counts == Some(Fault::Limit) && docs.len() == 8)
}

#[test]
fn sums_of_counts_have_a_limit(rt: HostRuntime) -> Result<(), Fail> {
    assert!(rt; are_sums_limited(rt.alloc())?);
    Ok(())
}

#[test]
fn the_greatest_sum_is_written(rt: HostRuntime) -> Result<(), Fail> {
    let bytes = greatest(rt.alloc(), POSITIONS, 1)?;
    assert!(rt; bytes.starts_with(b"\x8c\x7f\0\0\0\0\x19\xff\xff\xff\xff\x01\xff"));
    Ok(())
}
