//! The bytes of a term's postings, and cursors over them.

ghost use Rattle.std.specs.Prelude.{[], ◌<◌, ◌≡◌, IfOk, IfSome, List, OnOk, false, if◌then◌else◌, length, replicate, true, ℕ};
ghost use Rattle.definitions.specs.Schema.{has_freq, has_positions};
ghost use Rattle.options.specs.RecordOption.{record_option_of};
ghost use Rattle.postings_writer.specs.TermWriting.{AreWritten};
ghost use Rattle.segment_postings.specs.BoundedBlocks.{AreBounded};
ghost use Rattle.segment_postings.specs.Cursors.{counts_left, cursor_blocks, docs_left, entries_left, skips_left};
ghost use Rattle.segment_postings.specs.Reading.{HasPostings};
ghost use Rattle.segment_postings.specs.TermEntries.{entries_of};

use case_lines::Refusal;
use codes::{FieldNormReader, Recorded};
use common::TERMINATED;
use options::IndexRecordOption;
use postings_writer::PostingsSerializer;
use segment_postings::SegmentPostings;
use std::alloc::Global;

/// Adds documents, each with its count. The first `num_docs` have a length.
fn write_docs(
    serializer: &mut PostingsSerializer,
    docs: &[(u32, u32)],
    num_docs: u32,
) -> Result<(), Refusal>
    requires next { serializer.old.next ≡ 0 }
    requires lengths { IfSome serializer.old.norms (λ ids. length ids ≡ num_docs) }
    requires nothing { AreWritten serializer.old [] [] }
    ensures written { OnOk result ((ds counts : List ℕ) × AreWritten serializer.new ds counts × (length ds
        ≡ length docs.now)) }
    ensures same { OnOk result ((serializer.new.option ≡ serializer.old.option)
        × (serializer.new.norms ≡ serializer.old.norms)) }
{
    let mut next = 0;
    for index in 0..docs.len() {
        let (doc, count) = docs[index];
        if doc < next || doc >= TERMINATED || doc >= num_docs || count == 0 {
            return Err(Refusal::NotAsked);
        }
        serializer.write_doc(doc, count)?;
        next = doc + 1;
    }
    Ok(())
}

/// The bytes of a term's postings, each document with its length.
pub(crate) fn written(
    alloc: Global,
    docs: &[(u32, u32)],
    recorded: bool,
    lengths: FieldNormReader<'_>,
) -> Result<Vec<u8>, Refusal>
    requires { length docs.now < 1000000 }
    ensures { IfOk result (λ bytes. (ds counts : List ℕ)
        × (known : HasPostings recorded false (length docs.now) bytes.items ds counts)
        × (known.ids ≡ lengths.entry)) }
{
    let num_docs = lengths.num_docs();
    let mut serializer = PostingsSerializer::new(alloc, option_of(recorded), Some(lengths));
    let mut bytes = Vec::new(alloc);
    write_docs(&mut serializer, docs, num_docs)?;
    serializer.close_term(docs.len() as u32, &mut bytes)?;
    Ok(bytes)
}

/// What is recorded: counts, or only documents.
fn option_of(counts: bool) -> IndexRecordOption
    ensures counts { has_freq (record_option_of result) ≡ counts }
    ensures positions { has_positions (record_option_of result) ≡ false }
{
    if counts {
        return IndexRecordOption::WithFreqs;
    }
    IndexRecordOption::Basic
}

/// The cursor at its first document. Where counts aren't read each is 1.
pub(crate) fn opened(
    bytes: &[u8],
    num_docs: u32,
    recorded: bool,
    reads: bool,
) -> SegmentPostings<'_>
    requires written { (ds counts : List ℕ) × HasPostings recorded false num_docs bytes.now ds counts }
    requires recorded { reads ≡ true → recorded ≡ true }
    ensures entries { (ds counts : List ℕ) → HasPostings recorded false num_docs bytes.now ds counts
        → entries_left result ≡ entries_of ds (if reads then counts else replicate num_docs 1) [] }
    ensures bounded { (ds counts : List ℕ) (known : HasPostings recorded false num_docs bytes.now ds counts)
        → AreBounded known.ids (skips_left (cursor_blocks result)) (docs_left (cursor_blocks result))
        (counts_left (cursor_blocks result)) }
{
    let recorded = Recorded {
        counts: recorded,
        positions: false,
    };
    SegmentPostings::new(bytes, num_docs, recorded, reads)
}
