//! Terms to walk over: each document some 50 behind the one before, with a count of 1 to 4.

ghost use Rattle.std.specs.Prelude.{[], ◌<◌, ◌≡◌, ◌≤◌, IfOk, IfSome, List, OnOk, false, length, true, ℕ};
ghost use Rattle.segment_postings.specs.BoundedBlocks.{AreBounded};
ghost use Rattle.segment_postings.specs.Cursors.{counts_left, cursor_blocks, docs_left, entries_left, skips_left};
ghost use Rattle.segment_postings.specs.Reading.{HasPostings};
ghost use Rattle.segment_postings.specs.TermEntries.{entries_of};
ghost use Rattle.postings_writer.specs.TermWriting.{AreWritten};

use codes::{FieldNormReader, Recorded};
use definitions::Fault;
use options::IndexRecordOption;
use postings::{PostingsSerializer, SegmentPostings};
use std::alloc::Global;

/// Numbers without order.
fn next_state(state: u32) -> u32 {
    state.wrapping_mul(1664525).wrapping_add(1013904223)
}

/// Adds documents, and to the plain list each with its count. The first `num_lengths` have a length.
fn write_docs(
    serializer: &mut PostingsSerializer,
    plain: &mut Vec<(u32, u32)>,
    num_docs: u32,
    num_lengths: u32,
) -> Result<(), Fault>
    requires few { num_docs ≤ 1000000 }
    requires next { serializer.old.next ≡ 0 }
    requires lengths { IfSome serializer.old.norms (λ ids. length ids ≡ num_lengths) }
    requires nothing { AreWritten serializer.old [] [] }
    ensures written { OnOk result ((docs counts : List ℕ) × AreWritten serializer.new docs counts
        × (length docs ≡ num_docs)) }
    ensures same { OnOk result ((serializer.new.option ≡ serializer.old.option)
        × (serializer.new.norms ≡ serializer.old.norms)) }
{
    let mut state = 7u32;
    let mut next = 0;
    for index in 0..num_docs {
        state = next_state(state ^ index);
        let doc = next + (state >> 8) % 99;
        let count = 1 + (state >> 20) % 4;
        if doc >= num_lengths {
            return Err(Fault::Limit);
        }
        serializer.write_doc(doc, count)?;
        plain.push((doc, count))?;
        next = doc + 1;
    }
    Ok(())
}

/// The bytes of a term of a given number of documents with their lengths. The documents go into the plain list as well.
pub(crate) fn written(
    alloc: Global,
    plain: &mut Vec<(u32, u32)>,
    num_docs: u32,
    lengths: FieldNormReader<'_>,
) -> Result<Vec<u8>, Fault>
    requires { num_docs ≤ 1000000 }
    ensures { IfOk result (λ bytes. (docs counts : List ℕ)
        × (known : HasPostings true false num_docs bytes.items docs counts) × (known.ids ≡ lengths.entry)) }
{
    let num_lengths = lengths.num_docs();
    let option = IndexRecordOption::WithFreqs;
    let mut serializer = PostingsSerializer::new(alloc, option, Some(lengths));
    let mut bytes = Vec::new(alloc);
    write_docs(&mut serializer, plain, num_docs, num_lengths)?;
    serializer.close_term(num_docs, &mut bytes)?;
    Ok(bytes)
}

/// The cursor at its first document.
pub(crate) fn opened(bytes: &[u8], num_docs: u32) -> SegmentPostings<'_>
    requires { (docs counts : List ℕ) × HasPostings true false num_docs bytes.now docs counts }
    ensures entries { (docs counts : List ℕ) → HasPostings true false num_docs bytes.now docs counts
        → entries_left result ≡ entries_of docs counts [] }
    ensures bounded { (docs counts : List ℕ) (known : HasPostings true false num_docs bytes.now docs counts)
        → AreBounded known.ids (skips_left (cursor_blocks result)) (docs_left (cursor_blocks result))
        (counts_left (cursor_blocks result)) }
{
    let recorded = Recorded {
        counts: true,
        positions: false,
    };
    SegmentPostings::new(bytes, num_docs, recorded, true)
}
