//! The writing of the postings of a member.

ghost use Rattle.std.specs.Prelude.{[], ◌++◌, ◌+◌, ◌<◌, ◌∷◌, ◌≡◌, ◌≤◌, IfErr, IfOk, IfSome, List, OnErr, OnOk, length, ℕ};
ghost use Rattle.std.specs.List.{AllByRecursion};
ghost use Rattle.docsets.specs.Entries.{first, first_count, first_positions, from, single};
ghost use Rattle.definitions.specs.Postings.{terminated};
ghost use Rattle.layouts.specs.Positions.{differences};
ghost use Rattle.merging.specs.Living.{has_some, living_in};
ghost use Rattle.merging.specs.Mappings.{end_of};
ghost use Rattle.merging.specs.Written.{AreWritten, counts_in};
ghost use Rattle.postings_writer.specs.FieldWriting.{AreKept, IsOpen, IsSameTerm};
ghost use Rattle.postings_writer.specs.TermWriting.{IsSumRefusal, recorded_count};
ghost use Rattle.segment_postings.specs.Cursors.{entries_left};

use crate::doc_id_mapping::DocIdMapping;
use common::TERMINATED;
use definitions::Fault;
use docsets::{DocSet, Postings};
use postings_writer::FieldSerializer;
use segment_postings::SegmentPostings;

/// Writes the living documents of `postings` to the open term, under their new ids, and returns whether there are any.
/// Their counts are those of the cursor, and the differences of their positions go through `deltas` as they are read.
pub fn write_postings(
    postings: &mut SegmentPostings<'_>,
    mapping: &DocIdMapping,
    deltas: &mut Vec<u32>,
    serializer: &mut FieldSerializer<'_>,
) -> Result<bool, Fault>
    requires within { from (length mapping.now.flags) (entries_left postings.old) ≡ [] }
    requires counted { AllByRecursion (λ e. 0 < e.count) (entries_left postings.old) }
    requires few { end_of mapping.now ≤ terminated }
    requires next { serializer.old.writing.next ≤ mapping.now.base }
    requires kept { IfSome serializer.old.writing.norms (λ ids. end_of mapping.now ≤ length ids) }
    ensures ok { OnOk result (AreWritten serializer.old serializer.new
        (living_in mapping.now (entries_left postings.old))) }
    ensures some { IfOk result (λ some. some ≡ has_some (living_in mapping.now (entries_left postings.old))) }
    ensures next { OnOk result (serializer.new.writing.next ≤ end_of mapping.now) }
    ensures err { (docs counts numbers : List ℕ) → IsOpen serializer.old docs counts numbers
        → IfErr result (λ fault. IsSumRefusal fault
        (counts ++ counts_in serializer.old (living_in mapping.now (entries_left postings.old)))) }
    ensures refused { OnErr result (AreKept serializer.old serializer.new) }
{
    let mut some = false;
    let mut doc = postings.doc();
    while doc != TERMINATED {
        if let Some(new_doc) = mapping.get_new_doc_id(doc) {
            write_posting(postings, new_doc, deltas, serializer)?;
            some = true;
        }
        doc = postings.advance();
    }
    Ok(some)
}

/// Writes the current document of `postings` under its new id.
fn write_posting(
    postings: &mut SegmentPostings<'_>,
    new_doc: u32,
    deltas: &mut Vec<u32>,
    serializer: &mut FieldSerializer<'_>,
) -> Result<(), Fault>
    requires on { first (entries_left postings.old) < terminated }
    requires next { serializer.old.writing.next ≤ new_doc }
    requires fits { new_doc < terminated }
    requires kept { IfSome serializer.old.writing.norms (λ ids. new_doc < length ids) }
    requires some { 0 < first_count (entries_left postings.old) }
    ensures entries { entries_left postings.new ≡ entries_left postings.old }
    ensures written { (docs counts numbers : List ℕ) → IsOpen serializer.old docs counts numbers
        → OnOk result (IsOpen serializer.new (docs ++ new_doc ∷ [])
        (counts ++ recorded_count serializer.old.writing.option (first_count (entries_left postings.old)) ∷ [])
        (numbers ++ differences 0 (single (first_positions (entries_left postings.old))))) }
    ensures total { OnOk result (serializer.new.total_term_freq
        ≡ serializer.old.total_term_freq + first_count (entries_left postings.old)) }
    ensures same { OnOk result (IsSameTerm serializer.old serializer.new) }
    ensures next { OnOk result (serializer.new.writing.next ≡ new_doc + 1) }
    ensures err { (docs counts numbers : List ℕ) → IsOpen serializer.old docs counts numbers
        → IfErr result (λ fault. IsSumRefusal fault
        (counts ++ recorded_count serializer.old.writing.option (first_count (entries_left postings.old)) ∷ [])) }
    ensures refused { OnErr result (AreKept serializer.old serializer.new) }
{
    postings.position_deltas(deltas)?;
    serializer.write_doc(new_doc, postings.term_freq(), deltas)?;
    Ok(())
}
