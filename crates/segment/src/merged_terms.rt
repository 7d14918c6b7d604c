//! The terms, postings and positions of a merge.

ghost use Rattle.std.specs.Prelude.{◌<◌, ◌≡◌, ◌≢◌, ◌≤◌, IfErr, IfOk, List, length, map};
ghost use Rattle.std.specs.List.{AllByRecursion};
ghost use Rattle.definitions.specs.Alive as alive;
ghost use Rattle.definitions.specs.Alive.{live};
ghost use Rattle.definitions.specs.Analyzers.{Analyzer};
ghost use Rattle.definitions.specs.Postings.{postings};
ghost use Rattle.definitions.specs.declared.fault.Fault.TheVariants as faults;
ghost use Rattle.layouts.specs.InvertedIndexes.{AreIndexed, AreSections, IndexedField};
ghost use Rattle.layouts.specs.Stores.{max_docs};
ghost use Rattle.postings_writer.specs.Limits.{IsSerializeRefusal};
ghost use Rattle.segment_definitions.specs.Keys.{AreKeyed};
ghost use Rattle.segment.specs.Members.{AreOpened, StandFor, living_count, member_of, numbered};

use crate::member_segments::MemberSegment;
use codes::FieldNormReaders;
use definitions::Fault;
use merging::{DocIdMapping, Member, merge_fields};
use postings_writer::InvertedIndexSerializer;
use schema::Schema;
use std::alloc::{AllocError, Global};

/// Encodes the sections of terms, postings and positions of the members' living documents, whose lengths are read by
/// `fieldnorm_readers`.
pub(crate) fn merge_terms(
    alloc: Global,
    schema: &Schema,
    members: &[MemberSegment<'_>],
    fieldnorm_readers: &FieldNormReaders<'_>,
) -> Result<(Vec<u8>, Vec<u8>, Vec<u8>), Fault>
    requires opened { ∥ AreOpened schema.now (map member_of members.now) ∥₁ }
    requires some { 0 < living_count (map member_of members.now) }
    requires few { living_count (map member_of members.now) ≤ max_docs }
    requires lengths { AllByRecursion (λ p. length p.1
        ≡ living_count (map member_of members.now)) fieldnorm_readers.now }
    ensures sections { AreOpened schema.now (map member_of members.now)
        → IfOk result (λ sections. (fields : List IndexedField)
        × AreSections schema.now (living_count (map member_of members.now)) fieldnorm_readers.now fields
        sections.0.items sections.1.items sections.2.items × AreKeyed schema.now fields) }
    ensures stands { (analyze : Analyzer) (segments : List alive.Segment)
        → StandFor schema.now analyze (map member_of members.now) segments
        → IfOk result (λ sections. (fields : List IndexedField)
        × AreSections schema.now (living_count (map member_of members.now)) fieldnorm_readers.now fields
        sections.0.items sections.1.items sections.2.items
        × AreIndexed schema.now analyze (live segments) fields × AreKeyed schema.now fields) }
    ensures err { IfErr result (λ fault. fault ≢ faults.OutOfMemory → fault ≡ faults.Limit) }
    ensures limit { (analyze : Analyzer) (segments : List alive.Segment)
        → StandFor schema.now analyze (map member_of members.now) segments
        → IfErr result (λ fault. IsSerializeRefusal fault schema.now fieldnorm_readers.now
        (λ t. postings schema.now analyze t (live segments))) }
{
    let numbered = numbered_members(alloc, members)?;
    let serializer = InvertedIndexSerializer::open(alloc)?;
    let serializer = merge_fields(alloc, schema, &numbered, fieldnorm_readers, serializer)?;
    Ok(serializer.close())
}

/// Lists the terms of each member, with the new ids of its living documents, after those of the members before it.
fn numbered_members<'a>(
    alloc: Global,
    members: &[MemberSegment<'a>],
) -> Result<Vec<Member<'a>>, AllocError>
    requires { living_count (map member_of members.now) ≤ max_docs }
    ensures { IfOk result (λ ms. map (λ m. (m.inverted_index.now, m.doc_ids)) ms.items
        ≡ numbered 0 (map member_of members.now)) }
{
    let mut numbered = Vec::with_capacity(alloc, members.len())?;
    let mut base = 0;
    for member in members {
        let doc_ids = DocIdMapping::new(alloc, base, member.alive)?;
        base = doc_ids.end();
        numbered.push(Member {
            inverted_index: member.segment.inverted_index(),
            doc_ids,
        })?;
    }
    Ok(numbered)
}
