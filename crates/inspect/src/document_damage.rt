//! Documents that can't be read.

ghost use Rattle.std.specs.Prelude.{◌<◌, ◌≡◌, Contains, IfNone, IfOk, IfSome, List, Some, false, map, slice_get, true, ℕ};
ghost use Rattle.std.specs.List.{AllByRecursion};
ghost use Rattle.index_file.specs.Parts.{part_of};
ghost use Rattle.inspect.specs.Documents.{IsNewIn, IsReadable, IsTold, IsUnread, IsWhole};
ghost use Rattle.inspect.specs.declared.records.Record.{Record as Listed};
ghost use Rattle.inspect.specs.declared.damage.Unread.TheVariants.{Block, Slot};
ghost use Rattle.segment.specs.Opened.{blocks_of, bytes_of, num_docs_of};
ghost use Rattle.segment_definitions.specs.ListBodies.{fresh};
ghost use Rattle.store.specs.Slots.{HasSlot, IsBadSlot};

use crate::damage::Unread;
use crate::records::Record;
use bytes::Bytes;
use definitions::Fault;
use index_file::{Member, Part, read_segments_body};
use schema::Schema;
use segment::Segment;
use std::alloc::{AllocError, Global};
use std::collections::VecDeque;

/// A document that can't be read.
#[derive(Drop)]
pub(crate) struct DamagedDocument {
    /// The index of its segment.
    pub(crate) number: usize,
    /// The bytes of its segment.
    pub(crate) segment: Bytes,
    pub(crate) doc: u32,
    pub(crate) unread: Unread,
}

/// Reads every document of `members`, dead or alive, and returns the first one that can't be read.
pub(crate) fn first_damaged(
    schema: &Schema,
    members: Vec<Member>,
) -> Result<Option<DamagedDocument>, Fault>
    ensures some { IfOk result (λ found. IfSome found (IsTold schema.now members.items)) }
    ensures none { IfOk result (λ found. IfNone found (AllByRecursion (IsWhole schema.now) members.items)) }
{
    let num_segments = members.len();
    let mut left = VecDeque::from_vec(members);
    for number in 0..num_segments {
        let Some(member) = left.pop_front() else {
            return Ok(None);
        };
        let Member { mut segment, .. } = member;
        let found = first_unread(schema, &mut segment)?;
        if let Some((doc, unread)) = found {
            let segment = segment.to_bytes()?;
            return Ok(Some(DamagedDocument {
                number,
                segment,
                doc,
                unread,
            }));
        }
    }
    Ok(None)
}

/// Reads every document of `segment`, and returns the first one that can't be read, and why.
fn first_unread(schema: &Schema, segment: &mut Segment) -> Result<Option<(u32, Unread)>, Fault>
    ensures some { IfOk result (λ found. IfSome found (λ p. IsUnread schema.now segment.old p.0 p.1)) }
    ensures none { IfOk result (λ found. IfNone found ((doc : ℕ) → doc < num_docs_of segment.old
        → IsReadable schema.now segment.old doc)) }
    ensures same { bytes_of segment.new ≡ bytes_of segment.old }
{
    for doc in 0..segment.num_docs() {
        match segment.document(schema, doc) {
            Ok(_) => {}
            Err(Fault::Damaged(_gate)) => {
                let unread = why_unread(segment, doc)?;
                return Ok(Some((doc, unread)));
            }
            Err(fault) => return Err(fault),
        }
    }
    Ok(None)
}

/// Returns whether the block of `doc` is damaged, or else its slot.
fn why_unread(segment: &Segment, doc: u32) -> Result<Unread, Fault>
    ensures block { IfOk result (λ unread. unread ≡ Block → IsBadSlot (blocks_of segment.now) doc) }
    ensures slot { IfOk result (λ unread. unread ≡ Slot → (slot : List ℕ) × HasSlot (blocks_of segment.now) doc slot) }
{
    match segment.store().read_document_bytes(doc) {
        Ok(_) => Ok(Unread::Slot),
        Err(Fault::Damaged(_)) => Ok(Unread::Block),
        Err(fault) => Err(fault),
    }
}

/// Returns the index of the first of `records` in which the `segment` is new, and the offset of its gate.
pub(crate) fn record_of(
    alloc: Global,
    records: &[Record<'_>],
    segment: &[u8],
) -> Result<Option<(usize, usize)>, AllocError>
    ensures some { IfOk result (λ found. IfSome found (λ p. (listed : Listed)
        × (slice_get records.now p.0 ≡ Some listed) × (p.1 ≡ listed.gate) × IsNewIn listed.body.now segment.now)) }
    ensures none { IfOk result (λ found. IfNone found ((number : ℕ) (listed : Listed)
        → slice_get records.now number ≡ Some listed → ¬ IsNewIn listed.body.now segment.now)) }
{
    for (number, record) in records.iter().enumerate() {
        let found = is_new_in(alloc, record.body, segment)?;
        if found {
            return Ok(Some((number, record.gate)));
        }
    }
    Ok(None)
}

/// Returns whether `body` lists the `segment` as a new one.
fn is_new_in(alloc: Global, body: &[u8], segment: &[u8]) -> Result<bool, AllocError>
    ensures yes { IfOk result (λ is. is ≡ true → IsNewIn body.now segment.now) }
    ensures no { IfOk result (λ is. is ≡ false → ¬ IsNewIn body.now segment.now) }
{
    match read_segments_body(alloc, body)? {
        Some(read) => Ok(has_fresh(&read.parts, segment)),
        None => Ok(false),
    }
}

/// Returns whether `segment` is a new one in `parts`.
fn has_fresh(parts: &[Part<'_>], segment: &[u8]) -> bool
    ensures yes { result ≡ true → Contains (map part_of parts.now) (fresh segment.now) }
    ensures no { result ≡ false → ¬ Contains (map part_of parts.now) (fresh segment.now) }
{
    for part in parts {
        if is_fresh(part, segment) {
            return true;
        }
    }
    false
}

/// Returns whether `part` is the new `segment`.
fn is_fresh(part: &Part<'_>, segment: &[u8]) -> bool
    ensures yes { result ≡ true → part_of part.now ≡ fresh segment.now }
    ensures no { result ≡ false → ¬ (part_of part.now ≡ fresh segment.now) }
{
    match part {
        Part::Fresh(bytes) => *bytes == segment,
        Part::Kept(_) => false,
    }
}
