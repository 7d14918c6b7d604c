//! The file of an index, opened.

ghost use Rattle.std.specs.Prelude.{[], ◌++◌, ◌<◌, ◌^◌, ◌∷◌, ◌≡◌, ◌≢◌, ◌≤◌, ◌⊎◌, IfErr, IfOk, List, None, Some, drop, length, map, ℕ};
ghost use Rattle.std.specs.List.{AllByRecursion, AllZip};
ghost use Rattle.definitions.specs.Analyzers.{Analyzer};
ghost use Rattle.definitions.specs.Settings as definitions;
ghost use Rattle.definitions.specs.Values.{Document};
ghost use Rattle.definitions.specs.declared.fault.Fault.TheVariants as faults;
ghost use Rattle.layouts.specs.RecordBodies.{first_in};
ghost use Rattle.layouts.specs.RecordFiles.{IsDamaged, sized_body};
ghost use Rattle.index_file.specs.Outcomes.{IsRefusal};
ghost use Rattle.index_file.specs.Lists.{IsListed, LeavesList, member_of};
ghost use Rattle.index_file.specs.Reading.{HasFirst, HasList, IsReadUpTo};
ghost use Rattle.segment_definitions.specs.ListBodies as layout;
ghost use Rattle.segment_definitions.specs.ListBodies.{Makes};
ghost use Rattle.segment_definitions.specs.IndexFiles.{IsGroup, LeavesGroups, TakesSegments};
ghost use Rattle.segment_definitions.specs.Segments.{IsSegment};

use crate::frame::OPEN;
use crate::member::Member;
use crate::next_list::next_list;
use crate::read_first_body;
use crate::record::take_record;
use crate::segment_opener::Opener;
use bytes::Bytes;
use definitions::Fault;
use schema::Schema;
use settings::Settings;
use std::alloc::Global;

/// The fewest bytes of a file with a record.
const LEAST_BYTES: usize = 10;

/// The content of a file: the schema and settings of its index, and the segments after its last record, which share the
/// file's bytes.
#[derive(Drop)]
pub struct IndexFile {
    /// The offset of the closed gate.
    pub gate: usize,
    pub schema: Schema,
    pub settings: Settings,
    pub members: Vec<Member>,
}

impl IndexFile {
    /// Opens the file of these `bytes`. Each segment is opened once, where it is new, and freed at the first record
    /// that doesn't keep it; the bytes of segments aren't copied.
    pub fn open(alloc: Global, bytes: Bytes) -> Result<IndexFile, Fault>
        ensures ok { IfOk result (λ file.
            LeavesList file.schema file.settings bytes file.gate (map member_of file.members.items)) }
        ensures listed { IfOk result (λ file. AllByRecursion (IsListed file.schema) file.members.items) }
        ensures groups { IfOk result (λ file. (analyze : Analyzer) (groups : List (List Document))
            → LeavesGroups file.schema file.settings analyze bytes groups
            → AllZip (IsGroup file.schema analyze) (map member_of file.members.items) groups) }
        ensures err { IfErr result (λ fault. (fault ≡ faults.OutOfMemory) ⊎ IsRefusal TakesSegments bytes fault) }
    {
        if bytes.len() < LEAST_BYTES || bytes.as_slice()[0] != OPEN {
            return Err(Fault::NoIndex);
        }
        let mut rest = bytes.clone()?;
        let (schema, settings) = match take_first(alloc, &mut rest) {
            Ok(made) => made,
            Err(fault) => return Err(at_gate(fault, 0)),
        };
        let opener = Opener {
            alloc,
            schema: &schema,
            cache_num_blocks: settings.cache_blocks() as usize,
        };
        let (members, gate) = last_list(opener, bytes.len(), rest)?;
        Ok(IndexFile {
            gate,
            schema,
            settings,
            members,
        })
    }
}

/// Reads the records in `rest`, after the first one; returns the last one's list and the offset of the closed gate.
fn last_list(
    opener: Opener<'_>,
    num_bytes: usize,
    rest: Bytes,
) -> Result<(Vec<Member>, usize), Fault>
    requires some { 0 < length rest }
    requires inside { length rest ≤ num_bytes }
    ensures ok { IfOk result (λ p. (settings : definitions.Settings) (bytes : List ℕ) → length bytes ≡ num_bytes
        → IsReadUpTo opener.entry.schema.now settings bytes rest []
        → LeavesList opener.entry.schema.now settings bytes p.1 (map member_of p.0.items)) }
    ensures listed { IfOk result (λ p. AllByRecursion (IsListed opener.entry.schema.now) p.0.items) }
    ensures err { IfErr result (λ fault. (fault ≡ faults.OutOfMemory) ⊎ ((offset : ℕ)
        × (fault ≡ faults.Damaged (Some offset)) × ((settings : definitions.Settings) (bytes : List ℕ)
        → length bytes ≡ num_bytes → IsReadUpTo opener.entry.schema.now settings bytes rest []
        → IsDamaged TakesSegments bytes offset))) }
{
    let mut rest = rest;
    let mut members = Vec::new(opener.alloc);
    while rest.as_slice()[0] == OPEN {
        let offset = num_bytes - rest.len();
        members = match take_next(opener, members, &mut rest) {
            Ok(after) => after,
            Err(fault) => return Err(at_gate(fault, offset)),
        };
    }
    Ok((members, num_bytes - rest.len()))
}

/// Decodes the schema and settings from the first record; what isn't a first record is an error.
fn take_first(alloc: Global, rest: &mut Bytes) -> Result<(Schema, Settings), Fault>
    requires { 0 < length rest.old }
    ensures ok { IfOk result (λ made. HasFirst made rest.old rest.new) }
    ensures err { IfErr result (λ fault. fault ≢ faults.OutOfMemory → (body : List ℕ) (gate : ℕ) (more : List ℕ)
        → length body < 2 ^ 64 → drop 1 rest.old ≡ sized_body body ++ gate ∷ more → first_in body ≡ None) }
{
    let body = take_record(rest)?;
    read_made(alloc, body)
}

/// Decodes the schema and settings from `body`; what isn't a first body is an error.
fn read_made(alloc: Global, body: Bytes) -> Result<(Schema, Settings), Fault>
    ensures ok { IfOk result (λ made. first_in body ≡ Some made) }
    ensures err { IfErr result (λ fault. fault ≢ faults.OutOfMemory → first_in body ≡ None) }
{
    let made = read_first_body(alloc, body.as_slice())?;
    made.ok_or(Fault::Damaged(None))
}

/// Applies the next record to the list `before`; what isn't a record that may follow is an error.
fn take_next(
    opener: Opener<'_>,
    before: Vec<Member>,
    rest: &mut Bytes,
) -> Result<Vec<Member>, Fault>
    requires some { 0 < length rest.old }
    requires listed { AllByRecursion (IsListed opener.schema.now) before.items }
    ensures ok { IfOk result (λ after. HasList opener.entry.schema.now
        (map member_of before.items) (map member_of after.items) rest.old rest.new) }
    ensures listed { IfOk result (λ after. AllByRecursion (IsListed opener.entry.schema.now) after.items) }
    ensures err { IfErr result (λ fault. fault ≢ faults.OutOfMemory → (body : List ℕ) (gate : ℕ) (more : List ℕ)
        (after : List layout.Member) → length body < 2 ^ 64
        → drop 1 rest.old ≡ sized_body body ++ gate ∷ more
        → ¬ Makes (IsSegment opener.entry.schema.now) (map member_of before.items) after body) }
{
    let body = take_record(rest)?;
    next_list(opener, before, body)
}

/// Converts an error at the record whose gate is at `offset`: all but out of memory are `Damaged` there.
fn at_gate(fault: Fault, offset: usize) -> Fault
    ensures { ((fault ≡ faults.OutOfMemory) × (result ≡ faults.OutOfMemory))
        ⊎ ((fault ≢ faults.OutOfMemory) × (result ≡ faults.Damaged (Some offset))) }
{
    match fault {
        Fault::OutOfMemory => Fault::OutOfMemory,
        _ => Fault::Damaged(Some(offset as u64)),
    }
}
