//! The index: its segments, and the file that keeps each commit.

ghost use Rattle.std.specs.Prelude.{[], ◌≡◌, ◌≢◌, ◌⊎◌, IfErr, IfOk, IsTrue, List, None, OnOk, Some, false, length, true, ℕ};
ghost use Rattle.std.specs.Result.{result_err};
ghost use Rattle.definitions.specs.Analyzers.{Analyzer as Cut};
ghost use Rattle.definitions.specs.Calls as calls;
ghost use Rattle.definitions.specs.Disk.{HasCause};
ghost use Rattle.definitions.specs.Making.{are_analyzed, making_fault};
ghost use Rattle.definitions.specs.Moments.{LeavesOnly};
ghost use Rattle.definitions.specs.Schema.{Schema as Fields};
ghost use Rattle.definitions.specs.Settings.{Settings as Numbers};
ghost use Rattle.definitions.specs.State as states;
ghost use Rattle.definitions.specs.Step.{configuration_of, fresh_index};
ghost use Rattle.definitions.specs.Values.{Document};
ghost use Rattle.definitions.specs.declared.fault.Fault.TheVariants as faults;
ghost use Rattle.layouts.specs.RecordFiles.{IsFresh, IsOneOf};
ghost use Rattle.index_file.specs.Kept.{IsKept, LeavesNow};
ghost use Rattle.index_file.specs.Outcomes.{CountsNoOther};
ghost use Rattle.index_state.specs.Standing.{living_in, status_of};
ghost use Rattle.engine.specs.Files.{IsCreateRefusal, IsOldOrSame, IsOpenFault, IsOpenRefusal, LeavesNone, LeavesOneOf, is_first};
ghost use Rattle.engine.specs.Indexes.{ImagesLeave, IndexRests, IndexStands, IsIdle, IsOpened, IsReopened, alloc_of, analyzer_after, analyzer_of, device_after, device_of, ending_of, members_of, schema_of, settings_of, state_of};

use crate::open_file::{open_file, read_file};
use crate::refused_opening::Refused;
use common::{Analyzer, Device};
use definitions::Fault;
use index_file::{RecordFile, first_frame};
use index_state::{IndexState, Status};
use schema::Schema;
use settings::Settings;
use std::alloc::Global;

/// An index: it accepts documents and deletions, keeps each commit as a record of its device's file, and finds the
/// documents that are committed.
#[derive(Drop)]
pub struct Index<D: Device, A: Analyzer> {
    pub(crate) index_state: IndexState<A>,
    pub(crate) file: RecordFile<D>,
}

impl<D: Device + Drop, A: Analyzer + Drop> Index<D, A> {
    /// Creates an index without documents, as the one record of the file on an empty `device`. Errors come in this
    /// order: `TooManyFields` past 65536 fields, `UnknownTokenizer`, `BadSettings` if a weighted term has no JSON form,
    /// `Device`, and `NotEmpty` if the device holds a byte.
    pub fn create(
        alloc: Global,
        device: D,
        analyzer: A,
        schema: Schema,
        settings: Settings,
    ) -> Result<Index<D, A>, Refused<D, A>>
        ensures ok { IfOk result (λ index.
            IndexStands A.analyze index (configuration_of schema (A.analyze analyzer) settings) fresh_index) }
        ensures of { IfOk result (λ index. (schema_of index ≡ schema) × (settings_of index ≡ settings)
            × (members_of index ≡ [])) }
        ensures idle { IfOk result IsIdle }
        ensures made { OnOk result (making_fault (A.knows_name analyzer) schema settings ≡ None) }
        ensures exact { IfErr result (λ r. (r.fault ≡ faults.OutOfMemory)
            ⊎ (making_fault (A.knows_name analyzer) schema settings ≡ Some r.fault)
            ⊎ ((making_fault (A.knows_name analyzer) schema settings ≡ None) × IsCreateRefusal r.fault)) }

        ensures honest { D.honest (device_after result) ≡ D.honest device }
        ensures analyzer { analyzer_after result ≡ analyzer }
        ensures cause { HasCause (D.failed device) (D.failed (device_after result)) (ending_of result) }
        ensures counted { CountsNoOther (D.failed device) (D.failed (device_after result)) (ending_of result) }

        ensures empty { IsTrue (D.honest device) → OnOk result (D.content device ≡ []) }
        ensures not_empty { IsTrue (D.honest device)
            → IfErr result (λ r. r.fault ≡ faults.NotEmpty → D.content device ≢ []) }
        ensures rests { IsTrue (D.honest device) → IfOk result IndexRests }

        // What no index can be made of doesn't touch the device; of other errors only `Device` may. A device that holds
        // a byte stays as it is after `Device` too.
        ensures untouched { IfErr result (λ r.
            making_fault (A.knows_name analyzer) schema settings ≡ Some r.fault → r.device ≡ device) }
        ensures kept { IsTrue (D.honest device) → IfErr result (λ r. r.fault ≢ faults.Device
            → IsKept D.moment D.left_since D.content D.unsynced device r.device) }
        ensures stays { IsTrue (D.honest device) → D.content device ≢ []
            → IfErr result (λ r. IsKept D.moment D.left_since D.content D.unsynced device r.device) }

        // A crash at any moment leaves no index, or one without documents, if before it could leave nothing else: of
        // one record, or of however many. After an `Ok` it leaves one without documents.
        ensures any_moment { IsTrue (D.honest device)
            → LeavesNow D.content D.unsynced device (IsFresh is_first)
            → LeavesOnly D.moment D.left_since device (device_after result) (IsFresh is_first) }
        ensures lists { (cut : Cut) → IsTrue (D.honest device)
            → LeavesNow D.content D.unsynced device (LeavesNone cut)
            → LeavesOnly D.moment D.left_since device (device_after result) (LeavesNone cut) }
        ensures installed { IsTrue (D.honest device) → IfOk result (λ index. ImagesLeave A.analyze index []) }
    {
        let frame = match first_frame(alloc, &analyzer, &schema, &settings) {
            Ok(frame) => frame,
            Err(fault) => {
                return Err(Refused {
                    fault,
                    device,
                    analyzer,
                });
            }
        };
        match RecordFile::create(alloc, device, &frame) {
            Ok(file) => {
                let index_state = IndexState::new(alloc, analyzer, schema, settings);
                Ok(Index { index_state, file })
            }
            Err((fault, device)) => Err(Refused {
                fault,
                device,
                analyzer,
            }),
        }
    }

    /// Opens the index of the file on `device`, with the documents that were committed last. Errors come in this order:
    /// `Device`, `NoIndex`, `Damaged` with the offset of a gate, `UnknownTokenizer`.
    pub fn open(alloc: Global, device: D, analyzer: A) -> Result<Index<D, A>, Refused<D, A>>
        ensures opened { IfOk result (IsOpened A.analyze (A.analyze analyzer) device) }
        ensures idle { IfOk result IsIdle }
        ensures known { IfOk result (λ index. are_analyzed (A.knows_name analyzer) (schema_of index) ≡ true) }
        ensures refused { IsTrue (D.honest device) → IfErr result (λ r.
            (r.fault ≡ faults.Device) ⊎ (r.fault ≡ faults.OutOfMemory)
            ⊎ IsOpenRefusal (A.knows_name analyzer) (D.content device) r.fault) }
        ensures faults { IfErr result (λ r. IsOpenFault r.fault) }

        ensures honest { D.honest (device_after result) ≡ D.honest device }
        ensures analyzer { analyzer_after result ≡ analyzer }
        ensures cause { HasCause (D.failed device) (D.failed (device_after result)) (ending_of result) }
        ensures counted { CountsNoOther (D.failed device) (D.failed (device_after result)) (ending_of result) }
        ensures kept { IsTrue (D.honest device) → IfErr result (λ r. r.fault ≢ faults.Device
            → IsKept D.moment D.left_since D.content D.unsynced device r.device) }

        // At every moment a crash leaves what it might have left before, or a file of the bodies that were read.
        ensures images { IsTrue (D.honest device)
            → LeavesOnly D.moment D.left_since device (device_after result)
            (IsOldOrSame D.content D.unsynced device) }
        // So it has one of two last lists, if it had before; after an `Ok` that for which the index stands.
        ensures lists { (fields : Fields) (numbers : Numbers) (one other : List (List Document))
            → IsTrue (D.honest device)
            → LeavesNow D.content D.unsynced device (LeavesOneOf fields numbers (A.analyze analyzer) one other)
            → LeavesOnly D.moment D.left_since device (device_after result)
            (LeavesOneOf fields numbers (A.analyze analyzer) one other) }
        ensures one_of { (fields : Fields) (numbers : Numbers) (one other : List (List Document))
            → IsTrue (D.honest device)
            → LeavesNow D.content D.unsynced device (LeavesOneOf fields numbers (A.analyze analyzer) one other)
            → IfOk result (λ index.
            IsReopened A.analyze index (configuration_of fields (A.analyze analyzer) numbers) one
            ⊎ IsReopened A.analyze index (configuration_of fields (A.analyze analyzer) numbers) other) }
        // And it is no index or has the empty list, if it was so before, as after a `create` that was refused.
        ensures none { (cut : Cut) → IsTrue (D.honest device)
            → LeavesNow D.content D.unsynced device (LeavesNone cut)
            → LeavesOnly D.moment D.left_since device (device_after result) (LeavesNone cut) }
        ensures empty { IsTrue (D.honest device)
            → LeavesNow D.content D.unsynced device (LeavesNone (A.analyze analyzer))
            → IfOk result (λ index. IsReopened A.analyze index
            (configuration_of (schema_of index) (A.analyze analyzer) (settings_of index)) []) }
        // What a crash may leave is of one of two files, or fresh, at every moment, if it was so before.
        ensures any_moment { (a b : List (List ℕ)) → IsTrue (D.honest device)
            → LeavesNow D.content D.unsynced device (IsOneOf a b)
            → LeavesOnly D.moment D.left_since device (device_after result) (IsOneOf a b) }
        ensures fresh { IsTrue (D.honest device)
            → LeavesNow D.content D.unsynced device (IsFresh is_first)
            → LeavesOnly D.moment D.left_since device (device_after result) (IsFresh is_first) }
    {
        let mut device = device;
        match read_file(alloc, &mut device, &analyzer) {
            Ok(file) => open_file(alloc, device, analyzer, file),
            Err(fault) => Err(Refused {
                fault,
                device,
                analyzer,
            }),
        }
    }

    /// Returns the device and the analyzer, whatever the state; what is pending is dropped.
    pub fn into_device(self) -> (D, A)
        ensures { (result.0 ≡ device_of self) × (result.1 ≡ analyzer_of self) }
    {
        let Index { index_state, file } = self;
        (file.into_device(), index_state.into_analyzer())
    }

    /// Returns what the index may still do.
    pub fn state(&self) -> Status
        ensures stands { (c : calls.Configuration) (x : calls.Index) → IndexStands A.analyze self.now c x
            → x.status ≡ status_of result }
        ensures status { status_of result ≡ state_of self.now }
    {
        self.index_state.state()
    }

    /// Returns the schema.
    pub fn schema(&self) -> &Schema
        ensures { result.now ≡ schema_of self.now }
    {
        self.index_state.schema()
    }

    /// Returns the settings.
    pub fn settings(&self) -> &Settings
        ensures { result.now ≡ settings_of self.now }
    {
        self.index_state.settings()
    }

    /// Returns the allocator.
    pub fn alloc(&self) -> Global
        ensures { result ≡ alloc_of self.now }
    {
        self.index_state.alloc()
    }

    /// Checks that searches are answered.
    pub fn check_open(&self) -> Result<(), Fault>
        ensures stands { (c : calls.Configuration) (x : calls.Index) → IndexStands A.analyze self.now c x
            → result_err result ≡ calls.status_fault x.status true }
        ensures status { result_err result ≡ calls.status_fault (state_of self.now) true }
    {
        self.index_state.check_open()
    }

    /// Checks that changes are accepted.
    pub fn check_writer(&self) -> Result<(), Fault>
        ensures stands { (c : calls.Configuration) (x : calls.Index) → IndexStands A.analyze self.now c x
            → result_err result ≡ calls.status_fault x.status false }
        ensures status { result_err result ≡ calls.status_fault (state_of self.now) false }
    {
        self.index_state.check_writer()
    }

    /// Returns the number of committed segments, those without living documents too.
    pub fn num_segments(&self) -> usize
        ensures stands { (c : calls.Configuration) (x : calls.Index) → IndexStands A.analyze self.now c x
            → result ≡ states.num_segments x.state }
        ensures members { result ≡ length (members_of self.now) }
    {
        self.index_state.num_segments()
    }

    /// Returns the number of documents that are committed and alive.
    pub fn num_docs(&self) -> u64
        ensures stands { (c : calls.Configuration) (x : calls.Index) → IndexStands A.analyze self.now c x
            → result ≡ states.num_docs x.state }
        ensures living { result ≡ living_in (members_of self.now) }
    {
        self.index_state.num_docs()
    }
}
