//! The reading of a device's file, and the index of what was read.

ghost use Rattle.std.specs.Prelude.{◌<◌, ◌^◌, ◌≡◌, ◌⊎◌, IfErr, IfOk, IsTrue, List, length, map, true, ℕ};
ghost use Rattle.std.specs.List.{AllByRecursion, AllZip};
ghost use Rattle.definitions.specs.Disk.{HasCause, settled};
ghost use Rattle.definitions.specs.Making.{are_analyzed};
ghost use Rattle.definitions.specs.Moments.{LeavesOnly};
ghost use Rattle.definitions.specs.Step.{configuration_of, reopened};
ghost use Rattle.definitions.specs.Values.{Document};
ghost use Rattle.definitions.specs.declared.fault.Fault.TheVariants as faults;
ghost use Rattle.layouts.specs.RecordFiles.{EndsAt, IsAtRest};
ghost use Rattle.index_file.specs.Kept.{IsKept, IsOldOrOf};
ghost use Rattle.index_file.specs.Outcomes.{CountsNoOther};
ghost use Rattle.engine.specs.Files.{IsOpenFault, IsOpenRefusal};
ghost use Rattle.engine.specs.Indexes.{IndexStands, IsIdle, analyzer_after, device_after, device_of, ending_of, gate_of, members_of, schema_of, settings_of};
ghost use Rattle.index_file.specs.Lists.{IsListed, LeavesList, member_of};
ghost use Rattle.segment_definitions.specs.IndexFiles.{IsGroup};

use crate::index::Index;
use crate::refused_opening::Refused;
use bytes::Bytes;
use common::{Analyzer, Device};
use definitions::Fault;
use index_file::{IndexFile, RecordFile, are_analyzed};
use index_state::IndexState;
use std::alloc::Global;

/// Reads the file of an index whose tokenizers the analyzer knows. Its segments share the bytes that are read.
pub(crate) fn read_file<D: Device, A: Analyzer>(
    alloc: Global,
    device: &mut D,
    analyzer: &A,
) -> Result<IndexFile, Fault>
    ensures honest { D.honest device.new ≡ D.honest device.old }
    ensures cause { HasCause (D.failed device.old) (D.failed device.new) result }
    ensures counted { CountsNoOther (D.failed device.old) (D.failed device.new) result }
    ensures kept { IsTrue (D.honest device.old)
        → IsKept D.moment D.left_since D.content D.unsynced device.old device.new }
    ensures file { IsTrue (D.honest device.old)
        → IfOk result (λ file. LeavesList file.schema file.settings (D.content device.new) file.gate
        (map member_of file.members.items)) }
    ensures inside { IsTrue (D.honest device.old)
        → IfOk result (λ file. file.gate < length (D.content device.new)) }
    ensures short { IfOk result (λ file. file.gate < 2 ^ 63) }
    ensures known { IfOk result (λ file. are_analyzed (A.knows_name analyzer.now) file.schema ≡ true) }
    ensures listed { IfOk result (λ file. AllByRecursion (IsListed file.schema) file.members.items) }
    ensures few { IfOk result (λ file. length file.members.items < 2 ^ 32) }
    ensures refused { IsTrue (D.honest device.old)
        → IfErr result (λ fault.
        (fault ≡ faults.Device) ⊎ (fault ≡ faults.OutOfMemory)
        ⊎ IsOpenRefusal (A.knows_name analyzer.now) (D.content device.new) fault) }
    ensures faults { IfErr result IsOpenFault }
{
    let bytes = device.read(alloc)?;
    let file = IndexFile::open(alloc, Bytes::from_vec(bytes)?)?;
    if !are_analyzed(analyzer, &file.schema) {
        return Err(Fault::UnknownTokenizer);
    }
    Ok(file)
}

/// Opens the index of `file`, which was read from `device`.
pub(crate) fn open_file<D: Device + Drop, A: Analyzer + Drop>(
    alloc: Global,
    device: D,
    analyzer: A,
    file: IndexFile,
) -> Result<Index<D, A>, Refused<D, A>>
    requires inside { IsTrue (D.honest device) → file.gate < length (D.content device) }
    requires short { file.gate < 2 ^ 63 }
    requires listed { AllByRecursion (IsListed file.schema) file.members.items }
    requires few { length file.members.items < 2 ^ 32 }
    ensures stands { (groups : List (List Document))
        → AllZip (IsGroup file.schema (A.analyze analyzer)) (map member_of file.members.items) groups
        → IfOk result (λ index. IndexStands A.analyze index
        (configuration_of file.schema (A.analyze analyzer) file.settings) (reopened groups)) }
    ensures made { IfOk result (λ index.
        (schema_of index ≡ file.schema) × (settings_of index ≡ file.settings)
        × (members_of index ≡ map member_of file.members.items)) }
    ensures idle { IfOk result IsIdle }
    ensures refused { IfErr result (λ r. (r.fault ≡ faults.Device) ⊎ (r.fault ≡ faults.OutOfMemory)) }

    ensures honest { D.honest (device_after result) ≡ D.honest device }
    ensures analyzer { analyzer_after result ≡ analyzer }
    ensures cause { HasCause (D.failed device) (D.failed (device_after result)) (ending_of result) }
    ensures counted { CountsNoOther (D.failed device) (D.failed (device_after result)) (ending_of result) }
    ensures same { IfErr result (λ r. r.fault ≡ faults.OutOfMemory → r.device ≡ device) }

    ensures at_rest { (bodies : List (List ℕ)) → IsTrue (D.honest device)
        → EndsAt (D.content device) file.gate bodies
        → IfOk result (λ index. IsAtRest (D.content (device_of index)) (gate_of index) bodies) }
    ensures unsynced { IsTrue (D.honest device) → IfOk result (λ index.
        D.unsynced (device_of index) ≡ settled (length (D.content (device_of index)))) }
    ensures any_moment { (bodies : List (List ℕ)) → IsTrue (D.honest device)
        → EndsAt (D.content device) file.gate bodies
        → LeavesOnly D.moment D.left_since device (device_after result)
        (IsOldOrOf D.content D.unsynced device bodies) }
{
    let IndexFile {
        gate,
        schema,
        settings,
        members,
    } = file;
    let index_state = match IndexState::of_members(alloc, analyzer, schema, settings, members) {
        Ok(index_state) => index_state,
        Err(analyzer) => {
            return Err(Refused {
                fault: Fault::OutOfMemory,
                device,
                analyzer,
            });
        }
    };
    match RecordFile::settle(device, gate) {
        Ok(file) => Ok(Index { index_state, file }),
        Err((fault, device)) => Err(Refused {
            fault,
            device,
            analyzer: index_state.into_analyzer(),
        }),
    }
}
