//! Laws of the file of an index.

ghost use Rattle.std.specs.Prelude.{[], ◌++◌, ◌<◌, ◌^◌, ◌∷◌, ◌≡◌, ◌⊎◌, IsTrue, List, ℕ};
ghost use Rattle.std.specs.List.{AllZip};
ghost use Rattle.definitions.specs.Analyzers.{Analyzer};
ghost use Rattle.definitions.specs.Calls.{commit_pending};
ghost use Rattle.definitions.specs.Schema.{Schema};
ghost use Rattle.definitions.specs.Scoring.{Similarity};
ghost use Rattle.definitions.specs.Settings.{Settings};
ghost use Rattle.definitions.specs.State.{added};
ghost use Rattle.definitions.specs.Step.{configuration_of, reopened};
ghost use Rattle.definitions.specs.Values.{Document};
ghost use Rattle.engine.specs.Files.{IsFileOf, LeavesMembers, is_first};
ghost use Rattle.engine.specs.Indexes.{CrashLeavesEither, IndexStands, IsOpened, PassesFile, analyzer_of, device_of, gate_of, members_of, schema_of, settings_of};
ghost use Rattle.layouts.specs.RecordFiles.{IsFresh};
ghost use Rattle.segment_definitions.specs.ListBodies.{Member};
ghost use Rattle.segment_definitions.specs.IndexFiles.{IsGroup, LeavesGroups};

use crate::index::Index;
use common::{Analyzer, Device};

/// States that bytes are the file of at most one index, and leave at most one list of segments.
pub fn a_file_leaves_one_list()
    ensures { (schema fields : Schema) (settings numbers : Settings) (members others : List Member) (bytes : List ℕ)
        → LeavesMembers schema settings members bytes → LeavesMembers fields numbers others bytes
        → (schema ≡ fields) × (settings ≡ numbers) × (members ≡ others) }
{}

/// States that the segments that a file leaves are of the groups that it is of.
pub fn what_a_file_leaves_is_of_its_groups()
    ensures { (schema fields : Schema) (settings numbers : Settings) (analyze : Analyzer) (members : List Member)
        (groups : List (List Document)) (bytes : List ℕ)
        → LeavesMembers schema settings members bytes → IsFileOf fields numbers analyze groups bytes
        → (schema ≡ fields) × (settings ≡ numbers) × AllZip (IsGroup schema analyze) members groups }
{}

/// States that a file after each of whose records documents stand in groups is a file of the last of them.
pub fn a_file_of_records_is_of_its_last_groups()
    ensures { (schema : Schema) (settings : Settings) (analyze : Analyzer) (groups : List (List Document))
        (bytes : List ℕ)
        → LeavesGroups schema settings analyze bytes groups → IsFileOf schema settings analyze groups bytes }
{}

/// States that bytes after the closed gate that follows the last opened record change nothing that a file says.
pub fn bytes_after_the_closed_gate_say_nothing()
    ensures { (schema : Schema) (settings : Settings) (analyze : Analyzer) (groups : List (List Document))
        (bytes more : List ℕ)
        → IsFileOf schema settings analyze groups bytes → IsFileOf schema settings analyze groups (bytes ++ more) }
{}

/// States that the least commit passes no limit of a file that isn't nearly full: that of one document without values,
/// before which nothing was committed, in a schema without fields.
pub fn the_least_commit_fits<D: Device, A: Analyzer>(index: &Index<D, A>)
    ensures { (analyze : Analyzer) (similarity : Similarity) (docs_per_segment : ℕ)
        → 0 < docs_per_segment → members_of index.now ≡ [] → gate_of index.now < 2 ^ 62
        → ¬ PassesFile
        (record { schema = []; analyze = analyze; similarity = similarity; docs_per_segment = docs_per_segment })
        (record { groups = []; pending = added [] ∷ [] }) commit_pending index.now }
{}

/// States what a crash leaves at any moment of a commit or a merge, from `old` to `new`: `opened` on an honest device that
/// holds it, the index stands for the groups before the call or for those after it, and for nothing else.
pub fn a_crashed_call_leaves_one_of_two<D: Device, A: Analyzer>(
    old: &Index<D, A>,
    new: &Index<D, A>,
    opened: &Index<D, A>,
)
    ensures { (one other : List (List Document)) (image : List ℕ) (device : D)
        → CrashLeavesEither A.analyze old.now new.now one other
        → D.left_since (device_of new.now) (D.moment (device_of old.now)) image
        → IsTrue (D.honest device) → D.content device ≡ image
        → IsOpened A.analyze (A.analyze (analyzer_of old.now)) device opened.now
        → IndexStands A.analyze opened.now
        (configuration_of (schema_of old.now) (A.analyze (analyzer_of old.now)) (settings_of old.now)) (reopened one)
        ⊎ IndexStands A.analyze opened.now
        (configuration_of (schema_of old.now) (A.analyze (analyzer_of old.now)) (settings_of old.now))
        (reopened other) }
{}

/// States what is left where a crash of a `create`, or of an opening after one, leaves an index at all: `opened` on an
/// honest device that holds it, the index stands for one without documents.
pub fn a_crashed_create_leaves_no_documents<D: Device, A: Analyzer>(opened: &Index<D, A>)
    ensures { (analyze : Analyzer) (image : List ℕ) (device : D) → IsFresh is_first image
        → IsTrue (D.honest device) → D.content device ≡ image → IsOpened A.analyze analyze device opened.now
        → IndexStands A.analyze opened.now
        (configuration_of (schema_of opened.now) analyze (settings_of opened.now)) (reopened []) }
{}
