//! Merges of neighbouring committed segments.

ghost use Rattle.std.specs.Prelude.{◌<◌, ◌≡◌, ◌≢◌, ◌≤◌, ◌⊎◌, Err, IfErr, IfOk, List, None, OnOk, Some, ℕ};
ghost use Rattle.std.specs.Result.{result_err};
ghost use Rattle.definitions.specs.Calls as calls;
ghost use Rattle.definitions.specs.declared.fault.Fault.TheVariants as faults;
ghost use Rattle.index_file.specs.Frames.{frame_bytes};
ghost use Rattle.index_state.specs.Merges.{range_fault};
ghost use Rattle.segment_definitions.specs.ListBodies.{Makes};
ghost use Rattle.segment_definitions.specs.Segments.{IsSegment};

use crate::index_state::IndexState;
use crate::prepared_merge::PreparedMerge;
use crate::replaced_segments::replace_range;
use common::Analyzer;
use definitions::Fault;

impl<A: Analyzer + Drop> IndexState<A> {
    ghost use Rattle.index_state.specs.Merges.{Joins, MergePasses, Replaces, members_merged, merge_frame_in};
    ghost use Rattle.index_state.specs.Records.{IsMergeBody, RecordsSegments};
    ghost use Rattle.index_state.specs.Standing.{IsMadeAlike, IsShadow, Stands, members_of, schema_of, state_of, waiting_of};

    /// Prepares a merge of the committed segments `from..to`: makes what it writes and installs, in memory, and
    /// allocates all that it needs. `BadRange` if the range names no segment, or more than there are; `Limit` if one
    /// segment of their living documents would pass a limit. Whatever it returns, the index stays as it is.
    pub fn prepare_merge(&self, from: usize, to: usize) -> Result<PreparedMerge, Fault>
        ensures taken { (c : calls.Configuration) (x : calls.Index) → Stands A.analyze self.now c x
            → OnOk result (calls.call_fault c x (calls.merge_range from to) ≡ None) }
        ensures joins { (c : calls.Configuration) (x : calls.Index) → Stands A.analyze self.now c x
            → IfOk result (Joins A.analyze self.now from to x.state.groups) }
        ensures replaces { IfOk result (Replaces self.now) }
        ensures left { (c : calls.Configuration) (x : calls.Index) → Stands A.analyze self.now c x
            → IfErr result (λ fault. calls.Leaves c x (calls.merge_range from to) (Err fault) x) }
        ensures exact { (c : calls.Configuration) (x : calls.Index) → Stands A.analyze self.now c x
            → IfErr result (λ fault. fault ≢ faults.OutOfMemory → fault ≢ faults.Limit
            → calls.call_fault c x (calls.merge_range from to) ≡ Some fault) }
        ensures fault { IfErr result (λ fault. fault ≢ faults.Device) }
        ensures limit { (c : calls.Configuration) (x : calls.Index) → Stands A.analyze self.now c x
            → IfErr result (λ fault. fault ≡ faults.Limit
            → MergePasses A.analyze self.now from to x.state.groups) }
        ensures body { (c : calls.Configuration) (x : calls.Index) → Stands A.analyze self.now c x
            → IfOk result (λ prepared. (body : List ℕ) × (merge_frame_in prepared ≡ frame_bytes body)
            × Makes (IsSegment c.schema) (members_of self.now) (members_merged self.now prepared) body
            × IsMergeBody c.schema c.analyze from to x.state.groups
            (members_of self.now) (members_merged self.now prepared) body) }

        // Of any index, whatever documents its segments are of.
        ensures refused { (c : calls.Configuration) (x : calls.Index) → IsShadow A.analyze self.now c x
            → IfErr result (λ fault. fault ≢ faults.OutOfMemory → fault ≢ faults.Limit → (fault ≡ faults.Damaged None)
            ⊎ (calls.call_fault c x (calls.merge_range from to) ≡ Some fault)) }
        ensures admitted { (c : calls.Configuration) (x : calls.Index) → IsShadow A.analyze self.now c x
            → OnOk result (calls.call_fault c x (calls.merge_range from to) ≡ None) }
        ensures records { IfOk result (λ prepared. (body : List ℕ) × (merge_frame_in prepared ≡ frame_bytes body)
            × RecordsSegments (schema_of self.now) (calls.merge_range from to)
            (members_of self.now) (members_merged self.now prepared) body) }
    {
        self.check_writer()?;
        check_range(from, to, self.alive.len())?;
        self.merge_record(from, to)
    }

    /// Installs `prepared`: searches see it; what is pending stays. It takes no memory.
    pub fn install_merge(&mut self, prepared: PreparedMerge)
        requires { Replaces self.old prepared }
        ensures left { (c : calls.Configuration) (x : calls.Index) (from to : ℕ) → Stands A.analyze self.old c x
            → Joins A.analyze self.old from to x.state.groups prepared → Stands A.analyze self.new c
            (record { state = calls.after c x.state (calls.merge_range from to); status = x.status }) }
        ensures made { IsMadeAlike self.old self.new }
        ensures members { members_of self.new ≡ members_merged self.old prepared }
        ensures waiting { waiting_of self.new ≡ waiting_of self.old }
        ensures status { state_of self.new ≡ state_of self.old }
    {
        let PreparedMerge {
            segment,
            from,
            to,
            alive,
            ..
        } = prepared;
        replace_range(&mut self.segments, from, to, segment);
        self.alive = alive;
    }
}

/// Checks a range of `num_segments` segments: it names at least one, and none past the last.
fn check_range(from: usize, to: usize, num_segments: usize) -> Result<(), Fault>
    ensures fault { result_err result ≡ range_fault from to num_segments }
    ensures within { OnOk result ((from < to) × (to ≤ num_segments)) }
    ensures err { IfErr result (λ fault. fault ≡ faults.BadRange) }
{
    if from >= to || to > num_segments {
        return Err(Fault::BadRange);
    }
    Ok(())
}
