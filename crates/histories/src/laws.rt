//! Laws of histories: what stands after any calls, crashes and openings, and what is answered on the way.

ghost use Rattle.std.specs.Prelude.{[], ◌++◌, ◌-◌, ◌<◌, ◌^◌, ◌∷◌, ◌≡◌, ◌⊎◌, List, Ok, false, map, ℕ, ℤ};
ghost use Rattle.std.specs.List.{AllByRecursion};
ghost use Rattle.definitions.specs.Calls.{Call, Configuration, after, commit_pending, count_all, is_commit, is_merge, search_best};
ghost use Rattle.definitions.specs.Moments.{LeavesOnly};
ghost use Rattle.definitions.specs.Query.{Query};
ghost use Rattle.definitions.specs.Scanning.{scan, scan_count};
ghost use Rattle.definitions.specs.State.{committed};
ghost use Rattle.definitions.specs.Step.{reopened};
ghost use Rattle.definitions.specs.Stored.{Named};
ghost use Rattle.definitions.specs.Values.{Document};
ghost use Rattle.histories.specs.Calls.{IsCalled, done, hits, number};
ghost use Rattle.engine.specs.HandedOn.{scored};
ghost use Rattle.engine.specs.Files.{LeavesOneOf};
ghost use Rattle.engine.specs.Indexes.{IndexStands, analyzer_of, device_of, schema_of, settings_of};
ghost use Rattle.histories.specs.Lists.{ImagesHaveLists};
ghost use Rattle.histories.specs.Events.{Event, IsSmooth, MayLead, Outcome, Standing, all_called, called, cut_off, other_within, standing_of, state_after};
ghost use Rattle.histories.specs.Leading.{Begins, LeadsTo};
ghost use Rattle.index_file.specs.Kept.{LeavesNow};

use common::{Analyzer, Device};
use engine::Index;

/// States that every history of an index, of calls, crashes at any moment of them and openings, is one that the
/// definitions allow: each call answers as they say, or is refused by what they refuse it by, but where memory, the
/// device or a limit is why; and the last index stands for what they say. The first one was
/// created, over no groups, or opened, on an honest device.
pub fn every_history_is_that_of_the_definitions<D: Device, A: Analyzer>(
    first: &Index<D, A>,
    last: &Index<D, A>,
)
    ensures { (c : Configuration) (groups : List (List Document)) (events : List Event)
        → Begins D.Device A.Analyzer first.now c groups → LeadsTo D.Device A.Analyzer first.now events last.now
        → (t : Standing) × MayLead c (standing_of groups) events t × IndexStands A.analyze last.now c t.index }
{}

/// States that after any calls, refused ones too, a search finds what a plain scan finds over the documents that the
/// last commit left, and a count counts them. `last` was asked, and `asked` is what it was then.
pub fn calls_are_answered_as_a_plain_scan<D: Device, A: Analyzer>(
    first: &Index<D, A>,
    last: &Index<D, A>,
    asked: &Index<D, A>,
)
    ensures search { (c : Configuration) (groups : List (List Document)) (cs : List (Call × Outcome)) (q : Query)
        (k : ℕ) (shown : List (ℤ × Named))
        → IndexStands A.analyze first.now c (reopened groups)
        → LeadsTo D.Device A.Analyzer first.now (all_called cs) last.now
        → IsCalled A.analyze last.now asked.now (search_best q k) (Ok (hits shown))
        → shown ≡ map scored (scan c.schema c.analyze c.similarity
        (committed (state_after c (reopened groups).state (all_called cs))) q k) }
    ensures count { (c : Configuration) (groups : List (List Document)) (cs : List (Call × Outcome)) (q : Query)
        (n : ℕ)
        → IndexStands A.analyze first.now c (reopened groups)
        → LeadsTo D.Device A.Analyzer first.now (all_called cs) last.now
        → IsCalled A.analyze last.now asked.now (count_all q) (Ok (number n))
        → n ≡ scan_count c.schema c.analyze (committed (state_after c (reopened groups).state (all_called cs))) q }
{}

/// States the same of calls and openings on an honest device that didn't fail: an opening loses what waits, and nothing
/// else.
pub fn openings_are_answered_as_a_plain_scan<D: Device, A: Analyzer>(
    first: &Index<D, A>,
    last: &Index<D, A>,
    asked: &Index<D, A>,
)
    ensures search { (c : Configuration) (groups : List (List Document)) (events : List Event) (q : Query)
        (k : ℕ) (shown : List (ℤ × Named))
        → Begins D.Device A.Analyzer first.now c groups → AllByRecursion IsSmooth events
        → LeadsTo D.Device A.Analyzer first.now events last.now
        → IsCalled A.analyze last.now asked.now (search_best q k) (Ok (hits shown))
        → shown ≡ map scored (scan c.schema c.analyze c.similarity
        (committed (state_after c (reopened groups).state events)) q k) }
    ensures count { (c : Configuration) (groups : List (List Document)) (events : List Event) (q : Query) (n : ℕ)
        → Begins D.Device A.Analyzer first.now c groups → AllByRecursion IsSmooth events
        → LeadsTo D.Device A.Analyzer first.now events last.now
        → IsCalled A.analyze last.now asked.now (count_all q) (Ok (number n))
        → n ≡ scan_count c.schema c.analyze (committed (state_after c (reopened groups).state events)) q }
{}

/// States that after calls and openings on a device that didn't fail, and a crash at any moment of one call more, an
/// index that is opened stands for the groups before that call, or for those after it.
pub fn a_crash_inside_the_last_call_leaves_one_of_two<D: Device, A: Analyzer>(
    first: &Index<D, A>,
    last: &Index<D, A>,
)
    ensures { (c : Configuration) (groups : List (List Document)) (events : List Event) (call : Call)
        → Begins D.Device A.Analyzer first.now c groups → AllByRecursion IsSmooth events
        → LeadsTo D.Device A.Analyzer first.now (events ++ cut_off call ∷ []) last.now
        → IndexStands A.analyze last.now c (reopened (state_after c (reopened groups).state events).groups)
        ⊎ IndexStands A.analyze last.now c
        (reopened (after c (state_after c (reopened groups).state events) call).groups) }
{}

/// States that where every record of the first file gives its list, as after a create, so does every record of each
/// image that a crash may leave after any history, and at any moment of one call more, from `last` to `next`: the last
/// list is what is committed, or what the file may have in its place.
pub fn every_record_of_each_image_gives_its_list<D: Device, A: Analyzer>(
    first: &Index<D, A>,
    last: &Index<D, A>,
    next: &Index<D, A>,
)
    ensures now { (c : Configuration) (groups : List (List Document)) (events : List Event)
        → Begins D.Device A.Analyzer first.now c groups → ImagesHaveLists A.analyze first.now
        → LeadsTo D.Device A.Analyzer first.now events last.now
        → (t : Standing) × MayLead c (standing_of groups) events t × IndexStands A.analyze last.now c t.index
        × LeavesNow D.content D.unsynced (device_of last.now) (LeavesOneOf (schema_of last.now)
        (settings_of last.now) (A.analyze (analyzer_of last.now)) t.index.state.groups t.other) }
    ensures inside { (c : Configuration) (groups : List (List Document)) (events : List Event) (call : Call)
        (outcome : Outcome)
        → Begins D.Device A.Analyzer first.now c groups → ImagesHaveLists A.analyze first.now
        → LeadsTo D.Device A.Analyzer first.now events last.now
        → IsCalled A.analyze last.now next.now call outcome
        → (t : Standing) × MayLead c (standing_of groups) events t
        × LeavesOnly D.moment D.left_since (device_of last.now) (device_of next.now) (LeavesOneOf (schema_of last.now)
        (settings_of last.now) (A.analyze (analyzer_of last.now)) t.index.state.groups (other_within c t call)) }
{}

/// States that what an acknowledged commit installed is there after a crash of any call that doesn't write.
pub fn an_acknowledged_commit_outlives_a_crash()
    ensures { (c : Configuration) (s t : Standing) (call : Call)
        → is_commit call ≡ false → is_merge call ≡ false
        → MayLead c s (called commit_pending (Ok done) ∷ cut_off call ∷ []) t
        → t ≡ standing_of (after c s.index.state commit_pending).groups }
{}

/// States that calls over a device whose failures didn't grow in number aren't answered `Device`.
pub fn a_device_that_does_not_fail_is_not_told<D: Device, A: Analyzer>(
    first: &Index<D, A>,
    last: &Index<D, A>,
)
    ensures { (c : Configuration) (x : Standing) (cs : List (Call × Outcome))
        → IndexStands A.analyze first.now c x.index
        → LeadsTo D.Device A.Analyzer first.now (all_called cs) last.now
        → D.failed (device_of last.now) ≡ D.failed (device_of first.now)
        → D.failed (device_of first.now) < 2 ^ 64 - 1
        → AllByRecursion IsSmooth (all_called cs) }
{}
