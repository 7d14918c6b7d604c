//! Laws over histories: what calls leave of the list that searches see.

ghost use Rattle.std.specs.Prelude.{◌++◌, ◌-◌, ◌≡◌, ◌≢◌, ◌≤◌, [], List, filter, ℕ};
ghost use Rattle.std.specs.List.{AllByRecursion};
ghost use Rattle.definitions.specs.Analyzers.{Analyzer};
ghost use Rattle.definitions.specs.Calls.{Call, Configuration};
ghost use Rattle.definitions.specs.EqualHistories.{HasRange, SameList, WeighAlike, after_all, documents_within, list_after, with_segments_of, without_merges};
ghost use Rattle.definitions.specs.Query.{Query};
ghost use Rattle.definitions.specs.Scanning.{scan, scan_count};
ghost use Rattle.definitions.specs.Schema.{Schema};
ghost use Rattle.definitions.specs.Scoring.{Similarity};
ghost use Rattle.definitions.specs.Settings.{Settings, similarity_of};
ghost use Rattle.definitions.specs.State.{State, after_add, after_commit, after_delete, after_merge, committed, deleted_terms, is_left, living, marked, num_segments};
ghost use Rattle.definitions.specs.Values.{Document};

/// A merge keeps the list. Where a document stands in its range, one group is left of that range, and else none.
pub fn a_merge_keeps_the_list()
    ensures list { (from to : ℕ) (s : State) → from ≤ to → committed (after_merge from to s) ≡ committed s }
    ensures one_group { (from to : ℕ) (s : State) → to ≤ num_segments s → documents_within from to s ≢ []
        → num_segments (after_merge from to s) ≡ num_segments s - (to - from - 1) }
    ensures no_group { (from to : ℕ) (s : State) → from ≤ to → to ≤ num_segments s → documents_within from to s ≡ []
        → num_segments (after_merge from to s) ≡ num_segments s - (to - from) }
{}

/// Until a commit, adds and deletes leave the list. What scans and counts then say is this once more, since they look at
/// the list alone.
pub fn pending_calls_leave_the_list()
    ensures add { (doc : Document) (s : State) → committed (after_add doc s) ≡ committed s }
    ensures delete { (t : List ℕ) (s : State) → committed (after_delete t s) ≡ committed s }
    ensures add_and_scan { (schema : Schema) (analyze : Analyzer) (sim : Similarity) (doc : Document) (s : State)
        (q : Query) (k : ℕ) → scan schema analyze sim (committed (after_add doc s)) q k
        ≡ scan schema analyze sim (committed s) q k }
    ensures delete_and_scan { (schema : Schema) (analyze : Analyzer) (sim : Similarity) (t : List ℕ) (s : State)
        (q : Query) (k : ℕ) → scan schema analyze sim (committed (after_delete t s)) q k
        ≡ scan schema analyze sim (committed s) q k }
    ensures add_and_count { (schema : Schema) (analyze : Analyzer) (doc : Document) (s : State) (q : Query)
        → scan_count schema analyze (committed (after_add doc s)) q ≡ scan_count schema analyze (committed s) q }
    ensures delete_and_count { (schema : Schema) (analyze : Analyzer) (t : List ℕ) (s : State) (q : Query)
        → scan_count schema analyze (committed (after_delete t s)) q ≡ scan_count schema analyze (committed s) q }
{}

/// A commit with no call that waits changes nothing.
pub fn a_commit_without_pending_calls_changes_nothing()
    ensures { (schema : Schema) (analyze : Analyzer) (docs_per_segment : ℕ) (s : State) → s.pending ≡ []
        → after_commit schema analyze docs_per_segment s ≡ s }
{}

/// A commit leaves the documents that no pending term deletes, and after them the pending documents that are left.
pub fn a_commit_deletes_and_appends()
    ensures { (schema : Schema) (analyze : Analyzer) (docs_per_segment : ℕ) (s : State) → 1 ≤ docs_per_segment
        → committed (after_commit schema analyze docs_per_segment s)
        ≡ filter (is_left schema analyze (deleted_terms s.pending)) (committed s) ++ living
        (marked schema analyze s.pending) }
{}

/// States with one list give the same hits and counts: this says only that scans and counts look at the list alone, and
/// the laws below, that other calls leave one list.
pub fn equal_lists_answer_alike()
    ensures scans { (schema : Schema) (analyze : Analyzer) (sim : Similarity) (s t : State) (q : Query) (k : ℕ)
        → committed s ≡ committed t → scan schema analyze sim (committed s) q k
        ≡ scan schema analyze sim (committed t) q k }
    ensures counts { (schema : Schema) (analyze : Analyzer) (s t : State) (q : Query) → committed s ≡ committed t
        → scan_count schema analyze (committed s) q ≡ scan_count schema analyze (committed t) q }
{}

/// A commit leaves one list whatever the sizes of segments.
pub fn segment_sizes_do_not_matter()
    ensures { (schema : Schema) (analyze : Analyzer) (m n : ℕ) (s t : State) → 1 ≤ m → 1 ≤ n → SameList s t
        → committed (after_commit schema analyze m s) ≡ committed (after_commit schema analyze n t) }
{}

/// Equal calls keep lists equal, at any sizes of segments, and a merge on either side does. What scans and counts say is
/// only that they look at the list alone.
pub fn equal_histories_answer_alike()
    ensures add { (doc : Document) (s t : State) → SameList s t → SameList (after_add doc s) (after_add doc t) }
    ensures delete { (term : List ℕ) (s t : State) → SameList s t
        → SameList (after_delete term s) (after_delete term t) }
    ensures commit { (schema : Schema) (analyze : Analyzer) (m n : ℕ) (s t : State) → 1 ≤ m → 1 ≤ n → SameList s t
        → SameList (after_commit schema analyze m s) (after_commit schema analyze n t) }
    ensures merge { (from to : ℕ) (s t : State) → from ≤ to → SameList s t → SameList (after_merge from to s) t }
    ensures other_merge { (from to : ℕ) (s t : State) → from ≤ to → SameList s t → SameList s (after_merge from to t) }
    ensures scans { (schema : Schema) (analyze : Analyzer) (sim : Similarity) (s t : State) (q : Query) (k : ℕ)
        → SameList s t → scan schema analyze sim (committed s) q k ≡ scan schema analyze sim (committed t) q k }
    ensures counts { (schema : Schema) (analyze : Analyzer) (s t : State) (q : Query) → SameList s t
        → scan_count schema analyze (committed s) q ≡ scan_count schema analyze (committed t) q }
{}

/// Whole histories that differ in merges and in sizes of segments alone leave one list.
pub fn merges_and_segment_sizes_do_not_matter()
    ensures { (c : Configuration) (m n : ℕ) → 1 ≤ m → 1 ≤ n → (calls others : List Call)
        → AllByRecursion HasRange calls → AllByRecursion HasRange others → without_merges calls ≡ without_merges others
        → (s t : State) → SameList s t
        → SameList (after_all (with_segments_of m c) s calls) (after_all (with_segments_of n c) t others) }
{}

/// Histories answer alike that leave one list, where schema, analyzer, weights and norms are equal: with the same hits,
/// their scores and stored values, and the same counts. The sizes of segments, of blocks and of the cache don't matter, and
/// neither do merges: such histories leave one list.
pub fn whole_histories_answer_alike()
    ensures hits { (schema : Schema) (analyze : Analyzer) (a b : Settings) (calls others : List Call) → WeighAlike a b
        → list_after schema analyze a calls ≡ list_after schema analyze b others → (q : Query) (k : ℕ)
        → scan schema analyze (similarity_of a) (list_after schema analyze a calls) q k
        ≡ scan schema analyze (similarity_of b) (list_after schema analyze b others) q k }
    ensures counts { (schema : Schema) (analyze : Analyzer) (a b : Settings) (calls others : List Call) → WeighAlike a b
        → list_after schema analyze a calls ≡ list_after schema analyze b others → (q : Query)
        → scan_count schema analyze (list_after schema analyze a calls) q
        ≡ scan_count schema analyze (list_after schema analyze b others) q }
    ensures merges { (schema : Schema) (analyze : Analyzer) (a b : Settings) (calls others : List Call) → WeighAlike a b
        → 1 ≤ a.docs_per_segment → 1 ≤ b.docs_per_segment
        → AllByRecursion HasRange calls → AllByRecursion HasRange others → without_merges calls ≡ without_merges others
        → list_after schema analyze a calls ≡ list_after schema analyze b others }
{}
