//! What commits, deletions and merges leave of documents with their alive flags.

ghost use Rattle.std.specs.Prelude.{[], ◌+◌, ◌++◌, ◌-◌, ◌∷◌, ◌≡◌, ◌≤◌, Bool, List, drop, filter, length, map, not, take, ℕ};
ghost use Rattle.std.specs.List.{list_any};
ghost use Rattle.definitions.specs.Alive.{Segment, live, live_groups};
ghost use Rattle.definitions.specs.Analyzers.{Analyzer};
ghost use Rattle.definitions.specs.Query.{Query};
ghost use Rattle.definitions.specs.Recorded.{holds};
ghost use Rattle.definitions.specs.Scanning.{ranked, scan};
ghost use Rattle.definitions.specs.Schema.{Schema};
ghost use Rattle.definitions.specs.Scoring.{Similarity};
ghost use Rattle.definitions.specs.State.{State, after_commit, as_group, deleted_terms, living, merged};
ghost use Rattle.definitions.specs.Values.{Document};
ghost use Rattle.segment_definitions.specs.Found.{places_from, shown_at};
ghost use Rattle.segment_definitions.specs.Rows.{cut_flags, flagged, left_rows, struck};
ghost use Rattle.segment_definitions.specs.Waiting.{Numbered, Waits, pending_rows, struck_from};

/// States what a commit leaves: the committed documents with their alive flags, in which the documents with a deleted
/// term died, and then the pending ones, where each deletion covers the documents that were added before it.
pub fn a_commit_leaves_rows()
    ensures { (schema : Schema) (analyze : Analyzer) (n : ℕ) (s : State) (rows : List Segment)
        (full : List (List Document)) (last : List Document)
        (dels : List Numbered) → s.groups ≡ live_groups rows → Waits n s.pending full last dels
        → (after_commit schema analyze n s).groups
        ≡ live_groups (map (left_rows (holds schema analyze) (deleted_terms s.pending)) rows
        ++ pending_rows (holds schema analyze) dels n 0 (full ++ as_group last)) }
{}

/// States that a merge replaces a range by one segment of its living documents, or by none where there are none.
pub fn a_merge_leaves_rows()
    ensures { (from to : ℕ) (rows one : List Segment)
        → live_groups one ≡ as_group (live (take (to - from) (drop from rows)))
        → live_groups (take from rows ++ (one ++ drop to rows)) ≡ merged from to (live_groups rows) }
{}

/// States that deletions leave the living documents that have no deleted term; they may be made one by one.
pub fn deletions_filter_the_living()
    ensures filters { (has : List ℕ → Document → Bool) (ts : List (List ℕ)) (rows : Segment)
        → living (left_rows has ts rows) ≡ filter (λ doc. not (list_any (λ t. has t doc) ts)) (living rows) }
    ensures next { (has : List ℕ → Document → Bool) (t : List ℕ) (ts : List (List ℕ)) (rows : Segment)
        → left_rows has (t ∷ ts) rows ≡ left_rows has ts (map (struck (has t)) rows) }
    ensures none { (has : List ℕ → Document → Bool) (rows : Segment) → left_rows has [] rows ≡ rows }
{}

/// States that a numbered deletion covers the documents with smaller numbers: all of a segment before it, none of one
/// after it, and the first ones of the segment that it cuts.
pub fn numbered_deletions_cover_earlier_documents()
    ensures next { (has : List ℕ → Document → Bool) (del : Numbered) (dels : List Numbered) (i : ℕ) (rows : Segment)
        → struck_from has (del ∷ dels) i rows ≡ struck_from has dels i (struck_from has (del ∷ []) i rows) }
    ensures none { (has : List ℕ → Document → Bool) (i : ℕ) (rows : Segment) → struck_from has [] i rows ≡ rows }
    ensures before { (has : List ℕ → Document → Bool) (t : List ℕ) (n i : ℕ) (docs : List Document) (flags : List Bool)
        → i + length docs ≤ n → struck_from has ((t, n) ∷ []) i (flagged docs flags)
        ≡ map (struck (has t)) (flagged docs flags) }
    ensures behind { (has : List ℕ → Document → Bool) (t : List ℕ) (n i : ℕ) (rows : Segment) → n ≤ i
        → struck_from has ((t, n) ∷ []) i rows ≡ rows }
    ensures cut { (has : List ℕ → Document → Bool) (t : List ℕ) (k i : ℕ) (docs : List Document) (flags : List Bool)
        → flagged docs (cut_flags k (map (λ doc. not (has t doc)) docs) flags)
        ≡ struck_from has ((t, i + k) ∷ []) i (flagged docs flags) }
{}

/// States that the best addresses over segments, by score and then by address, shown with their stored values, are
/// the hits of a plain scan over the living documents, one segment after the other.
pub fn the_best_over_segments_are_those_of_a_scan()
    ensures { (schema : Schema) (analyze : Analyzer) (sim : Similarity) (q : Query) (rows : List Segment) (k : ℕ)
        → map (shown_at schema rows) (take k (ranked (λ p. p.score) (places_from schema analyze sim q 0 rows)))
        ≡ scan schema analyze sim (live rows) q k }
{}
