//! Counts of what scorers of clauses have together, without a list.

ghost use Rattle.std.specs.Prelude.{[], ◌+◌, ◌≡◌, ◌≤◌, IfOk, List, length, map};
ghost use Rattle.definitions.specs.Scoring.{max_score};
ghost use Rattle.docsets.specs.Entries.{Entry, from};
ghost use Rattle.docsets.specs.Members.{enough, greatest_sum};
ghost use Rattle.intersections.specs.Differences.{without};
ghost use Rattle.joint_walks.specs.Counted.{IsCountBy};
ghost use Rattle.joint_walks.specs.Together.{HasClauses};
ghost use Rattle.segment_reader.specs.SegmentReaders.{max_doc_of};

use crate::joint_walks::asks_for_more;
use any_scorer::{all_of, with_minimum};
use docsets::{DoNothingCombiner, DocSet, Scorer};
use intersections::{Exclude, ExclusionList};
use scorer_answers::count;
use scorers::BufferedUnionScorer;
use segment_reader::SegmentReader;
use std::alloc::{AllocError, Global};

/// Counts the living documents that all of `musts`, at least `minimum` of `shoulds` and none of `must_nots` have, and
/// one of `shoulds` if there are no `musts`.
pub fn count_matching<S: Scorer + Drop>(
    alloc: Global,
    musts: Vec<S>,
    shoulds: Vec<S>,
    must_nots: Vec<S>,
    minimum: usize,
    reader: &SegmentReader<'_>,
) -> Result<u32, AllocError>
    requires fits { greatest_sum (map S.entries musts.items) + greatest_sum (map S.entries shoulds.items) ≤ max_score }
    requires within { (es : List Entry) → HasClauses minimum (map S.entries musts.items) (map S.entries shoulds.items)
        (map S.entries must_nots.items) es → from (max_doc_of reader.now) es ≡ [] }
    ensures { IfOk result (IsCountBy reader.now (HasClauses minimum (map S.entries musts.items)
        (map S.entries shoulds.items) (map S.entries must_nots.items))) }
{
    if !asks_for_more(musts.len(), minimum) {
        return count_together(alloc, musts, shoulds, must_nots, reader);
    }
    let scorer = with_minimum(alloc, musts, shoulds, minimum, reader.max_doc())?;
    Ok(count_without(scorer, must_nots, reader))
}

/// Like `count_matching`, without a minimum.
fn count_together<S: Scorer + Drop>(
    alloc: Global,
    musts: Vec<S>,
    shoulds: Vec<S>,
    must_nots: Vec<S>,
    reader: &SegmentReader<'_>,
) -> Result<u32, AllocError>
    requires fits { greatest_sum (map S.entries musts.items) + greatest_sum (map S.entries shoulds.items) ≤ max_score }
    requires within { (es : List Entry) → HasClauses 0 (map S.entries musts.items) (map S.entries shoulds.items)
        (map S.entries must_nots.items) es → from (max_doc_of reader.now) es ≡ [] }
    ensures { IfOk result (IsCountBy reader.now (HasClauses 0 (map S.entries musts.items) (map S.entries shoulds.items)
        (map S.entries must_nots.items))) }
{
    if musts.is_empty() {
        return count_any_of(alloc, shoulds, must_nots, reader);
    }
    Ok(count_without(all_of(musts), must_nots, reader))
}

/// Like `count_together`, of `shoulds` and `must_nots` alone.
fn count_any_of<S: Scorer + Drop>(
    alloc: Global,
    shoulds: Vec<S>,
    must_nots: Vec<S>,
    reader: &SegmentReader<'_>,
) -> Result<u32, AllocError>
    requires fits { greatest_sum (map S.entries shoulds.items) ≤ max_score }
    requires within { (es : List Entry)
        → HasClauses 0 [] (map S.entries shoulds.items) (map S.entries must_nots.items) es
        → from (max_doc_of reader.now) es ≡ [] }
    ensures { IfOk result (IsCountBy reader.now (HasClauses 0 [] (map S.entries shoulds.items)
        (map S.entries must_nots.items))) }
{
    let combiner = DoNothingCombiner::default();
    let some = BufferedUnionScorer::build(alloc, shoulds, combiner, reader.max_doc())?;
    Ok(count_without(some, must_nots, reader))
}

/// Counts the living documents of `scorer` that none of `must_nots` has.
fn count_without<D: Scorer + Drop, N: Scorer + Drop>(
    scorer: D,
    must_nots: Vec<N>,
    reader: &SegmentReader<'_>,
) -> u32
    requires { from (max_doc_of reader.now)
        (without (enough 1 (map N.entries must_nots.items)) (D.entries scorer)) ≡ [] }
    ensures { IsCountBy reader.now
        (λ es. es ≡ without (enough 1 (map N.entries must_nots.items)) (D.entries scorer)) result }
{
    if must_nots.is_empty() {
        let mut scorer = scorer;
        return count(&mut scorer, reader);
    }
    let mut scorer = Exclude::new(scorer, ExclusionList::new(must_nots));
    count(&mut scorer, reader)
}
