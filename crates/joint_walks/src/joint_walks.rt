//! Walks of what scorers of clauses have together, into a sink, without a list.

ghost use Rattle.std.specs.Prelude.{[], ◌+◌, ◌<◌, ◌≡◌, ◌≤◌, List, OnErr, OnOk, false, length, map, true};
ghost use Rattle.definitions.specs.Scoring.{max_score};
ghost use Rattle.definitions.specs.Sinks.{fed};
ghost use Rattle.docsets.specs.Entries.{Entry};
ghost use Rattle.docsets.specs.Members.{enough, greatest_sum};
ghost use Rattle.docsets.specs.ScoredEntries.{pairs_of};
ghost use Rattle.intersections.specs.Differences.{without};
ghost use Rattle.joint_walks.specs.Together.{HasClauses, IsFedSuch};

use any_scorer::{all_of, any_of, at_least, with_minimum};
use common::{DocId, Score};
use docsets::{DocSet, Scorer};
use intersections::{Exclude, ExclusionList, RequiredOptionalScorer};
use std::alloc::{AllocError, Global};
use walks::{Sink, block_wand, block_wand_intersection, for_each_pruning_scorer};

/// The most scorers of which a union or an intersection is walked window by window: a window ends where a block of any
/// of them does, and each is asked for each window, so that of more scorers that takes longer than what it leaves out.
const MOST_IN_WINDOWS: usize = 4;

/// Feeds each document that all of `musts`, at least `minimum` of `shoulds` and none of `must_nots` have, and one of
/// `shoulds` if there are no `musts`, with the sum of its scores to `sink`, in order, if that is above the sink's
/// threshold by then; none if out of memory. `num_docs`, the number of documents, is a hint.
pub fn feed_matching<S: Scorer + Drop, K: Sink>(
    alloc: Global,
    musts: Vec<S>,
    shoulds: Vec<S>,
    must_nots: Vec<S>,
    minimum: usize,
    num_docs: DocId,
    threshold: Score,
    sink: &mut K,
) -> Result<(), AllocError>
    requires fits { greatest_sum (map S.entries musts.items) + greatest_sum (map S.entries shoulds.items) ≤ max_score }
    requires threshold { threshold ≡ K.limit (K.state sink.old) }
    requires room { (es : List Entry) → HasClauses minimum (map S.entries musts.items) (map S.entries shoulds.items)
        (map S.entries must_nots.items) es → length es ≤ K.room sink.old }
    ensures fed { OnOk result (IsFedSuch K.limit K.taken (K.state sink.old) (HasClauses minimum
        (map S.entries musts.items) (map S.entries shoulds.items) (map S.entries must_nots.items))
        (K.state sink.new)) }
    ensures same { OnErr result (sink.new ≡ sink.old) }
{
    if !asks_for_more(musts.len(), minimum) {
        return feed_together(alloc, musts, shoulds, must_nots, num_docs, threshold, sink);
    }
    let scorer = with_minimum(alloc, musts, shoulds, minimum, num_docs)?;
    feed_without(scorer, must_nots, threshold, sink);
    Ok(())
}

/// Whether clauses, of which `minimum` must match, ask for more of their `Should` ones than that there is something to
/// match.
pub(crate) fn asks_for_more(musts: usize, minimum: usize) -> bool
    ensures some { result ≡ true → 1 ≤ minimum }
    ensures few { result ≡ false → minimum ≤ 1 }
    ensures none { result ≡ false → 0 < musts → minimum ≡ 0 }
{
    minimum > 1 || minimum == 1 && musts > 0
}

/// Like `feed_matching`, without a minimum.
fn feed_together<S: Scorer + Drop, K: Sink>(
    alloc: Global,
    musts: Vec<S>,
    shoulds: Vec<S>,
    must_nots: Vec<S>,
    num_docs: DocId,
    threshold: Score,
    sink: &mut K,
) -> Result<(), AllocError>
    requires fits { greatest_sum (map S.entries musts.items) + greatest_sum (map S.entries shoulds.items) ≤ max_score }
    requires threshold { threshold ≡ K.limit (K.state sink.old) }
    requires room { (es : List Entry) → HasClauses 0 (map S.entries musts.items) (map S.entries shoulds.items)
        (map S.entries must_nots.items) es → length es ≤ K.room sink.old }
    ensures fed { OnOk result (IsFedSuch K.limit K.taken (K.state sink.old) (HasClauses 0 (map S.entries musts.items)
        (map S.entries shoulds.items) (map S.entries must_nots.items)) (K.state sink.new)) }
    ensures same { OnErr result (sink.new ≡ sink.old) }
{
    if musts.is_empty() {
        return feed_any_of(alloc, shoulds, must_nots, num_docs, threshold, sink);
    }
    if shoulds.is_empty() {
        feed_all_of(musts, must_nots, threshold, sink);
        return Ok(());
    }
    feed_optional(alloc, musts, shoulds, must_nots, num_docs, threshold, sink)
}

/// Like `feed_together`, of `musts` beside which `shoulds` are asked.
fn feed_optional<S: Scorer + Drop, K: Sink>(
    alloc: Global,
    musts: Vec<S>,
    shoulds: Vec<S>,
    must_nots: Vec<S>,
    num_docs: DocId,
    threshold: Score,
    sink: &mut K,
) -> Result<(), AllocError>
    requires some { 1 ≤ length musts.items }
    requires fits { greatest_sum (map S.entries musts.items) + greatest_sum (map S.entries shoulds.items) ≤ max_score }
    requires threshold { threshold ≡ K.limit (K.state sink.old) }
    requires room { (es : List Entry) → HasClauses 0 (map S.entries musts.items) (map S.entries shoulds.items)
        (map S.entries must_nots.items) es → length es ≤ K.room sink.old }
    ensures fed { OnOk result (IsFedSuch K.limit K.taken (K.state sink.old) (HasClauses 0 (map S.entries musts.items)
        (map S.entries shoulds.items) (map S.entries must_nots.items)) (K.state sink.new)) }
    ensures same { OnErr result (sink.new ≡ sink.old) }
{
    let required = all_of(musts);
    if shoulds.len() == 1 {
        let one = any_of(alloc, shoulds, num_docs)?;
        let scorer = RequiredOptionalScorer::with_sums(required, one);
        feed_without(scorer, must_nots, threshold, sink);
        return Ok(());
    }
    let some = at_least(alloc, shoulds, 1, num_docs, required.size_hint())?;
    let scorer = RequiredOptionalScorer::with_sums(required, some);
    feed_without(scorer, must_nots, threshold, sink);
    Ok(())
}

/// Like `feed_together`, of `shoulds` and `must_nots` alone.
fn feed_any_of<S: Scorer + Drop, K: Sink>(
    alloc: Global,
    shoulds: Vec<S>,
    must_nots: Vec<S>,
    num_docs: DocId,
    threshold: Score,
    sink: &mut K,
) -> Result<(), AllocError>
    requires fits { greatest_sum (map S.entries shoulds.items) ≤ max_score }
    requires threshold { threshold ≡ K.limit (K.state sink.old) }
    requires room { (es : List Entry) → HasClauses 0 [] (map S.entries shoulds.items) (map S.entries must_nots.items) es
        → length es ≤ K.room sink.old }
    ensures fed { OnOk result (IsFedSuch K.limit K.taken (K.state sink.old) (HasClauses 0 []
        (map S.entries shoulds.items) (map S.entries must_nots.items)) (K.state sink.new)) }
    ensures same { OnErr result (sink.new ≡ sink.old) }
{
    if must_nots.is_empty() {
        return feed_any(alloc, shoulds, num_docs, threshold, sink);
    }
    let some = any_of(alloc, shoulds, num_docs)?;
    feed_without(some, must_nots, threshold, sink);
    Ok(())
}

/// Like `feed_together`, of `shoulds` alone.
fn feed_any<S: Scorer + Drop, K: Sink>(
    alloc: Global,
    shoulds: Vec<S>,
    num_docs: DocId,
    threshold: Score,
    sink: &mut K,
) -> Result<(), AllocError>
    requires fits { greatest_sum (map S.entries shoulds.items) ≤ max_score }
    requires threshold { threshold ≡ K.limit (K.state sink.old) }
    requires room { (es : List Entry) → HasClauses 0 [] (map S.entries shoulds.items) [] es
        → length es ≤ K.room sink.old }
    ensures fed { OnOk result (IsFedSuch K.limit K.taken (K.state sink.old)
        (HasClauses 0 [] (map S.entries shoulds.items) []) (K.state sink.new)) }
    ensures same { OnErr result (sink.new ≡ sink.old) }
{
    if shoulds.len() <= MOST_IN_WINDOWS {
        block_wand(shoulds, threshold, sink);
        return Ok(());
    }
    let mut some = any_of(alloc, shoulds, num_docs)?;
    for_each_pruning_scorer(&mut some, threshold, sink);
    Ok(())
}

/// Like `feed_together`, of `musts` and `must_nots` alone.
fn feed_all_of<S: Scorer + Drop, K: Sink>(
    musts: Vec<S>,
    must_nots: Vec<S>,
    threshold: Score,
    sink: &mut K,
)
    requires some { 1 ≤ length musts.items }
    requires fits { greatest_sum (map S.entries musts.items) ≤ max_score }
    requires threshold { threshold ≡ K.limit (K.state sink.old) }
    requires room { (es : List Entry) → HasClauses 0 (map S.entries musts.items) [] (map S.entries must_nots.items) es
        → length es ≤ K.room sink.old }
    ensures { IsFedSuch K.limit K.taken (K.state sink.old) (HasClauses 0 (map S.entries musts.items) []
        (map S.entries must_nots.items)) (K.state sink.new) }
{
    if must_nots.is_empty() {
        feed_all(musts, threshold, sink);
        return;
    }
    feed_without(all_of(musts), must_nots, threshold, sink);
}

/// Like `feed_together`, of `musts` alone.
fn feed_all<S: Scorer + Drop, K: Sink>(musts: Vec<S>, threshold: Score, sink: &mut K)
    requires some { 1 ≤ length musts.items }
    requires fits { greatest_sum (map S.entries musts.items) ≤ max_score }
    requires threshold { threshold ≡ K.limit (K.state sink.old) }
    requires room { (es : List Entry) → HasClauses 0 (map S.entries musts.items) [] [] es → length es ≤ K.room sink.old }
    ensures { IsFedSuch K.limit K.taken (K.state sink.old) (HasClauses 0 (map S.entries musts.items) [] [])
        (K.state sink.new) }
{
    if musts.len() <= MOST_IN_WINDOWS {
        block_wand_intersection(musts, threshold, sink);
        return;
    }
    let mut all = all_of(musts);
    for_each_pruning_scorer(&mut all, threshold, sink);
}

/// Feeds each document of `scorer` that none of `must_nots` has with its score to `sink`, in order, if the score is above
/// the sink's threshold by then.
fn feed_without<D: Scorer + Drop, N: Scorer + Drop, K: Sink>(
    scorer: D,
    must_nots: Vec<N>,
    threshold: Score,
    sink: &mut K,
)
    requires threshold { threshold ≡ K.limit (K.state sink.old) }
    requires room { length (without (enough 1 (map N.entries must_nots.items)) (D.entries scorer)) ≤ K.room sink.old }
    ensures { K.state sink.new ≡ fed K.limit K.taken (K.state sink.old)
        (pairs_of (without (enough 1 (map N.entries must_nots.items)) (D.entries scorer))) }
{
    if must_nots.is_empty() {
        let mut scorer = scorer;
        for_each_pruning_scorer(&mut scorer, threshold, sink);
        return;
    }
    let mut scorer = Exclude::new(scorer, ExclusionList::new(must_nots));
    for_each_pruning_scorer(&mut scorer, threshold, sink);
}
