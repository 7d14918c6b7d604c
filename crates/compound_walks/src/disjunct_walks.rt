//! The walk of the documents that match one of several queries, into a sink, by the best score of each.

ghost use Rattle.std.specs.Prelude.{◌≡◌, ◌≤ℤ◌, ◌≤◌, List, OnErr, OnOk, length, map, pos};
ghost use Rattle.definitions.specs.Query as definitions;
ghost use Rattle.definitions.specs.Scoring.{max_score, natural};
ghost use Rattle.docsets.specs.Entries.{Entry};
ghost use Rattle.docsets.specs.Members.{greatest_sum};
ghost use Rattle.query_trees.specs.Queries.{queries_of};
ghost use Rattle.compound_walks.specs.Fed.{HasBest, IsFedBy};
ghost use Rattle.joint_walks.specs.Together.{IsFedSuch};
ghost use Rattle.reader_scorers.specs.Scored.{segment_scored, weights_of};
ghost use Rattle.segment_reader.specs.SegmentReaders.{max_doc_of};
ghost use Rattle.query_scorers.specs.Accepted.{IsAccepted};

use crate::clause_walks::keep_some;
use any_scorer::best_of;
use common::{DocId, Score};
use docsets::Scorer;
use query_scorers::scorers_of;
use query_trees::AnyQuery;
use reader_scorers::{LeafWeights, ReaderScorers, are_terms, into_terms};
use std::alloc::{AllocError, Global};
use walks::{Sink, for_each_pruning_scorer};

/// Feeds each document of a segment that matches one of `disjuncts` to `sink`, in order, with its best score and
/// `tie_breaker` thousandths of the others, if that is above the sink's threshold by then; none if out of memory. There
/// is no list of them. The kind of scorers is looked at once if all are of terms, and not for each document.
pub fn feed_disjuncts<'a, W: LeafWeights<'a>, K: Sink>(
    alloc: Global,
    forms: &ReaderScorers<'_, 'a, W>,
    disjuncts: &[AnyQuery],
    tie_breaker: Score,
    threshold: Score,
    sink: &mut K,
) -> Result<(), AllocError>
    requires accepted { IsAccepted (W.similarity (weights_of forms.now)).weight 1
        (definitions.disjunction_max (queries_of disjuncts.now) tie_breaker) }
    requires threshold { threshold ≡ K.limit (K.state sink.old) }
    requires room { max_doc_of (segment_scored forms.now) ≤ K.room sink.old }
    ensures fed { OnOk result (IsFedBy K.limit K.taken (K.state sink.old) (W.similarity (weights_of forms.now)) 1
        (definitions.disjunction_max (queries_of disjuncts.now) tie_breaker) (segment_scored forms.now)
        (K.state sink.new)) }
    ensures same { OnErr result (sink.new ≡ sink.old) }
{
    let mut scorers = scorers_of(alloc, forms, disjuncts, 1)?;
    keep_some(&mut scorers);
    let num_docs = forms.max_doc();
    if !are_terms(&scorers) {
        return feed_best(alloc, scorers, tie_breaker, num_docs, threshold, sink);
    }
    let terms = into_terms(alloc, scorers)?;
    feed_best(alloc, terms, tie_breaker, num_docs, threshold, sink)
}

/// Feeds each document that one of `disjuncts` has to `sink`, in order, with its best score and `tie_breaker`
/// thousandths of the others, if that is above the sink's threshold by then; none if out of memory. `num_docs`, the
/// number of documents, is a hint.
fn feed_best<S: Scorer + Drop, K: Sink>(
    alloc: Global,
    disjuncts: Vec<S>,
    tie_breaker: Score,
    num_docs: DocId,
    threshold: Score,
    sink: &mut K,
) -> Result<(), AllocError>
    requires positive { pos 0 ≤ℤ tie_breaker }
    requires share { tie_breaker ≤ℤ pos 1000 }
    requires fits { greatest_sum (map S.entries disjuncts.items) ≤ max_score }
    requires threshold { threshold ≡ K.limit (K.state sink.old) }
    requires room { (es : List Entry) → HasBest (natural tie_breaker) (map S.entries disjuncts.items) es
        → length es ≤ K.room sink.old }
    ensures fed { OnOk result (IsFedSuch K.limit K.taken (K.state sink.old)
        (HasBest (natural tie_breaker) (map S.entries disjuncts.items)) (K.state sink.new)) }
    ensures same { OnErr result (sink.new ≡ sink.old) }
{
    let mut best = best_of(alloc, disjuncts, tie_breaker, num_docs)?;
    for_each_pruning_scorer(&mut best, threshold, sink);
    Ok(())
}
