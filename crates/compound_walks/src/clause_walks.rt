//! The walk of the documents that match clauses, into a sink.

ghost use Rattle.std.specs.Prelude.{◌+◌, ◌<◌, ◌≡◌, ◌≤◌, List, OnErr, OnOk, false, length, map};
ghost use Rattle.definitions.specs.Query as definitions;
ghost use Rattle.definitions.specs.Scoring.{max_score};
ghost use Rattle.docsets.specs.Entries.{Entry};
ghost use Rattle.docsets.specs.Members.{greatest_sum};
ghost use Rattle.query_trees.specs.Queries.{clauses_of};
ghost use Rattle.joint_walks.specs.Together.{HasClauses, IsFedSuch};
ghost use Rattle.compound_walks.specs.Fed.{IsFedBy};
ghost use Rattle.reader_scorers.specs.Scored.{segment_scored, weights_of};
ghost use Rattle.compound_walks.specs.Same.{HaveSame};
ghost use Rattle.segment_reader.specs.SegmentReaders.{max_doc_of};
ghost use Rattle.query_scorers.specs.Accepted.{IsAccepted};

use any_scorer::AnyScorer;
use common::{DocId, Score, TERMINATED};
use docsets::{DocSet, Scorer};
use joint_walks::feed_matching;
use query_scorers::scorers_asked;
use query_trees::{AnyQuery, Occur};
use reader_scorers::{LeafWeights, ReaderScorers, are_terms, into_terms};
use std::alloc::{AllocError, Global};
use walks::Sink;

/// Feeds each document of a segment that matches `clauses` with its score to `sink`, in order, if the score is above the
/// sink's threshold by then; none if out of memory. There is no list of them.
pub fn feed_clauses<'a, W: LeafWeights<'a>, K: Sink>(
    alloc: Global,
    forms: &ReaderScorers<'_, 'a, W>,
    clauses: &[(Occur, AnyQuery)],
    minimum_number_should_match: usize,
    threshold: Score,
    sink: &mut K,
) -> Result<(), AllocError>
    requires accepted { IsAccepted (W.similarity (weights_of forms.now)).weight 1
        (definitions.boolean (clauses_of clauses.now) minimum_number_should_match) }
    requires threshold { threshold ≡ K.limit (K.state sink.old) }
    requires room { max_doc_of (segment_scored forms.now) ≤ K.room sink.old }
    ensures fed { OnOk result (IsFedBy K.limit K.taken (K.state sink.old) (W.similarity (weights_of forms.now)) 1
        (definitions.boolean (clauses_of clauses.now) minimum_number_should_match) (segment_scored forms.now)
        (K.state sink.new)) }
    ensures same { OnErr result (sink.new ≡ sink.old) }
{
    let musts = scorers_asked(alloc, forms, clauses, Occur::Must, 1)?;
    let mut shoulds = scorers_asked(alloc, forms, clauses, Occur::Should, 1)?;
    let mut must_nots = scorers_asked(alloc, forms, clauses, Occur::MustNot, 1)?;
    keep_some(&mut shoulds);
    keep_some(&mut must_nots);
    feed_any_together(
        alloc,
        musts,
        shoulds,
        must_nots,
        minimum_number_should_match,
        forms.max_doc(),
        threshold,
        sink,
    )
}

/// Like `feed_matching`, but the kind of scorers is looked at once if all are of terms, and not for each document.
fn feed_any_together<
    A: Scorer + Drop,
    T: Scorer + Drop,
    P: Scorer + Drop,
    X: Scorer + Drop,
    K: Sink,
>(
    alloc: Global,
    musts: Vec<AnyScorer<A, T, P, X>>,
    shoulds: Vec<AnyScorer<A, T, P, X>>,
    must_nots: Vec<AnyScorer<A, T, P, X>>,
    minimum: usize,
    num_docs: DocId,
    threshold: Score,
    sink: &mut K,
) -> Result<(), AllocError>
    requires fits { greatest_sum (map ⟦<AnyScorer<A, T, P, X> as DocSet>⟧.entries musts.items)
        + greatest_sum (map ⟦<AnyScorer<A, T, P, X> as DocSet>⟧.entries shoulds.items) ≤ max_score }
    requires threshold { threshold ≡ K.limit (K.state sink.old) }
    requires room { (es : List Entry) → HasClauses minimum
        (map ⟦<AnyScorer<A, T, P, X> as DocSet>⟧.entries musts.items)
        (map ⟦<AnyScorer<A, T, P, X> as DocSet>⟧.entries shoulds.items)
        (map ⟦<AnyScorer<A, T, P, X> as DocSet>⟧.entries must_nots.items) es → length es ≤ K.room sink.old }
    ensures fed { OnOk result (IsFedSuch K.limit K.taken (K.state sink.old) (HasClauses minimum
        (map ⟦<AnyScorer<A, T, P, X> as DocSet>⟧.entries musts.items)
        (map ⟦<AnyScorer<A, T, P, X> as DocSet>⟧.entries shoulds.items)
        (map ⟦<AnyScorer<A, T, P, X> as DocSet>⟧.entries must_nots.items)) (K.state sink.new)) }
    ensures same { OnErr result (sink.new ≡ sink.old) }
{
    if !are_terms(&musts) || !are_terms(&shoulds) || !are_terms(&must_nots) {
        return feed_matching(
            alloc, musts, shoulds, must_nots, minimum, num_docs, threshold, sink,
        );
    }
    let musts = into_terms(alloc, musts)?;
    let shoulds = into_terms(alloc, shoulds)?;
    let must_nots = into_terms(alloc, must_nots)?;
    feed_matching(
        alloc, musts, shoulds, must_nots, minimum, num_docs, threshold, sink,
    )
}

/// Leaves out those of `scorers` that have no document left.
pub(crate) fn keep_some<S: DocSet + Drop>(scorers: &mut Vec<S>)
    ensures { HaveSame (map S.entries scorers.new.items) (map S.entries scorers.old.items) }
{
    scorers.retain(|scorer| scorer.doc() < TERMINATED);
}
