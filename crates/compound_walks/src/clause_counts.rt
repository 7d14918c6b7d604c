//! The count of the documents that match clauses.

ghost use Rattle.std.specs.Prelude.{[], ◌+◌, ◌≡◌, ◌≤◌, IfOk, List, map};
ghost use Rattle.definitions.specs.Query as definitions;
ghost use Rattle.definitions.specs.Scoring.{max_score};
ghost use Rattle.docsets.specs.Entries.{Entry, from};
ghost use Rattle.docsets.specs.Members.{greatest_sum};
ghost use Rattle.query_trees.specs.Queries.{clauses_of};
ghost use Rattle.joint_walks.specs.Counted.{IsCountBy, IsCountIn};
ghost use Rattle.joint_walks.specs.Together.{HasClauses};
ghost use Rattle.reader_scorers.specs.Scored.{segment_scored, weights_of};
ghost use Rattle.segment_reader.specs.SegmentReaders.{max_doc_of};
ghost use Rattle.query_scorers.specs.Accepted.{IsAccepted};

use crate::clause_walks::keep_some;
use any_scorer::AnyScorer;
use docsets::{DocSet, Scorer};
use joint_walks::count_matching;
use query_scorers::scorers_asked;
use query_trees::{AnyQuery, Occur};
use reader_scorers::{LeafWeights, ReaderScorers, are_terms, into_terms};
use segment_reader::SegmentReader;
use std::alloc::{AllocError, Global};

/// Counts the living documents of a segment that match `clauses`. There is no list of them.
pub fn count_clauses<'a, W: LeafWeights<'a>>(
    alloc: Global,
    forms: &ReaderScorers<'_, 'a, W>,
    clauses: &[(Occur, AnyQuery)],
    minimum_number_should_match: usize,
) -> Result<u32, AllocError>
    requires { IsAccepted (W.similarity (weights_of forms.now)).weight 1
        (definitions.boolean (clauses_of clauses.now) minimum_number_should_match) }
    ensures { IfOk result (IsCountIn (segment_scored forms.now) (W.similarity (weights_of forms.now)).weight 1
        (definitions.boolean (clauses_of clauses.now) minimum_number_should_match)) }
{
    let minimum = minimum_number_should_match;
    let musts = scorers_asked(alloc, forms, clauses, Occur::Must, 1)?;
    let mut shoulds = scorers_asked(alloc, forms, clauses, Occur::Should, 1)?;
    let mut must_nots = scorers_asked(alloc, forms, clauses, Occur::MustNot, 1)?;
    keep_some(&mut shoulds);
    keep_some(&mut must_nots);
    count_any_together(alloc, musts, shoulds, must_nots, minimum, forms.reader)
}

/// Like `count_matching`, but the kind of scorers is looked at once if all are of terms, and not for each document.
fn count_any_together<A: Scorer + Drop, T: Scorer + Drop, P: Scorer + Drop, X: Scorer + Drop>(
    alloc: Global,
    musts: Vec<AnyScorer<A, T, P, X>>,
    shoulds: Vec<AnyScorer<A, T, P, X>>,
    must_nots: Vec<AnyScorer<A, T, P, X>>,
    minimum: usize,
    reader: &SegmentReader<'_>,
) -> Result<u32, AllocError>
    requires fits { greatest_sum (map ⟦<AnyScorer<A, T, P, X> as DocSet>⟧.entries musts.items)
        + greatest_sum (map ⟦<AnyScorer<A, T, P, X> as DocSet>⟧.entries shoulds.items) ≤ max_score }
    requires within { (es : List Entry) → HasClauses minimum
        (map ⟦<AnyScorer<A, T, P, X> as DocSet>⟧.entries musts.items)
        (map ⟦<AnyScorer<A, T, P, X> as DocSet>⟧.entries shoulds.items)
        (map ⟦<AnyScorer<A, T, P, X> as DocSet>⟧.entries must_nots.items) es → from (max_doc_of reader.now) es ≡ [] }
    ensures { IfOk result (IsCountBy reader.now (HasClauses minimum
        (map ⟦<AnyScorer<A, T, P, X> as DocSet>⟧.entries musts.items)
        (map ⟦<AnyScorer<A, T, P, X> as DocSet>⟧.entries shoulds.items)
        (map ⟦<AnyScorer<A, T, P, X> as DocSet>⟧.entries must_nots.items))) }
{
    if !are_terms(&musts) || !are_terms(&shoulds) || !are_terms(&must_nots) {
        return count_matching(alloc, musts, shoulds, must_nots, minimum, reader);
    }
    let musts = into_terms(alloc, musts)?;
    let shoulds = into_terms(alloc, shoulds)?;
    let must_nots = into_terms(alloc, must_nots)?;
    count_matching(alloc, musts, shoulds, must_nots, minimum, reader)
}
