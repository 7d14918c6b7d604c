//! The count of the documents that match one of several queries.

ghost use Rattle.std.specs.Prelude.{[], ◌≡◌, ◌≤◌, IfOk, List, map, ℕ, ℤ};
ghost use Rattle.definitions.specs.Query as definitions;
ghost use Rattle.definitions.specs.Refusing.{queries_bound};
ghost use Rattle.definitions.specs.Scoring.{max_score};
ghost use Rattle.docsets.specs.Entries.{Entry, from};
ghost use Rattle.docsets.specs.Members.{greatest_sum};
ghost use Rattle.query_trees.specs.Queries.{queries_of};
ghost use Rattle.joint_walks.specs.Counted.{IsCountBy, IsCountIn};
ghost use Rattle.compound_walks.specs.Fed.{HasBest};
ghost use Rattle.reader_scorers.specs.Scored.{segment_scored, weights_of};
ghost use Rattle.segment_reader.specs.SegmentReaders.{max_doc_of};
ghost use Rattle.query_scorers.specs.Accepted.{AreAccepted};

use crate::clause_walks::keep_some;
use docsets::{DoNothingCombiner, Scorer};
use query_scorers::scorers_of;
use query_trees::AnyQuery;
use reader_scorers::{LeafWeights, ReaderScorers, are_terms, into_terms};
use scorer_answers::count;
use scorers::BufferedUnionScorer;
use segment_reader::SegmentReader;
use std::alloc::{AllocError, Global};

/// Counts the living documents of a segment that match one of `disjuncts`, whatever share of the scores below the best
/// is added. There is no list of them, and no score is computed. The kind of scorers is looked at once if all are of
/// terms, and not for each document.
pub fn count_disjuncts<'a, W: LeafWeights<'a>>(
    alloc: Global,
    forms: &ReaderScorers<'_, 'a, W>,
    disjuncts: &[AnyQuery],
) -> Result<u32, AllocError>
    requires accepted { AreAccepted (W.similarity (weights_of forms.now)).weight 1 (queries_of disjuncts.now) }
    requires fits { queries_bound (W.similarity (weights_of forms.now)).weight 1 (queries_of disjuncts.now)
        ≤ max_score }
    ensures { IfOk result (λ count. (tie : ℤ) → IsCountIn (segment_scored forms.now)
        (W.similarity (weights_of forms.now)).weight 1
        (definitions.disjunction_max (queries_of disjuncts.now) tie) count) }
{
    let mut scorers = scorers_of(alloc, forms, disjuncts, 1)?;
    keep_some(&mut scorers);
    if !are_terms(&scorers) {
        return count_any(alloc, scorers, forms.reader);
    }
    let terms = into_terms(alloc, scorers)?;
    count_any(alloc, terms, forms.reader)
}

/// Counts the living documents that one of `disjuncts` has.
fn count_any<S: Scorer + Drop>(
    alloc: Global,
    disjuncts: Vec<S>,
    reader: &SegmentReader<'_>,
) -> Result<u32, AllocError>
    requires fits { greatest_sum (map S.entries disjuncts.items) ≤ max_score }
    requires within { (tie : ℕ) (es : List Entry) → HasBest tie (map S.entries disjuncts.items) es
        → from (max_doc_of reader.now) es ≡ [] }
    ensures { IfOk result (λ count. (tie : ℕ) → tie ≤ 1000
        → IsCountBy reader.now (HasBest tie (map S.entries disjuncts.items)) count) }
{
    let combiner = DoNothingCombiner::default();
    let mut any = BufferedUnionScorer::build(alloc, disjuncts, combiner, reader.max_doc())?;
    Ok(count(&mut any, reader))
}
