//! The scorer of clauses.

ghost use Rattle.std.specs.Prelude.{◌+◌, ◌≡◌, ◌≤◌, IfOk, map, ℕ};
ghost use Rattle.definitions.specs.Query as definitions;
ghost use Rattle.definitions.specs.Scoring as scoring;
ghost use Rattle.definitions.specs.Scoring.{max_score};
ghost use Rattle.docsets.specs.Members.{greatest_sum};
ghost use Rattle.query_scorers.specs.Asked.{asked};
ghost use Rattle.query_scorers.specs.Scores.{AllScore, Scores};

use any_scorer::boolean_scorer;
use docsets::{DocSet, ListScorer, Scorer};
use segment_reader::SegmentReader;
use std::alloc::{AllocError, Global};

/// Lists the documents that match clauses, whose scorers are given by what the clauses ask. The scorers are walked
/// whole.
pub fn clauses_scorer<S: Scorer + Drop>(
    alloc: Global,
    musts: Vec<S>,
    shoulds: Vec<S>,
    must_nots: Vec<S>,
    minimum_number_should_match: usize,
    reader: &SegmentReader<'_>,
) -> Result<ListScorer, AllocError>
    requires fits { greatest_sum (map S.entries musts.items) + greatest_sum (map S.entries shoulds.items) ≤ max_score }
    ensures { (sim : scoring.Similarity) (b : ℕ) (clauses : definitions.Clauses)
        → AllScore sim b reader.now (asked definitions.must clauses) (map S.entries musts.items)
        → AllScore sim b reader.now (asked definitions.should clauses) (map S.entries shoulds.items)
        → AllScore sim b reader.now (asked definitions.must_not clauses) (map S.entries must_nots.items)
        → IfOk result (λ list. Scores sim b (definitions.boolean clauses minimum_number_should_match) reader.now
        (⟦<ListScorer as DocSet>⟧.entries list)) }
{
    boolean_scorer(
        alloc,
        musts,
        shoulds,
        must_nots,
        minimum_number_should_match,
        reader.max_doc(),
    )
}
