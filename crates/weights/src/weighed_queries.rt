//! The weights of terms, from statistics where scores are asked for.

ghost use Rattle.std.specs.Prelude.{◌≡◌, option_map};
ghost use Rattle.definitions.specs.Query as definitions;
ghost use Rattle.weights.specs.Unscored.{similarity_given};

use crate::no_scores::NoScores;
use crate::weight::SegmentWeight;
use leaf_weights::TermWeight;
use query_trees::TermQuery;
use settings::Statistics;

/// Returns the weight of a term by `statistics`.
pub fn weigh_term<'q, 'a, S: Statistics>(
    query: &'q TermQuery,
    statistics: Option<&'a S>,
) -> TermWeight<'q, 'a>
    ensures query { ⟦<TermWeight<'q, 'a> as SegmentWeight<'a>>⟧.query result
        ≡ definitions.term query.now.0 query.now.1 }
    ensures scores { ⟦<TermWeight<'q, 'a> as SegmentWeight<'a>>⟧.scores_by result
        (similarity_given S.similarity (option_map (λ s. s.now) statistics.entry)) }
{
    match statistics {
        Some(statistics) => leaf_weights::weigh_term(query, statistics),
        None => leaf_weights::weigh_term(query, &NoScores),
    }
}
