//! Operations by their names.

use crate::{
    changed_scores, clauses, combinators, combined_scores, leaves, list_counts,
    nested_scorers as nested, posting_unions, scored_terms, term_blocks,
};
use case_lines::{Arguments, Operations, Refusal};
use serde_json::Value;
use std::alloc::Global;

/// Operations on leaves, combiners, combinators and scorers of terms.
#[derive(Drop)]
pub(crate) struct ScorerOperations {
    pub(crate) alloc: Global,
}

impl Operations for ScorerOperations {
    fn answer(&mut self, operation: &str, arguments: &Arguments) -> Result<Value, Refusal> {
        let alloc = self.alloc;
        match operation {
            "all" => leaves::all(alloc, arguments),
            "none" => leaves::none(alloc, arguments),
            "constant" => leaves::constant(alloc, arguments),
            "documents" => leaves::documents(alloc, arguments),
            "set" => leaves::set(alloc, arguments),
            "pairs" => leaves::pairs(alloc, arguments),
            "combined" => combined_scores::combined(alloc, arguments),
            "union" => combinators::union(alloc, arguments),
            "disjunction" => combinators::disjunction(alloc, arguments),
            "disjunction-of-singles" => combinators::disjunction_of_singles(alloc, arguments),
            "intersection" => combinators::intersection(alloc, arguments),
            "exclude" => combinators::exclude(alloc, arguments),
            "exclude-one" => combinators::exclude_one(alloc, arguments),
            "required-optional" => combinators::required_optional(alloc, arguments),
            "wrapped" => combinators::wrapped(alloc, arguments),
            "union-of-meetings" => nested::union_of_meetings(alloc, arguments),
            "simple-union-of-meetings" => nested::simple_union_of_meetings(alloc, arguments),
            "two-of-meetings" => nested::two_of_meetings(alloc, arguments),
            "meeting-of-differences" => nested::meeting_of_differences(alloc, arguments),
            "clauses" => clauses::clauses(alloc, arguments),
            "best" => clauses::best(alloc, arguments),
            "intersected" => clauses::intersected(alloc, arguments),
            "union-of-terms" => posting_unions::union_of_terms(alloc, arguments),
            "union-beside-set" => posting_unions::union_beside_set(alloc, arguments),
            "cleared" => changed_scores::cleared(alloc, arguments),
            "boosted" => changed_scores::boosted(alloc, arguments),
            "reason" => changed_scores::reason(alloc, arguments),
            "reasons" => changed_scores::reasons(alloc, arguments),
            "alive" => list_counts::alive(alloc, arguments),
            "list-len" => list_counts::list_len(alloc, arguments),
            "term-moves" => scored_terms::moves(alloc, arguments),
            "term-scores" => scored_terms::scores(alloc, arguments),
            "term-explained" => scored_terms::explained(alloc, arguments),
            "term-blocks" => scored_terms::blocks(alloc, arguments),
            "posting-blocks" => term_blocks::bounds(alloc, arguments),
            _ => Err(Refusal::NotAsked),
        }
    }
}
