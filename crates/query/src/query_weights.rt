//! The weights of queries of each form.

ghost use Rattle.std.specs.Prelude.{◌≡◌};
ghost use Rattle.definitions.specs.Query.{term};
ghost use Rattle.segment_reader.specs.Scorings.{statistics_asked};
ghost use Rattle.leaf_weights.specs.TermWeights.{ScoresBy, option_asked, term_of};
ghost use Rattle.weights.specs.Unscored.{similarity_given};

use crate::asked_weights::statistics;
use crate::query::Query;
use query_checks::{
    AllQuery, AnyQuery, BooleanQuery, BoostQuery, ConstScoreQuery, DisjunctionMaxQuery, EmptyQuery,
    PhrasePrefixQuery, PhraseQuery, QueryTree, TermQuery,
};
use segment_reader::EnableScoring;
use settings::Statistics;
use weights::{
    AllWeight, AnyWeight, BooleanWeight, BoostWeight, ConstScoreWeight, DisjunctionMaxWeight,
    EmptyWeight, GivenWeights, QueryWeight, TermWeight, weigh_term,
};

/// Queries whose weight has a type of its own.
pub trait SpecializedWeight: QueryTree {
    /// Returns the weight of the query as what it is. Without scoring only its matches are promised.
    fn specialized_weight<'q, 'a, S: Statistics>(
        &'q self,
        enable_scoring: EnableScoring<'a, S>,
    ) -> TermWeight<'q, 'a>
        ensures query { term (term_of result) (option_asked result) ≡ Self.tree self.now }
        ensures scores { ScoresBy (similarity_given S.similarity (statistics_asked enable_scoring.entry)) result };
}

impl SpecializedWeight for TermQuery {
    fn specialized_weight<'q, 'a, S: Statistics>(
        &'q self,
        enable_scoring: EnableScoring<'a, S>,
    ) -> TermWeight<'q, 'a> {
        weigh_term(self, statistics(enable_scoring))
    }
}

impl Query for AllQuery {
    fn weight<'q, 'a, S: Statistics>(
        &'q self,
        _enable_scoring: EnableScoring<'a, S>,
    ) -> AnyWeight<'q, GivenWeights<'a, S>> {
        AnyWeight::All(AllWeight)
    }
}

impl Query for EmptyQuery {
    fn weight<'q, 'a, S: Statistics>(
        &'q self,
        _enable_scoring: EnableScoring<'a, S>,
    ) -> AnyWeight<'q, GivenWeights<'a, S>> {
        AnyWeight::Empty(EmptyWeight)
    }
}

impl Query for TermQuery {
    fn weight<'q, 'a, S: Statistics>(
        &'q self,
        enable_scoring: EnableScoring<'a, S>,
    ) -> AnyWeight<'q, GivenWeights<'a, S>> {
        AnyWeight::Term(self, GivenWeights::new(statistics(enable_scoring)))
    }
}

impl Query for PhraseQuery {
    fn weight<'q, 'a, S: Statistics>(
        &'q self,
        enable_scoring: EnableScoring<'a, S>,
    ) -> AnyWeight<'q, GivenWeights<'a, S>> {
        AnyWeight::Phrase(self, GivenWeights::new(statistics(enable_scoring)))
    }
}

impl Query for PhrasePrefixQuery {
    fn weight<'q, 'a, S: Statistics>(
        &'q self,
        enable_scoring: EnableScoring<'a, S>,
    ) -> AnyWeight<'q, GivenWeights<'a, S>> {
        AnyWeight::PhrasePrefix(self, GivenWeights::new(statistics(enable_scoring)))
    }
}

impl Query for BooleanQuery {
    fn weight<'q, 'a, S: Statistics>(
        &'q self,
        enable_scoring: EnableScoring<'a, S>,
    ) -> AnyWeight<'q, GivenWeights<'a, S>> {
        let minimum = self.get_minimum_number_should_match();
        let weights = GivenWeights::new(statistics(enable_scoring));
        let clauses = self.clauses();
        AnyWeight::Boolean(BooleanWeight::with_minimum_number_should_match(
            clauses, minimum, weights,
        ))
    }
}

impl Query for DisjunctionMaxQuery {
    fn weight<'q, 'a, S: Statistics>(
        &'q self,
        enable_scoring: EnableScoring<'a, S>,
    ) -> AnyWeight<'q, GivenWeights<'a, S>> {
        let weights = GivenWeights::new(statistics(enable_scoring));
        let tie_breaker = self.tie_breaker();
        let disjuncts = self.disjuncts();
        AnyWeight::DisjunctionMax(DisjunctionMaxWeight::new(disjuncts, tie_breaker, weights))
    }
}

impl Query for BoostQuery {
    fn weight<'q, 'a, S: Statistics>(
        &'q self,
        enable_scoring: EnableScoring<'a, S>,
    ) -> AnyWeight<'q, GivenWeights<'a, S>> {
        let weights = GivenWeights::new(statistics(enable_scoring));
        let weight = QueryWeight::new(self.query(), weights);
        AnyWeight::Boost(BoostWeight::new(weight, self.boost()))
    }
}

impl Query for ConstScoreQuery {
    fn weight<'q, 'a, S: Statistics>(
        &'q self,
        enable_scoring: EnableScoring<'a, S>,
    ) -> AnyWeight<'q, GivenWeights<'a, S>> {
        let weights = GivenWeights::new(statistics(enable_scoring));
        let query = self.query();
        AnyWeight::ConstScore(ConstScoreWeight::new(query, self.score(), weights))
    }
}

impl Query for AnyQuery {
    fn weight<'q, 'a, S: Statistics>(
        &'q self,
        enable_scoring: EnableScoring<'a, S>,
    ) -> AnyWeight<'q, GivenWeights<'a, S>> {
        match self {
            AnyQuery::All(query) => query.weight(enable_scoring),
            AnyQuery::Empty(query) => query.weight(enable_scoring),
            AnyQuery::Term(query) => query.weight(enable_scoring),
            AnyQuery::Phrase(query) => query.weight(enable_scoring),
            AnyQuery::PhrasePrefix(query) => query.weight(enable_scoring),
            AnyQuery::Boolean(query) => query.weight(enable_scoring),
            AnyQuery::DisjunctionMax(query) => query.weight(enable_scoring),
            AnyQuery::Boost(query) => query.weight(enable_scoring),
            AnyQuery::ConstScore(query) => query.weight(enable_scoring),
        }
    }
}
