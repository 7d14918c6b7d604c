//! The score of one document, explained.

ghost use Rattle.std.specs.Prelude.{◌≡◌, ◌≢◌, IfErr, IfOk, List, None, Some, option_map, pos};
ghost use Rattle.definitions.specs.Analyzers.{Analyzer};
ghost use Rattle.definitions.specs.Refusing.{tree_fault};
ghost use Rattle.definitions.specs.Schema.{Schema};
ghost use Rattle.definitions.specs.Values.{Document};
ghost use Rattle.definitions.specs.declared.fault.Fault.TheVariants as faults;
ghost use Rattle.query_trees.specs.Queries.{query_of};
ghost use Rattle.scorer_answers.specs.Earned.{score_at};
ghost use Rattle.segment_reader.specs.SegmentReaders.{StandsFor};
ghost use Rattle.term_scorer.specs.Explaining.{explained_value};
ghost use Rattle.query_scorers.specs.Accepted.{IsAccepted};

use common::DocId;
use definitions::Fault;
use query_scorers::{SegmentScorers, scorer_of};
use query_trees::AnyQuery;
use std::alloc::Global;
use term_scorer::Explanation;

/// Explains the score of `doc` for `query`; `InvalidArgument` if `doc` doesn't match it.
pub fn explain<F: SegmentScorers>(
    alloc: Global,
    forms: &F,
    query: &AnyQuery,
    doc: DocId,
) -> Result<Explanation, Fault>
    requires { IsAccepted (F.similarity forms.now).weight 1 (query_of query.now) }
    ensures ok { (schema : Schema) (analyze : Analyzer) (docs : List Document)
        → StandsFor schema analyze docs (F.segment forms.now)
        → tree_fault schema (F.similarity forms.now).weight 1 (query_of query.now) ≡ None
        → IfOk result (λ explanation. option_map pos
        (score_at schema analyze (F.similarity forms.now) 1 (query_of query.now) docs doc)
        ≡ Some (explained_value explanation)) }
    ensures err { (schema : Schema) (analyze : Analyzer) (docs : List Document)
        → StandsFor schema analyze docs (F.segment forms.now)
        → tree_fault schema (F.similarity forms.now).weight 1 (query_of query.now) ≡ None
        → IfErr result (λ fault. fault ≢ faults.OutOfMemory
        → score_at schema analyze (F.similarity forms.now) 1 (query_of query.now) docs doc ≡ None) }
    ensures fault { IfErr result (λ fault. fault ≢ faults.OutOfMemory → fault ≡ faults.InvalidArgument) }
{
    let scorer = scorer_of(alloc, forms, query, 1)?;
    scorer_answers::explain(alloc, scorer, doc, description(query))
}

/// Returns the description of the kind of `query`.
fn description(query: &AnyQuery) -> &'static str {
    match query {
        AnyQuery::All(_) => "every document",
        AnyQuery::Empty(_) => "no document",
        AnyQuery::Term(_) => "a term",
        AnyQuery::Phrase(_) => "a phrase",
        AnyQuery::PhrasePrefix(_) => "a phrase with a prefix",
        AnyQuery::Boolean(_) => "clauses",
        AnyQuery::DisjunctionMax(_) => "the best of several queries",
        AnyQuery::Boost(_) => "a boost",
        AnyQuery::ConstScore(_) => "a constant",
    }
}
