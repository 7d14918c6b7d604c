//! Scorers of any kind: those of a term and of all documents, and what several have.

ghost use Rattle.std.specs.Prelude.{◌≡◌, ◌≤◌, IfOk, length};
ghost use Rattle.docsets.specs.ScoredEntries.{greatest_score};
ghost use Rattle.segment_reader.specs.Searchers.{readers_in};

use case_lines::{Refusal, triple};
use case_segments::scored;
use docsets::{AllScorer, BoostScorer, DocSet, EmptyScorer, Scorer};
use query::{AnyQuery, SpecializedWeight};
use scorer_answers::for_each;
use serde_json::Value;
use settings::Settings;
use std::alloc::Global;
use term_scorer::TermScorer;
use weights::{
    AllWeight, AnyScorer, EnableScoring, Searcher, SegmentReader, SegmentWeight,
    TermOrEmptyOrAllScorer, TermWeight, intersect_scorers,
};

/// A scorer of any kind, of a term or of all documents.
pub(crate) type Boxed<'a> = AnyScorer<
    BoostScorer<AllScorer>,
    TermScorer<'a>,
    EmptyScorer,
    EmptyScorer,
>;

/// The documents of a term, and all documents, by scorers of any kind; and what both have of all documents, twice.
pub(crate) fn boxed<'a>(
    alloc: Global,
    query: &AnyQuery,
    searcher: &'a Searcher<'a, Settings>,
) -> Result<Value, Refusal>
    requires { length (readers_in searcher.now) ≡ 1 }
{
    let AnyQuery::Term(query) = query else {
        return Err(Refusal::NotAsked);
    };
    let reader = searcher.segment_reader(0);
    let weight = query.specialized_weight(EnableScoring::enabled_from_searcher(searcher));
    let mut of_term = of_term(alloc, &weight, reader);
    let mut all = all_documents(alloc, reader)?;
    let both = vec![in alloc;
        all_documents(alloc, reader)?,
        all_documents(alloc, reader)?,
    ]?;
    let mut meeting = intersect_scorers(alloc, both)?;
    let of_term = walked(alloc, &mut of_term)?;
    let all = walked(alloc, &mut all)?;
    Ok(triple(alloc, of_term, all, walked(alloc, &mut meeting)?)?)
}

/// The documents of a term, by a scorer of any kind.
pub(crate) fn of_term<'a>(
    alloc: Global,
    weight: &TermWeight<'_, 'a>,
    reader: &SegmentReader<'a>,
) -> Boxed<'a> {
    let found = match weight.term_scorer(reader, 1) {
        Some(scorer) => TermOrEmptyOrAllScorer::TermScorer(scorer),
        None => TermOrEmptyOrAllScorer::Empty,
    };
    found.into_boxed_scorer(alloc)
}

/// All documents, by a scorer of any kind.
pub(crate) fn all_documents<'a>(
    alloc: Global,
    reader: &SegmentReader<'a>,
) -> Result<Boxed<'a>, Refusal>
    ensures { IfOk result (λ scorer. greatest_score (⟦<Boxed<'a> as DocSet>⟧.entries scorer) ≤ 1) }
{
    let all = AllWeight.scorer(alloc, reader, 1)?;
    Ok(TermOrEmptyOrAllScorer::AllMatch(all).into_boxed_scorer(alloc))
}

/// The documents of a scorer with their scores.
fn walked<S: Scorer>(alloc: Global, scorer: &mut S) -> Result<Value, Refusal> {
    Ok(scored(alloc, for_each(alloc, scorer)?)?)
}
