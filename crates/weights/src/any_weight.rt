//! Weights of queries of any form.

ghost use Rattle.std.specs.Prelude.{[], ◌≡◌};

use crate::all_weight::AllWeight;
use crate::boolean_weight::BooleanWeight;
use crate::boost_weight::BoostWeight;
use crate::calls;
use crate::const_score_weight::ConstScoreWeight;
use crate::disjunction_max_weight::DisjunctionMaxWeight;
use crate::empty_weight::EmptyWeight;
use crate::feeds::feed_by_kind;
use crate::query_weight::QueryWeight;
use crate::weight::{SegmentWeight, Weight};
use any_scorer::{AnyScorer, Leaf};
use common::{DocId, Score};
use definitions::Fault;
use docsets::{AllScorer, BoostScorer, DocSet, ListScorer};
use query_scorers::{SegmentScorers, all_scorer};
use query_trees::{PhrasePrefixQuery, PhraseQuery, TermQuery};
use reader_scorers::{LeafWeights, ReaderScorers, ScorerBy};
use scorer_answers::{count_all, count_term};
use segment_reader::SegmentReader;
use std::alloc::{AllocError, Global};
use term_scorer::Explanation;
use walks::{BlockSink, Sink};

/// The weight of a query of any form. The query is borrowed; `W` makes the scorers of its leaves.
#[derive(Drop)]
pub enum AnyWeight<'q, W> {
    /// Of every document.
    All(AllWeight),
    /// Of no document.
    Empty(EmptyWeight),
    /// Of the documents that hold a term.
    Term(&'q TermQuery, W),
    /// Of the documents where a phrase occurs.
    Phrase(&'q PhraseQuery, W),
    /// Of the documents where terms that begin with a prefix follow a phrase.
    PhrasePrefix(&'q PhrasePrefixQuery, W),
    /// Of clauses.
    Boolean(BooleanWeight<'q, W>),
    /// Of the best of several queries.
    DisjunctionMax(DisjunctionMaxWeight<'q, W>),
    /// Of another query, boosted.
    Boost(BoostWeight<QueryWeight<'q, W>>),
    /// Of another query, with a constant score.
    ConstScore(ConstScoreWeight<'q, W>),
}

/// Returns the scorer of every document.
fn of_all<'a, W: LeafWeights<'a>>(all: BoostScorer<AllScorer>) -> ScorerBy<'a, W>
    ensures { ⟦<ScorerBy<'a, W> as DocSet>⟧.entries result ≡ ⟦<BoostScorer<AllScorer> as DocSet>⟧.entries all }
{
    AnyScorer::Leaf(Leaf::All(all))
}

/// Returns the scorer of no document.
fn of_none<'a, W: LeafWeights<'a>>(alloc: Global) -> ScorerBy<'a, W>
    ensures { ⟦<ScorerBy<'a, W> as DocSet>⟧.entries result ≡ [] }
{
    AnyScorer::Leaf(Leaf::List(ListScorer::new(Vec::new(alloc))))
}

impl<'q, W> AnyWeight<'q, W> {
    /// Returns what the query asks for, in a few words.
    fn description(&self) -> &'static str {
        match self {
            AnyWeight::All(_) => "every document",
            AnyWeight::Empty(_) => "no document",
            AnyWeight::Term(_, _) => "a term",
            AnyWeight::Phrase(_, _) => "a phrase",
            AnyWeight::PhrasePrefix(_, _) => "a phrase with a prefix",
            AnyWeight::Boolean(_) => "clauses",
            AnyWeight::DisjunctionMax(_) => "the best of several queries",
            AnyWeight::Boost(_) => "a boost",
            AnyWeight::ConstScore(_) => "a constant",
        }
    }
}

impl<'q, 'a, W: LeafWeights<'a>> SegmentWeight<'a> for AnyWeight<'q, W> {
    ghost use Rattle.weights.specs.AnyForms.{AnyScoresBy, any_query};

    type Scorer = ScorerBy<'a, W>;

    ghost scores_by = { λ w sim. AnyScoresBy W.similarity w sim };

    ghost query = { any_query };

    fn scorer(
        &self,
        alloc: Global,
        reader: &SegmentReader<'a>,
        boost: Score,
    ) -> Result<ScorerBy<'a, W>, AllocError> {
        match self {
            AnyWeight::All(_) => Ok(of_all::<W>(all_scorer(reader, boost))),
            AnyWeight::Empty(_) => Ok(of_none::<W>(alloc)),
            AnyWeight::Term(query, weights) => {
                let forms = ReaderScorers::new(reader, weights);
                Ok(forms.term_scorer(alloc, query, boost as u64))
            }
            AnyWeight::Phrase(query, weights) => {
                let forms = ReaderScorers::new(reader, weights);
                forms.phrase_scorer(alloc, query, boost as u64)
            }
            AnyWeight::PhrasePrefix(query, weights) => {
                let forms = ReaderScorers::new(reader, weights);
                forms.phrase_prefix_scorer(alloc, query, boost as u64)
            }
            AnyWeight::Boolean(weight) => weight.scorer(alloc, reader, boost),
            AnyWeight::DisjunctionMax(weight) => weight.scorer(alloc, reader, boost),
            AnyWeight::Boost(weight) => weight.scorer(alloc, reader, boost),
            AnyWeight::ConstScore(weight) => weight.scorer(alloc, reader, boost),
        }
    }
}

impl<'q, 'a, W: LeafWeights<'a>> Weight<'a> for AnyWeight<'q, W> {
    fn explain(
        &self,
        alloc: Global,
        reader: &SegmentReader<'a>,
        doc: DocId,
    ) -> Result<Explanation, Fault> {
        calls::explain(alloc, self, reader, doc, self.description())
    }

    fn count(&self, alloc: Global, reader: &SegmentReader<'a>) -> Result<u32, AllocError> {
        match self {
            AnyWeight::All(_) => Ok(count_all(reader)),
            AnyWeight::Term(query, _) => Ok(count_term(query.term(), reader)),
            AnyWeight::Boolean(weight) => weight.count(alloc, reader),
            AnyWeight::DisjunctionMax(weight) => weight.count(alloc, reader),
            _ => calls::count(alloc, self, reader),
        }
    }

    fn for_each(
        &self,
        alloc: Global,
        reader: &SegmentReader<'a>,
    ) -> Result<Vec<(DocId, Score)>, AllocError> {
        calls::for_each(alloc, self, reader)
    }

    fn for_each_no_score<K: BlockSink>(
        &self,
        alloc: Global,
        reader: &SegmentReader<'a>,
        sink: &mut K,
    ) -> Result<(), AllocError> {
        calls::for_each_no_score(alloc, self, reader, sink)
    }

    fn for_each_pruning<K: Sink>(
        &self,
        alloc: Global,
        threshold: Score,
        reader: &SegmentReader<'a>,
        sink: &mut K,
    ) -> Result<(), AllocError> {
        if let AnyWeight::Boolean(weight) = self {
            return weight.for_each_pruning(alloc, threshold, reader, sink);
        }
        if let AnyWeight::DisjunctionMax(weight) = self {
            return weight.for_each_pruning(alloc, threshold, reader, sink);
        }
        let scorer = self.scorer(alloc, reader, 1)?;
        feed_by_kind::<ReaderScorers<'_, 'a, W>, K>(scorer, reader.max_doc(), threshold, sink);
        Ok(())
    }
}
