//! What can be asked of queries.

ghost use Rattle.std.specs.Prelude.{◌<◌, ◌^◌, ◌≡◌, ◌≢◌, IfErr, IfOk, List, None, Some, length, map};
ghost use Rattle.std.specs.Prelude.{option_map, pos, slice_get, ℕ};
ghost use Rattle.std.specs.List.{AllZip};
ghost use Rattle.definitions.specs.Alive.{Segment, live};
ghost use Rattle.definitions.specs.Analyzers.{Analyzer};
ghost use Rattle.definitions.specs.QueryTerms as terms_read;
ghost use Rattle.definitions.specs.Refusing.{tree_fault};
ghost use Rattle.definitions.specs.Scanning.{scan_count};
ghost use Rattle.definitions.specs.Schema.{Schema};
ghost use Rattle.definitions.specs.Values.{Document};
ghost use Rattle.definitions.specs.declared.fault.Fault.TheVariants as faults;
ghost use Rattle.query_trees.specs.NeededTerms.{needed};
ghost use Rattle.scorer_answers.specs.Earned.{score_at};
ghost use Rattle.scorer_answers.specs.Rows.{HasRows};
ghost use Rattle.segment_reader.specs.Scorings.{statistics_asked};
ghost use Rattle.segment_reader.specs.Searchers.{readers_in, statistics_of};
ghost use Rattle.segment_reader.specs.SegmentReaders.{StandsFor};
ghost use Rattle.segment_reader.specs.declared.segment_reader.SegmentReader.{SegmentReader};
ghost use Rattle.term_scorer.specs.Explaining.{explained_value};
ghost use Rattle.query_scorers.specs.Accepted.{IsAccepted};
ghost use Rattle.weights.specs.AnyForms.{AnyScoresBy, any_query};
ghost use Rattle.weights.specs.Given.{given_similarity};
ghost use Rattle.weights.specs.Unscored.{similarity_given};

use crate::asked_weights::explained;
use crate::counts::count_each;
use definitions::Fault;
use query_checks::QueryTree;
use segment_reader::{DocAddress, EnableScoring, Searcher};
use settings::Statistics;
use std::alloc::{AllocError, Global};
use term_scorer::Explanation;
use terms::Term;
use weights::{AnyWeight, GivenWeights};

/// A query of one form, or of any.
pub trait Query: QueryTree {
    /// Makes the query ready to be asked of segments. Without scoring only its matches are promised.
    fn weight<'q, 'a, S: Statistics>(
        &'q self,
        enable_scoring: EnableScoring<'a, S>,
    ) -> AnyWeight<'q, GivenWeights<'a, S>>
        ensures query { any_query result ≡ Self.tree self.now }
        ensures scores { AnyScoresBy (given_similarity S.similarity) result
            (similarity_given S.similarity (statistics_asked enable_scoring.entry)) };

    /// Explains the score of the document at an address; `InvalidArgument` if it doesn't match.
    fn explain<'a, S: Statistics>(
        &'a self,
        alloc: Global,
        searcher: &'a Searcher<'a, S>,
        address: DocAddress,
    ) -> Result<Explanation, Fault>
        requires there { address.segment_ord < length (readers_in searcher.now) }
        requires accepted { IsAccepted (S.similarity (statistics_of searcher.now)).weight 1 (Self.tree self.now) }
        ensures ok { (schema : Schema) (analyze : Analyzer) (docs : List Document) (reader : SegmentReader)
            → slice_get (readers_in searcher.now) address.segment_ord ≡ Some reader
            → StandsFor schema analyze docs reader
            → tree_fault schema (S.similarity (statistics_of searcher.now)).weight 1 (Self.tree self.now) ≡ None
            → IfOk result (λ explanation. option_map pos (score_at schema analyze
            (S.similarity (statistics_of searcher.now)) 1 (Self.tree self.now) docs address.doc_id)
            ≡ Some (explained_value explanation)) }
        ensures err { (schema : Schema) (analyze : Analyzer) (docs : List Document) (reader : SegmentReader)
            → slice_get (readers_in searcher.now) address.segment_ord ≡ Some reader
            → StandsFor schema analyze docs reader
            → tree_fault schema (S.similarity (statistics_of searcher.now)).weight 1 (Self.tree self.now) ≡ None
            → IfErr result (λ fault. fault ≢ faults.OutOfMemory → score_at schema analyze
            (S.similarity (statistics_of searcher.now)) 1 (Self.tree self.now) docs address.doc_id ≡ None) }
        ensures fault { IfErr result (λ fault. fault ≢ faults.OutOfMemory → fault ≡ faults.InvalidArgument) }
    {
        let weight = self.weight(EnableScoring::enabled_from_searcher(searcher));
        let reader = searcher.segment_reader(address.segment_ord);
        explained(alloc, &weight, reader, address.doc_id)
    }

    /// Counts the living documents of all segments that match. It asks for no scores.
    fn count<'a, S: Statistics>(
        &'a self,
        alloc: Global,
        searcher: &'a Searcher<'a, S>,
    ) -> Result<u64, AllocError>
        requires few { length (readers_in searcher.now) < 2 ^ 32 }
        requires accepted { ∥ ((weight : List ℕ → ℕ) × IsAccepted weight 1 (Self.tree self.now)) ∥₁ }
        ensures { (schema : Schema) (analyze : Analyzer) (segments : List Segment) (weight : List ℕ → ℕ)
            → AllZip (HasRows schema analyze) segments (readers_in searcher.now)
            → tree_fault schema weight 1 (Self.tree self.now) ≡ None
            → IfOk result (λ count. count ≡ scan_count schema analyze (live segments) (Self.tree self.now)) }
    {
        let weight = self.weight(EnableScoring::disabled_from_searcher(searcher));
        count_each(alloc, &weight, searcher.segment_readers())
    }

    /// Lists the terms that the query reads, of all nodes in order, each with whether its positions are needed. The
    /// prefix of a phrase prefix isn't among them. Calls don't nest, however deep the tree is.
    fn query_terms(&self, alloc: Global) -> Result<Vec<(&Term, bool)>, AllocError>
        ensures { IfOk result (λ terms. map needed terms.items ≡ terms_read.query_terms (Self.tree self.now)) }
    {
        self.needed_terms(alloc)
    }
}
