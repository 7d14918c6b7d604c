//! The weight of a phrase whose last term is a prefix.

ghost use Rattle.std.specs.Prelude.{[], ◌*◌, ◌≡◌, ◌≤ℤ◌, ◌≤◌, IfNone, IfOk, IfSome, List, length, map, pos};
ghost use Rattle.docsets.proofs.EntryLaws.{DontFall-prop};
ghost use Rattle.docsets.specs.Entries.{from};
ghost use Rattle.definitions.specs.Analyzers.{Analyzer};
ghost use Rattle.definitions.specs.Answers.{answers};
ghost use Rattle.definitions.specs.Phrases.{by_offset, whole_terms};
ghost use Rattle.definitions.specs.Query.{phrase_prefix};
ghost use Rattle.definitions.specs.Schema.{Schema};
ghost use Rattle.definitions.specs.Scoring.{DontFall, greatest_of, max_score, natural, weight_sum};
ghost use Rattle.definitions.specs.Scoring as scoring;
ghost use Rattle.definitions.specs.Values.{Document};
ghost use Rattle.docsets.specs.ScoredEntries.{greatest_score, pairs_of};
ghost use Rattle.leaf_weights.specs.PlacedAnswers.{whole_weight};
ghost use Rattle.leaf_weights.specs.Suffixes.{IsSearched, suffix_places};
ghost use Rattle.segment_reader.specs.SegmentReaders.{StandsFor, index_of, max_doc_of};

use crate::read_suffixes::read_suffixes;
use crate::whole_phrase::{WholePhrase, whole_phrase};
use common::Score;
use docsets::DocSet;
use phrases::PhrasePrefixScorer;
use segment_postings::SegmentPostings;
use segment_reader::SegmentReader;
use std::alloc::{AllocError, Global};
use terms::Term;

/// The weight of a phrase prefix: it scores the documents where terms that begin with a prefix follow a phrase, by the
/// sum of the whole terms' weights and the norms of lengths. The terms and the norms are borrowed.
#[derive(Drop)]
pub struct PhrasePrefixWeight<'q, 'a> {
    terms: &'q [(usize, Term)],
    max_expansions: u32,
    weight: u64,
    norms: &'a [u32],
    ghost several: { 2 ≤ length terms.now },
    ghost sorted: { by_offset terms.now ≡ terms.now },
    ghost near: { greatest_of (map (λ t. t.0) terms.now) ≤ 1073741824 },
    ghost small: { weight ≤ max_score },
    ghost norm_for_each: { length norms.now ≡ 256 },
    ghost rises: { DontFall norms.now } by { DontFall-prop norms.now },
}

impl<'q, 'a> PhrasePrefixWeight<'q, 'a> {
    ghost use Rattle.leaf_weights.specs.PhrasePrefixWeights.{ScoresPrefixBy, limit_of, most_in, prefix_of, prefix_terms_of};

    /// Returns the weight of `terms`, at least two, in the order of their offsets, which are at most 2^30; the last of
    /// them is the prefix, which expands to at most `max_expansions` terms. `weight`, the sum of the whole terms'
    /// weights, is at most `MAX_SCORE`; the 256 `norms` don't fall.
    pub fn new(
        terms: &'q [(usize, Term)],
        max_expansions: u32,
        weight: u64,
        norms: &'a [u32],
    ) -> PhrasePrefixWeight<'q, 'a>
        requires several { 2 ≤ length terms.now }
        requires sorted { by_offset terms.now ≡ terms.now }
        requires near { greatest_of (map (λ t. t.0) terms.now) ≤ 1073741824 }
        requires small { weight ≤ max_score }
        requires norm_for_each { length norms.now ≡ 256 }
        requires rises { DontFall norms.now }
        ensures terms { prefix_terms_of result ≡ terms.now }
        ensures limit { limit_of result ≡ max_expansions }
        ensures most { most_in result ≡ whole_weight (whole_terms terms.now) weight }
        ensures scores { (sim : scoring.Similarity)
            → weight_sum sim.weight (whole_terms terms.now) ≡ weight
            → sim.norms ≡ norms.now
            → ScoresPrefixBy sim result }
    {
        PhrasePrefixWeight {
            terms,
            max_expansions,
            weight,
            norms,
        }
    }

    /// Returns the documents of the segment where terms that begin with the prefix follow the whole terms, with their
    /// scores under `boost`; `None` if one of the whole terms is in no document. The greatest limit of expansions
    /// leaves no term out, since a field has no more terms.
    pub fn phrase_prefix_scorer(
        &self,
        alloc: Global,
        reader: &SegmentReader<'a>,
        boost: Score,
    ) -> Result<Option<PhrasePrefixScorer<WholePhrase<'a>, SegmentPostings<'a>>>, AllocError>
        requires positive { pos 0 ≤ℤ boost }
        requires fits { natural boost * most_in self.now ≤ max_score }
        ensures some { (schema : Schema) (analyze : Analyzer) (sim : scoring.Similarity) (docs : List Document)
            → StandsFor schema analyze docs reader.now
            → ScoresPrefixBy sim self.now
            → IsSearched schema (prefix_of self.now)
            → length (suffix_places (index_of reader.now) (prefix_of self.now)) ≤ limit_of self.now
            → IfOk result (λ found. IfSome found (λ scorer. pairs_of
            (⟦<PhrasePrefixScorer<WholePhrase<'a>, SegmentPostings<'a>> as DocSet>⟧.entries scorer)
            ≡ answers schema analyze sim (natural boost)
            (phrase_prefix (prefix_terms_of self.now) (limit_of self.now)) docs)) }
        ensures none { (schema : Schema) (analyze : Analyzer) (sim : scoring.Similarity) (docs : List Document)
            → StandsFor schema analyze docs reader.now
            → IfOk result (λ found. IfNone found (answers schema analyze sim (natural boost)
            (phrase_prefix (prefix_terms_of self.now) (limit_of self.now)) docs ≡ [])) }
        ensures within { IfOk result (λ found. IfSome found (λ scorer. from (max_doc_of reader.now)
            (⟦<PhrasePrefixScorer<WholePhrase<'a>, SegmentPostings<'a>> as DocSet>⟧.entries scorer) ≡ [])) }
        ensures bounded { IfOk result (λ found. IfSome found (λ scorer. greatest_score
            (⟦<PhrasePrefixScorer<WholePhrase<'a>, SegmentPostings<'a>> as DocSet>⟧.entries scorer)
            ≤ natural boost * most_in self.now)) }
        ensures all { 4294967295 ≤ limit_of self.now → IfOk result (λ found. IfSome found (λ scorer.
            length (suffix_places (index_of reader.now) (prefix_of self.now)) ≤ limit_of self.now)) }
    {
        let terms = self.terms;
        let last = terms.len() - 1;
        let whole = &terms[..last];
        let Some(phrase) = whole_phrase(alloc, reader, whole, self.weight, self.norms, boost)?
        else {
            return Ok(None);
        };
        let prefix = &terms[last].1;
        let _type = prefix.typ();
        let _field = prefix.field();
        let suffixes = read_suffixes(alloc, reader, prefix, self.max_expansions)?;
        let moved = terms[last].0.saturating_sub(terms[last - 1].0) as u32;
        let scorer = PhrasePrefixScorer::new(alloc, phrase, suffixes, moved)?;
        Ok(Some(scorer))
    }
}
