//! The weight of a phrase.

ghost use Rattle.std.specs.Prelude.{[], ◌*◌, ◌≡◌, ◌≤ℤ◌, ◌≤◌, IfNone, IfOk, IfSome, List, length, map, pos};
ghost use Rattle.docsets.proofs.EntryLaws.{DontFall-prop};
ghost use Rattle.docsets.specs.Entries.{from, most_positions};
ghost use Rattle.definitions.specs.Analyzers.{Analyzer};
ghost use Rattle.definitions.specs.Answers.{answers};
ghost use Rattle.definitions.specs.Phrases.{by_offset};
ghost use Rattle.definitions.specs.Query.{phrase};
ghost use Rattle.definitions.specs.Schema.{Schema};
ghost use Rattle.definitions.specs.Scoring.{DontFall, greatest_of, max_score, natural, weight_sum};
ghost use Rattle.definitions.specs.Scoring as scoring;
ghost use Rattle.definitions.specs.Values.{Document};
ghost use Rattle.docsets.specs.ScoredEntries.{greatest_score, pairs_of};
ghost use Rattle.leaf_weights.specs.PlacedAnswers.{placed_answers};
ghost use Rattle.segment_reader.specs.SegmentReaders.{StandsFor, max_doc_of};

use crate::read_terms::read_terms;
use common::Score;
use docsets::DocSet;
use phrases::{PhraseScorer, PostingsWithOffset};
use segment_postings::SegmentPostings;
use segment_reader::{SegmentReader, lengths_of_field};
use std::alloc::{AllocError, Global};
use term_scorer::Similarity;
use terms::Term;

/// The weight of a phrase: it scores the documents where the phrase occurs, by the sum of its terms' weights and the
/// norms of lengths. The terms and the norms are borrowed.
#[derive(Drop)]
pub struct PhraseWeight<'q, 'a> {
    terms: &'q [(usize, Term)],
    slop: u32,
    weight: u64,
    norms: &'a [u32],
    ghost several: { 2 ≤ length terms.now },
    ghost sorted: { by_offset terms.now ≡ terms.now },
    ghost near: { greatest_of (map (λ t. t.0) terms.now) ≤ 1073741824 },
    ghost small: { weight ≤ max_score },
    ghost norm_for_each: { length norms.now ≡ 256 },
    ghost rises: { DontFall norms.now } by { DontFall-prop norms.now },
}

impl<'q, 'a> PhraseWeight<'q, 'a> {
    ghost use Rattle.leaf_weights.specs.PhraseWeights.{ScoresBy, slop_of, terms_of, weight_in};

    /// Returns the weight of `terms`, at least two, in the order of their offsets, which are at most 2^30. `slop` is
    /// the number of positions that they may be off together; `weight`, the sum of their weights, is at most
    /// `MAX_SCORE`; the 256 `norms` don't fall.
    pub fn new(
        terms: &'q [(usize, Term)],
        slop: u32,
        weight: u64,
        norms: &'a [u32],
    ) -> PhraseWeight<'q, 'a>
        requires several { 2 ≤ length terms.now }
        requires sorted { by_offset terms.now ≡ terms.now }
        requires near { greatest_of (map (λ t. t.0) terms.now) ≤ 1073741824 }
        requires small { weight ≤ max_score }
        requires norm_for_each { length norms.now ≡ 256 }
        requires rises { DontFall norms.now }
        ensures terms { terms_of result ≡ terms.now }
        ensures slop { slop_of result ≡ slop }
        ensures weight { weight_in result ≡ weight }
        ensures scores { (sim : scoring.Similarity) → weight_sum sim.weight terms.now ≡ weight → sim.norms ≡ norms.now
            → ScoresBy sim result }
    {
        PhraseWeight {
            terms,
            slop,
            weight,
            norms,
        }
    }

    /// Sets the number of positions that the terms may be off together.
    pub fn slop(&mut self, slop: u32)
        ensures terms { terms_of self.new ≡ terms_of self.old }
        ensures slop { slop_of self.new ≡ slop }
        ensures weight { weight_in self.new ≡ weight_in self.old }
        ensures scores { (sim : scoring.Similarity) → ScoresBy sim self.old → ScoresBy sim self.new }
    {
        self.slop = slop;
    }

    /// Returns the documents of the segment where the phrase occurs, with their scores under `boost`; `None` if one of
    /// its terms is in no document.
    pub fn phrase_scorer(
        &self,
        alloc: Global,
        reader: &SegmentReader<'a>,
        boost: Score,
    ) -> Result<Option<PhraseScorer<'a, PostingsWithOffset<SegmentPostings<'a>>>>, AllocError>
        requires positive { pos 0 ≤ℤ boost }
        requires fits { natural boost * weight_in self.now ≤ max_score }
        ensures some { (schema : Schema) (analyze : Analyzer) (sim : scoring.Similarity) (docs : List Document)
            → StandsFor schema analyze docs reader.now
            → ScoresBy sim self.now
            → IfOk result (λ found. IfSome found (λ scorer. pairs_of
            (⟦<PhraseScorer<'a, PostingsWithOffset<SegmentPostings<'a>>> as DocSet>⟧.entries scorer)
            ≡ answers schema analyze sim (natural boost) (phrase (terms_of self.now) (slop_of self.now)) docs)) }
        ensures places { (schema : Schema) (analyze : Analyzer) (sim : scoring.Similarity) (docs : List Document)
            → StandsFor schema analyze docs reader.now
            → ScoresBy sim self.now
            → IfOk result (λ found. IfSome found (λ scorer.
            ⟦<PhraseScorer<'a, PostingsWithOffset<SegmentPostings<'a>>> as DocSet>⟧.entries scorer
            ≡ placed_answers schema analyze sim (natural boost) (terms_of self.now) (slop_of self.now) docs)) }
        ensures none { (schema : Schema) (analyze : Analyzer) (sim : scoring.Similarity) (docs : List Document)
            → StandsFor schema analyze docs reader.now
            → IfOk result (λ found. IfNone found
            (answers schema analyze sim (natural boost) (phrase (terms_of self.now) (slop_of self.now)) docs ≡ [])) }
        ensures within { IfOk result (λ found. IfSome found (λ scorer. from (max_doc_of reader.now)
            (⟦<PhraseScorer<'a, PostingsWithOffset<SegmentPostings<'a>>> as DocSet>⟧.entries scorer) ≡ [])) }
        ensures bounded { IfOk result (λ found. IfSome found (λ scorer. greatest_score
            (⟦<PhraseScorer<'a, PostingsWithOffset<SegmentPostings<'a>>> as DocSet>⟧.entries scorer)
            ≤ natural boost * weight_in self.now)) }
        ensures few_places { IfOk result (λ found. IfSome found (λ scorer. most_positions
            (⟦<PhraseScorer<'a, PostingsWithOffset<SegmentPostings<'a>>> as DocSet>⟧.entries scorer)
            ≤ 4294967295)) }
    {
        let Some(term_postings) = read_terms(alloc, reader, self.terms)? else {
            return Ok(None);
        };
        let similarity = Similarity::new(self.weight as i64, boost, self.norms);
        let lengths = lengths_of_field(reader, self.terms[0].1.field());
        let scorer = PhraseScorer::new(alloc, term_postings, Some(similarity), lengths, self.slop)?;
        Ok(Some(scorer))
    }
}
