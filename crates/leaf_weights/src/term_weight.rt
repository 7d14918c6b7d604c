//! The weight of a term.

ghost use Rattle.std.specs.Prelude.{[], ◌*◌, ◌<◌, ◌≡◌, ◌≤ℤ◌, ◌≤◌, IfNone, IfOk, IfSome, List, OnErr, OnOk, Some, length, map, pos};
ghost use Rattle.definitions.specs.Analyzers.{Analyzer};
ghost use Rattle.definitions.specs.Answers.{answers};
ghost use Rattle.definitions.specs.Query.{term};
ghost use Rattle.definitions.specs.Schema.{Schema};
ghost use Rattle.definitions.specs.Scoring.{DontFall, max_score, natural};
ghost use Rattle.definitions.specs.Scoring as scoring;
ghost use Rattle.definitions.specs.Sinks.{fed};
ghost use Rattle.definitions.specs.TermBlocks.{scored_blocks};
ghost use Rattle.definitions.specs.Values.{Document};
ghost use Rattle.docsets.specs.Entries.{from};
ghost use Rattle.docsets.proofs.EntryLaws.{DontFall-prop};
ghost use Rattle.docsets.specs.ScoredEntries.{greatest_score, pairs_of};
ghost use Rattle.options.specs.RecordOption.{record_option_of};
ghost use Rattle.layouts.specs.TermPostings.{bound_in};
ghost use Rattle.walks.specs.Feeding.{IsFedBelow};
ghost use Rattle.segment_postings.specs.Cursors.{cursor_blocks, cursor_blocks_decoded, cursor_place, skips_left};
ghost use Rattle.segment_reader.specs.Readers.{full_bounds};
ghost use Rattle.segment_reader.specs.SegmentReaders.{StandsFor, max_doc_of};
ghost use Rattle.term_scorer.specs.ScoredTerms.{cursor_of, scored_left, similarity_of};

use common::{DocId, Score};
use options::IndexRecordOption;
use segment_reader::{SegmentReader, lengths_of_field};
use std::alloc::{AllocError, Global};
use term_scorer::{Similarity, TermScorer};
use terms::Term;
use walks::{Sink, block_wand_single_scorer};

/// The weight of a term and the norms of lengths, which score the documents that hold it. The term and the norms are
/// borrowed.
#[derive(Drop)]
pub struct TermWeight<'q, 'a> {
    term: &'q Term,
    index_record_option: IndexRecordOption,
    weight: u64,
    norms: &'a [u32],
    ghost small: { weight ≤ max_score },
    ghost norm_for_each: { length norms.now ≡ 256 },
    ghost rises: { DontFall norms.now } by { DontFall-prop norms.now },
}

impl<'q, 'a> TermWeight<'q, 'a> {
    ghost use Rattle.leaf_weights.specs.DecodedBlocks.{decoded_for};
    ghost use Rattle.leaf_weights.specs.TermWeights.{ScoresBy, option_asked, term_of, weight_in};

    /// Returns the weight of `term`: what is read of its postings, `weight`, which is at most `MAX_SCORE`, and 256
    /// `norms`, which don't fall.
    pub fn new(
        term: &'q Term,
        index_record_option: IndexRecordOption,
        weight: u64,
        norms: &'a [u32],
    ) -> TermWeight<'q, 'a>
        requires small { weight ≤ max_score }
        requires norm_for_each { length norms.now ≡ 256 }
        requires rises { DontFall norms.now }
        ensures term { term_of result ≡ term.now }
        ensures option { option_asked result ≡ record_option_of index_record_option }
        ensures weight { weight_in result ≡ weight }
        ensures scores { (sim : scoring.Similarity) → sim.weight term.now ≡ weight → sim.norms ≡ norms.now
            → ScoresBy sim result }
    {
        TermWeight {
            term,
            index_record_option,
            weight,
            norms,
        }
    }

    /// Returns the term.
    pub fn term(&self) -> &'q Term
        ensures { result.now ≡ term_of self.now }
    {
        self.term
    }

    /// Returns the documents of the segment that hold the term, with their scores under `boost`; `None` if no document
    /// holds it.
    pub fn term_scorer(&self, reader: &SegmentReader<'a>, boost: Score) -> Option<TermScorer<'a>>
        requires positive { pos 0 ≤ℤ boost }
        requires fits { natural boost * weight_in self.now ≤ max_score }
        ensures some { (schema : Schema) (analyze : Analyzer) (sim : scoring.Similarity) (docs : List Document)
            → StandsFor schema analyze docs reader.now
            → ScoresBy sim self.now
            → IfSome result (λ scorer. pairs_of (scored_left scorer)
            ≡ answers schema analyze sim (natural boost) (term (term_of self.now) (option_asked self.now)) docs) }
        ensures none { (schema : Schema) (analyze : Analyzer) (sim : scoring.Similarity) (docs : List Document)
            → StandsFor schema analyze docs reader.now
            → IfNone result
            (answers schema analyze sim (natural boost) (term (term_of self.now) (option_asked self.now)) docs ≡ []) }
        ensures present { IfSome result (λ scorer. 0 < length (scored_left scorer)) }
        ensures within { IfSome result (λ scorer. from (max_doc_of reader.now) (scored_left scorer) ≡ []) }
        ensures bounded { IfSome result (λ scorer. greatest_score (scored_left scorer)
            ≤ natural boost * weight_in self.now) }
        ensures similarity { (sim : scoring.Similarity) → ScoresBy sim self.now
            → IfSome result (λ scorer. similarity_of scorer
            ≡ record { weight = sim.weight (term_of self.now); boost = natural boost; norms = sim.norms }) }
        ensures opened { IfSome result (λ scorer. (cursor_blocks_decoded (cursor_of scorer) ≡ 1)
            × (cursor_place (cursor_of scorer) ≡ 0)) }
        ensures blocks { (schema : Schema) (analyze : Analyzer) (docs : List Document)
            → StandsFor schema analyze docs reader.now
            → IfSome result (λ scorer. map bound_in (skips_left (cursor_blocks (cursor_of scorer)))
            ≡ full_bounds schema analyze (term_of self.now) docs) }
    {
        let index = reader.inverted_index();
        let postings = index.read_postings(self.term, self.index_record_option)?;
        let similarity = Similarity::new(self.weight as i64, boost, self.norms);
        Some(TermScorer::new(
            postings,
            lengths_of_field(reader, self.term.field()),
            similarity,
        ))
    }

    /// Feeds each document of the segment that holds the term with its score to `sink`, in order, if the score is above
    /// the sink's threshold by then. Returns the number of blocks that were decoded, including the first; 0 if no
    /// document holds the term.
    pub fn for_each_pruning_counted<K: Sink>(
        &self,
        threshold: Score,
        reader: &SegmentReader<'a>,
        sink: &mut K,
    ) -> Result<u64, AllocError>
        requires threshold { threshold ≡ K.limit (K.state sink.old) }
        requires room { max_doc_of reader.now ≤ K.room sink.old }
        ensures fed { (schema : Schema) (analyze : Analyzer) (sim : scoring.Similarity) (docs : List Document)
            → StandsFor schema analyze docs reader.now
            → ScoresBy sim self.now
            → OnOk result (K.state sink.new ≡ fed K.limit K.taken (K.state sink.old)
            (answers schema analyze sim 1 (term (term_of self.now) (option_asked self.now)) docs)) }
        ensures listed { OnOk result (IsFedBelow K.limit K.taken (K.state sink.old) (max_doc_of reader.now)
            (K.state sink.new)) }
        ensures counted { (schema : Schema) (analyze : Analyzer) (sim : scoring.Similarity) (docs : List Document)
            → StandsFor schema analyze docs reader.now
            → ScoresBy sim self.now
            → IfOk result (λ n. n ≡ decoded_for K.limit K.taken (K.state sink.old)
            (answers schema analyze sim 1 (term (term_of self.now) (option_asked self.now)) docs)
            (scored_blocks schema analyze sim 1 (term_of self.now) (option_asked self.now) docs)) }
        ensures same { OnErr result (sink.new ≡ sink.old) }
    {
        match self.term_scorer(reader, 1) {
            Some(mut scorer) => {
                block_wand_single_scorer(&mut scorer, threshold, sink);
                Ok(scorer.decoded_blocks())
            }
            None => Ok(0),
        }
    }
}
