//! The documents of a term, with their scores.

ghost use Rattle.std.specs.Prelude.{[], ◌*◌, ◌+◌, ◌/◌, ◌<◌, ◌≡◌, ◌≤ℤ◌, ◌≤◌, IfOk, None, Some, drop, if◌then◌else◌, int_lt, length, pos, slice_index};
ghost use Rattle.definitions.specs.Blocks.{block_len};
ghost use Rattle.definitions.specs.Postings.{terminated};
ghost use Rattle.definitions.specs.Scoring.{max_score, natural};
ghost use Rattle.docsets.specs.Bounds.{Covers};
ghost use Rattle.docsets.specs.Entries.{first, first_count, first_score, from};
ghost use Rattle.docsets.specs.ScoredEntries.{greatest_score};
ghost use Rattle.segment_postings.specs.BoundedBlocks.{AreBounded};
ghost use Rattle.segment_postings.specs.BoundedBlockLaws.{AreBounded-prop};
ghost use Rattle.segment_postings.specs.Cursors.{HasStayed, counts_left, cursor_blocks, cursor_blocks_decoded, docs_left, entries_left, skips_left, skips_reached};
ghost use Rattle.segment_postings.specs.Reading.{below};
ghost use Rattle.codes.specs.SkipBlocks.{last_doc};
ghost use Rattle.term_scorer.specs.BlockScores.{block_score, until_of};
ghost use Rattle.term_scorer.specs.Explaining.{explained_value};
ghost use Rattle.term_scorer.specs.Similarities.{similarity_data};
ghost use Rattle.term_scorer.specs.TermScores.{documents_bound, term_scored};

use crate::explanation::Explanation;
use crate::similarity::Similarity;
use codes::FieldNormReader;
use common::{DocId, Score, TERMINATED};
use docsets::{DocSet, Postings, Scorer, SeekDangerResult, Window};
use segment_postings::SegmentPostings;
use std::alloc::{AllocError, Global};

/// The documents of a term, each with the score of its count and its length.
/// The postings, some two kilobytes, are held by value and moved once or twice: for a box, memory would be taken for
/// each term, which may be refused. The norms are borrowed, so the similarity is four words.
#[derive(Drop)]
pub struct TermScorer<'a> {
    postings: SegmentPostings<'a>,
    fieldnorm_reader: FieldNormReader<'a>,
    similarity: Similarity<'a>,
    ghost covered: { documents_bound (entries_left postings) ≤ length fieldnorm_reader },
    ghost bounded: { AreBounded fieldnorm_reader (skips_left (cursor_blocks postings)) (docs_left (cursor_blocks postings)) (counts_left (cursor_blocks postings)) } by { AreBounded-prop fieldnorm_reader (skips_left (cursor_blocks postings)) (docs_left (cursor_blocks postings)) (counts_left (cursor_blocks postings)) },
}

impl<'a> TermScorer<'a> {
    ghost use Rattle.term_scorer.specs.ScoredTerms.{cursor_of, length_ids, scored_left, similarity_of};

    /// Returns a scorer of `postings`. All documents have their lengths in `fieldnorm_reader`, and the bounds of the
    /// postings' blocks are true of these lengths.
    pub fn new(
        postings: SegmentPostings<'a>,
        fieldnorm_reader: FieldNormReader<'a>,
        similarity: Similarity<'a>,
    ) -> TermScorer<'a>
        requires covered { from (length fieldnorm_reader) (entries_left postings) ≡ [] }
        requires bounded { AreBounded fieldnorm_reader (skips_left (cursor_blocks postings))
            (docs_left (cursor_blocks postings)) (counts_left (cursor_blocks postings)) }
        ensures entries { scored_left result
            ≡ term_scored (similarity_data similarity.entry) fieldnorm_reader.entry (entries_left postings.entry) }
        ensures lengths { length_ids result ≡ fieldnorm_reader.entry }
        ensures similarity { similarity_of result ≡ similarity_data similarity.entry }
        ensures cursor { cursor_of result ≡ postings.entry }
    {
        TermScorer {
            postings,
            fieldnorm_reader,
            similarity,
        }
    }

    /// Returns the count of the term in the current document, as far as its postings record it.
    #[inline]
    pub fn term_freq(&self) -> u32
        requires { first (scored_left self.now) < terminated }
        ensures { result ≡ first_count (scored_left self.now) }
    {
        self.postings.term_freq()
    }

    /// Returns the length id of the current document.
    #[inline]
    pub fn fieldnorm_id(&self) -> u8
        requires { first (scored_left self.now) < terminated }
        ensures { result ≡ slice_index (length_ids self.now) (first (scored_left self.now)) }
    {
        self.fieldnorm_reader.fieldnorm_id(self.postings.doc())
    }

    /// Returns the score of the current document if it is above `threshold`. Where nothing is boosted, one that isn't takes
    /// no division.
    #[inline(always)]
    pub fn score_above(&self, threshold: Score) -> Option<Score>
        requires { first (scored_left self.now) < terminated }
        ensures { result ≡ (if int_lt threshold (pos (first_score (scored_left self.now)))
            then Some (pos (first_score (scored_left self.now))) else None) }
    {
        let fieldnorm_id = self.fieldnorm_id();
        let term_freq = self.term_freq();
        if self.similarity.exceeds(fieldnorm_id, term_freq, threshold) {
            return Some(self.similarity.score(fieldnorm_id, term_freq));
        }
        None
    }

    /// Returns the number of blocks with documents that the postings decoded, including the first.
    #[inline]
    pub fn decoded_blocks(&self) -> u64
        ensures { result ≡ cursor_blocks_decoded (cursor_of self.now) }
    {
        self.postings.decoded_blocks()
    }

    /// Finds the block that may contain `target` without decoding it. The cursor stays where it is.
    #[inline]
    pub fn seek_block(&mut self, target: DocId)
        requires { target ≤ terminated }
        ensures same { scored_left self.new ≡ scored_left self.old }
        ensures stayed { HasStayed (cursor_of self.old) (cursor_of self.new) }
        ensures reached { skips_reached (cursor_blocks (cursor_of self.new))
            ≡ drop (below target (docs_left (cursor_blocks (cursor_of self.old))) / block_len)
            (skips_left (cursor_blocks (cursor_of self.old))) }
        ensures ahead { target ≤ last_doc (skips_reached (cursor_blocks (cursor_of self.new))) }
        ensures ends { 0 < length (skips_reached (cursor_blocks (cursor_of self.new)))
            → below (last_doc (skips_reached (cursor_blocks (cursor_of self.new))) + 1)
            (docs_left (cursor_blocks (cursor_of self.old)))
            ≡ block_len * (below target (docs_left (cursor_blocks (cursor_of self.old))) / block_len + 1) }
        ensures covers { target < terminated
            → Covers target (until_of (skips_reached (cursor_blocks (cursor_of self.new))))
            (block_score (similarity_of self.new) (skips_reached (cursor_blocks (cursor_of self.new))))
            (scored_left self.old) }
        ensures lengths { length_ids self.new ≡ length_ids self.old }
        ensures similarity { similarity_of self.new ≡ similarity_of self.old }
    {
        self.fieldnorm_reader.ids_are_below_256();
        self.postings.seek_block(target);
    }

    /// Returns the score of the bound of the block that was found, or reached by a later move. No score of a document in
    /// that block is above it.
    #[inline]
    pub fn block_max_score(&self) -> Score
        ensures { result ≡ pos (block_score (similarity_of self.now)
            (skips_reached (cursor_blocks (cursor_of self.now)))) }
    {
        match self.postings.block_bound() {
            Some((least_id, greatest_count)) => {
                self.similarity.score(least_id, u32::from(greatest_count))
            }
            None => self.similarity.max_score(),
        }
    }

    /// Returns the last document of that block, `TERMINATED` if it is the rest.
    #[inline]
    pub fn last_doc_in_block(&self) -> DocId
        ensures { result ≡ last_doc (skips_reached (cursor_blocks (cursor_of self.now))) }
    {
        self.postings.last_doc_in_block()
    }

    /// Returns the boost times the weight. No score is above it.
    pub fn max_score(&self) -> Score
        ensures value { result ≡ pos ((similarity_of self.now).boost * (similarity_of self.now).weight) }
        ensures greatest { greatest_score (scored_left self.now)
            ≤ (similarity_of self.now).boost * (similarity_of self.now).weight }
    {
        self.similarity.max_score()
    }

    /// Explains the score of the current document.
    pub fn explain(&self, alloc: Global) -> Result<Explanation, AllocError>
        requires { first (scored_left self.now) < terminated }
        ensures { IfOk result (λ explanation. explained_value explanation
            ≡ pos (first_score (scored_left self.now))) }
    {
        self.similarity
            .explain(alloc, self.fieldnorm_id(), self.term_freq())
    }
}

impl<'a> DocSet for TermScorer<'a> {
    ghost use Rattle.std.specs.Prelude.{drop, if◌then◌else◌, max, nat_lt};
    ghost use Rattle.definitions.specs.Blocks.{block_len};
    ghost use Rattle.docsets.specs.Danger.{IsDangerAnswer};
    ghost use Rattle.segment_postings.specs.Cursors.{cursor_blocks, cursor_place, docs_left, skips_left, skips_reached};
    ghost use Rattle.segment_postings.specs.Reading.{below};
    ghost use Rattle.term_scorer.specs.ScoredTerms.{MovesOn, cursor_of, scored_left};
    ghost use Rattle.term_scorer.specs.ScoredTermsLaws.{rising_scored};

    ghost entries = { scored_left };

    #[inline]
    fn advance(&mut self) -> DocId
        ensures rest { scored_left self.new ≡ drop 1 (scored_left self.old) }
        ensures at { result ≡ first (scored_left self.new) }
        ensures moved { MovesOn (cursor_place (cursor_of self.old) + 1) self.old self.new }
        ensures reached { skips_reached (cursor_blocks (cursor_of self.new))
            ≡ (if nat_lt (cursor_place (cursor_of self.old) + 1) block_len
            then skips_reached (cursor_blocks (cursor_of self.old))
            else skips_left (cursor_blocks (cursor_of self.new))) }
    {
        self.postings.advance()
    }

    #[inline]
    fn seek(&mut self, target: DocId) -> DocId
        requires ahead { first (scored_left self.old) ≤ target }
        requires small { target ≤ terminated }
        ensures rest { scored_left self.new ≡ from target (scored_left self.old) }
        ensures at { result ≡ first (scored_left self.new) }
        ensures moved { MovesOn (below target (docs_left (cursor_blocks (cursor_of self.old)))) self.old self.new }
        ensures reached { skips_reached (cursor_blocks (cursor_of self.new))
            ≡ skips_left (cursor_blocks (cursor_of self.new)) }
    {
        self.postings.seek(target)
    }

    #[inline]
    fn seek_danger(&mut self, target: DocId) -> SeekDangerResult
        requires { target < terminated }
        ensures answer { IsDangerAnswer result target (scored_left self.old) (scored_left self.new) }
        ensures moved { MovesOn
            (max (cursor_place (cursor_of self.old)) (below target (docs_left (cursor_blocks (cursor_of self.old)))))
            self.old self.new }
        ensures reached { skips_reached (cursor_blocks (cursor_of self.new))
            ≡ (if nat_lt target (first (entries_left (cursor_of self.old)))
            then skips_reached (cursor_blocks (cursor_of self.old))
            else skips_left (cursor_blocks (cursor_of self.new))) }
    {
        self.postings.seek_danger(target)
    }

    #[inline]
    fn doc(&self) -> DocId {
        self.postings.doc()
    }

    fn size_hint(&self) -> u32 {
        self.postings.size_hint()
    }

    ghost rising = { rising_scored };
}

impl<'a> Scorer for TermScorer<'a> {
    ghost use Rattle.term_scorer.specs.ScoredTerms.{cursor_of, length_ids, scored_left, similarity_of};

    #[inline]
    fn score(&mut self) -> Score
        requires { first (scored_left self.old) < terminated }
        ensures value { result ≡ pos (first_score (scored_left self.old)) }
        ensures same { scored_left self.new ≡ scored_left self.old }
        ensures kept { cursor_of self.new ≡ cursor_of self.old }
        ensures lengths { length_ids self.new ≡ length_ids self.old }
        ensures similarity { similarity_of self.new ≡ similarity_of self.old }
    {
        self.similarity.score(self.fieldnorm_id(), self.term_freq())
    }

    #[inline]
    fn window(&mut self, target: DocId) -> Window
        requires { target < terminated }
        ensures same { scored_left self.new ≡ scored_left self.old }
        ensures positive { pos 0 ≤ℤ result.bound }
        ensures ahead { target < result.until }
        ensures within { result.until ≤ terminated }
        ensures covers { Covers target result.until (natural result.bound) (scored_left self.old) }
    {
        self.seek_block(target);
        Window {
            bound: self.block_max_score(),
            until: self.last_doc_in_block().min(TERMINATED - 1) + 1,
        }
    }
}
