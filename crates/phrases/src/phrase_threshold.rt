//! A threshold of the scores that documents earn by a phrase.

ghost use Rattle.std.specs.Prelude.{◌<◌, ◌≡◌, ◌≤ℤ◌, ◌≤◌, length, pos, slice_index, true, ℕ};
ghost use Rattle.phrases.specs.PhraseScores.{phrase_score_by};
ghost use Rattle.term_scorer.specs.Similarities.{similarity_data};
ghost use Rattle.term_scorer.specs.TermScores.{score_by};

use codes::FieldNormReader;
use common::{DocId, Score};
use intersections::ColumnThreshold;
use term_scorer::Similarity;

/// A threshold of the scores that documents earn by a phrase with a slop.
#[derive(Drop)]
pub(crate) struct PhraseThreshold<'b, 'a> {
    pub(crate) similarity_weight_opt: Option<Similarity<'a>>,
    pub(crate) fieldnorm_reader: &'b FieldNormReader<'a>,
    pub(crate) slop: u32,
    pub(crate) limit: Score,
}

impl<'b, 'a> PhraseThreshold<'b, 'a> {
    /// Whether `doc` is known to earn a low score by at most `most` places.
    #[inline]
    fn earns_low(&self, doc: DocId, most: usize) -> bool
        ensures { result ≡ true → (count : ℕ) → count ≤ most
            → pos (phrase_score_by self.now.similarity_weight_opt self.now.fieldnorm_reader.now doc count)
            ≤ℤ self.now.limit }
    {
        match self.similarity_weight_opt {
            Some(similarity) => self.earns_low_by(similarity, doc, most),
            None => 1 <= self.limit,
        }
    }

    /// Like `earns_low`, where `similarity` gives the score. A document without a length isn't known to earn a low one.
    #[inline]
    fn earns_low_by(&self, similarity: Similarity<'a>, doc: DocId, most: usize) -> bool
        ensures { result ≡ true → (count : ℕ) → count ≤ most
            → pos (score_by (similarity_data similarity.entry) (slice_index self.now.fieldnorm_reader.now doc) count)
            ≤ℤ self.now.limit }
    {
        if doc >= self.fieldnorm_reader.num_docs() {
            return false;
        }
        if most > u32::MAX as usize {
            return false;
        }
        let fieldnorm_id = self.fieldnorm_reader.fieldnorm_id(doc);
        let score = similarity.score(fieldnorm_id, most as u32);
        if score > self.limit {
            return false;
        }
        true
    }

    /// Whether a column has a position at each place: the last has, and without a slop each has.
    #[inline]
    fn has_places(&self, is_last: bool) -> bool
        ensures { result ≡ true → 0 < self.now.slop → is_last ≡ true }
    {
        if self.slop > 0 {
            return is_last;
        }
        true
    }
}

impl<'b, 'a> ColumnThreshold for PhraseThreshold<'b, 'a> {
    ghost use Rattle.std.specs.Prelude.{length};
    ghost use Rattle.phrases.specs.PhraseScores.{phrase_score_by};
    ghost use Rattle.phrases.specs.Places.{places_of};

    ghost score = { λ s doc columns. phrase_score_by s.similarity_weight_opt s.fieldnorm_reader.now doc (length (places_of s.slop columns)) };

    ghost limit = { λ s. s.limit };

    #[inline]
    fn is_low(&self, doc: DocId, is_last: bool, most: usize) -> bool {
        if !self.has_places(is_last) {
            return false;
        }
        self.earns_low(doc, most)
    }
}
