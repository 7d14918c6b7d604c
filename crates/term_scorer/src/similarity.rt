//! The similarity of a term: what its scores follow from, beside counts and lengths.

ghost use Rattle.std.specs.Prelude.{◌*◌, ◌<◌, ◌^◌, ◌≡◌, ◌≤ℤ◌, ◌≤◌, IfOk, int_lt, length, pos};
ghost use Rattle.definitions.specs.Scoring.{DontFall, max_score, natural};
ghost use Rattle.docsets.proofs.EntryLaws.{DontFall-prop};
ghost use Rattle.term_scorer.specs.Explaining.{explained_value};
ghost use Rattle.term_scorer.specs.TermScores.{score_by};

use crate::explanation::Explanation;
use crate::part_of_weight::{part_is_above, part_of_weight};
use common::Score;
use std::alloc::{AllocError, Global};

/// The description of a term's score.
const TERM_DESCRIPTION: &str =
    "TermQuery, boost * (weight * freq / (freq + norm)), rounded down before the boost";

/// The weight of a term, the product of the boosts above it, and a norm for each length id.
#[derive(Clone, Copy)]
pub struct Similarity<'a> {
    weight: u64,
    boost: u64,
    norms: &'a [u32],
    ghost fits: { boost * weight ≤ max_score },
    ghost signed: { (weight < 2 ^ 63) × (boost < 2 ^ 63) },
    ghost norm_for_each: { length norms.now ≡ 256 },
    ghost rises: { DontFall norms.now } by { DontFall-prop norms.now },
}

impl<'a> Similarity<'a> {
    ghost use Rattle.term_scorer.specs.Similarities.{similarity_data};

    /// Returns the similarity of `weight` and `boost`, whose product is at most `MAX_SCORE`, and 256 `norms`, which
    /// don't fall.
    pub fn new(weight: Score, boost: Score, norms: &'a [u32]) -> Similarity<'a>
        requires weight { pos 0 ≤ℤ weight }
        requires boost { pos 0 ≤ℤ boost }
        requires fits { natural boost * natural weight ≤ max_score }
        requires norm_for_each { length norms.now ≡ 256 }
        requires rises { DontFall norms.now }
        ensures { similarity_data result
            ≡ record { weight = natural weight; boost = natural boost; norms = norms.now } }
    {
        Similarity {
            weight: weight as u64,
            boost: boost as u64,
            norms,
        }
    }

    /// Returns the score of a count of `term_freq` in a document of length id `fieldnorm_id`.
    #[inline]
    pub fn score(&self, fieldnorm_id: u8, term_freq: u32) -> Score
        ensures { result ≡ pos (score_by (similarity_data self.now) fieldnorm_id term_freq) }
    {
        let norm = self.norms[fieldnorm_id as usize];
        (self.boost * part_of_weight(self.weight, term_freq, norm)) as i64
    }

    /// Whether the score of a count of `term_freq` in a document of length id `fieldnorm_id` is above `threshold`. Where
    /// nothing is boosted, the products are compared, and nothing is divided.
    #[inline(always)]
    pub(crate) fn exceeds(&self, fieldnorm_id: u8, term_freq: u32, threshold: Score) -> bool
        ensures { result ≡ int_lt threshold (pos (score_by (similarity_data self.now) fieldnorm_id term_freq)) }
    {
        if threshold < 0 {
            return true;
        }
        if self.boost != 1 {
            return self.score(fieldnorm_id, term_freq) > threshold;
        }
        let norm = self.norms[fieldnorm_id as usize];
        part_is_above(self.weight, term_freq, norm, threshold as u64)
    }

    /// Returns the boost times the weight: no score is above it.
    pub(crate) fn max_score(&self) -> Score
        ensures { result ≡ pos ((similarity_data self.now).boost * (similarity_data self.now).weight) }
    {
        (self.boost * self.weight) as i64
    }

    /// Explains the score of a count of `term_freq` in a document of length id `fieldnorm_id`.
    pub(crate) fn explain(
        &self,
        alloc: Global,
        fieldnorm_id: u8,
        term_freq: u32,
    ) -> Result<Explanation, AllocError>
        ensures { IfOk result (λ explanation. explained_value explanation
            ≡ pos (score_by (similarity_data self.now) fieldnorm_id term_freq)) }
    {
        let score = self.score(fieldnorm_id, term_freq);
        let factors = [
            ("boost", self.boost as i64),
            ("weight", self.weight as i64),
            (
                "freq, occurrences of the term in the document",
                i64::from(term_freq),
            ),
            (
                "norm of the document's length",
                i64::from(self.norms[fieldnorm_id as usize]),
            ),
        ];
        let mut explanation = Explanation::new(alloc, TERM_DESCRIPTION, score)?;
        explanation.add_consts(alloc, &factors)?;
        Ok(explanation)
    }
}
