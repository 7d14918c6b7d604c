//! The documents where a phrase occurs, with the scores that follow from how often it does.

ghost use Rattle.std.specs.Prelude.{[], ◌<◌, ◌≡◌, ◌≤◌, IfOk, length, map};
ghost use Rattle.std.specs.List.{AllByRecursion};
ghost use Rattle.docsets.specs.Entries.{first, first_count, first_positions, from, single};
ghost use Rattle.definitions.specs.Postings.{terminated};
ghost use Rattle.definitions.specs.Scoring.{greatest_of, max_score};
ghost use Rattle.intersections.specs.Meetings.{meeting};
ghost use Rattle.docsets.specs.Members.{greatest_sum};
ghost use Rattle.phrases.specs.PhraseEntries.{HaveColumns, adjusted_terms, longest_column, phrased};
ghost use Rattle.phrases.specs.PhraseScores.{phrase_score_by};
ghost use Rattle.phrases.specs.Settled.{IsSettled};
ghost use Rattle.phrases.specs.Standings.{IsStanding};
ghost use Rattle.phrases.specs.StandingLaws.{IsStanding-prop};

use crate::adjusted_terms::{adjusted, most_of};
use crate::phrase_documents::{settle, settle_above};
use crate::phrase_threshold::PhraseThreshold;
use crate::place_finder::PlaceFinder;
use crate::postings_with_offset::PostingsWithOffset;
use crate::shared_positions::copy_all;
use codes::FieldNormReader;
use common::{DocId, Score};
use docsets::{DocSet, Postings, Scorer};
use intersections::{Intersection, Positioned};
use std::alloc::{AllocError, Global};
use term_scorer::Similarity;

/// The documents where a phrase occurs, each with its places, their number and its score.
/// Without a weight each score is 1, and the number is still reported.
#[derive(Drop)]
pub struct PhraseScorer<'a, S: Positioned> {
    intersection_docset: Intersection<S>,
    finder: PlaceFinder,
    similarity_weight_opt: Option<Similarity<'a>>,
    fieldnorm_reader: FieldNormReader<'a>,
    ghost standing: { IsStanding finder (length fieldnorm_reader) (meeting (map S.entries intersection_docset.docsets.items)) } by { IsStanding-prop finder (length fieldnorm_reader) (meeting (map S.entries intersection_docset.docsets.items)) },
}

impl<'a, P: Postings + Drop> PhraseScorer<'a, PostingsWithOffset<P>> {
    /// Returns the documents where the phrase of `term_postings` occurs. Each term, at least two, has its offset, at
    /// most 2^30, in the order of the offsets. Each document has a length id. Without a weight each score is 1.
    pub fn new(
        alloc: Global,
        term_postings: Vec<(usize, P)>,
        similarity_weight_opt: Option<Similarity<'a>>,
        fieldnorm_reader: FieldNormReader<'a>,
        slop: u32,
    ) -> Result<PhraseScorer<'a, PostingsWithOffset<P>>, AllocError>
        requires several { 2 ≤ length term_postings.items }
        requires offsets { greatest_of (map (λ t. t.0) term_postings.items) ≤ 1073741824 }
        requires covered { AllByRecursion (λ t. from (length fieldnorm_reader) (P.entries t.1) ≡ [])
            term_postings.items }
        ensures { IfOk result (λ scorer. ⟦<PhraseScorer<'a, PostingsWithOffset<P>> as DocSet>⟧.entries scorer
            ≡ phrased (phrase_score_by similarity_weight_opt.entry fieldnorm_reader.entry) slop
            (adjusted_terms (map (λ t. (t.0, P.entries t.1)) term_postings.items))) }
    {
        let docsets = adjusted(alloc, term_postings)?;
        PhraseScorer::over(
            alloc,
            docsets,
            similarity_weight_opt,
            fieldnorm_reader,
            slop,
        )
    }
}

impl<'a, S: Positioned + Drop> PhraseScorer<'a, S> {
    /// Like `new`, but over cursors whose positions are adjusted already.
    pub fn over(
        alloc: Global,
        docsets: Vec<S>,
        similarity_weight_opt: Option<Similarity<'a>>,
        fieldnorm_reader: FieldNormReader<'a>,
        slop: u32,
    ) -> Result<PhraseScorer<'a, S>, AllocError>
        requires several { 2 ≤ length docsets.items }
        requires fits { greatest_sum (map S.entries docsets.items) ≤ max_score }
        requires covered { AllByRecursion (λ s. from (length fieldnorm_reader) (S.entries s) ≡ []) docsets.items }
        ensures { IfOk result (λ scorer. ⟦<PhraseScorer<'a, S> as DocSet>⟧.entries scorer
            ≡ phrased (phrase_score_by similarity_weight_opt.entry fieldnorm_reader.entry) slop
            (meeting (map S.entries docsets.items))) }
    {
        let room = most_of(&docsets);
        let mut intersection_docset = Intersection::new(docsets);
        let mut finder = PlaceFinder::new(alloc, slop, room)?;
        settle(&mut intersection_docset, &mut finder);
        Ok(PhraseScorer {
            intersection_docset,
            finder,
            similarity_weight_opt,
            fieldnorm_reader,
        })
    }
}

impl<'a, S: Positioned> PhraseScorer<'a, S> {
    /// Returns how often the phrase occurs in the current document.
    #[inline]
    pub fn phrase_count(&self) -> u32
        requires { first (⟦<PhraseScorer<'a, S> as DocSet>⟧.entries self.now) < terminated }
        ensures { result ≡ first_count (⟦<PhraseScorer<'a, S> as DocSet>⟧.entries self.now) }
    {
        self.finder.places.len() as u32
    }
}

impl<'a, S: Positioned> DocSet for PhraseScorer<'a, S> {
    ghost use Rattle.std.specs.Prelude.{map};
    ghost use Rattle.intersections.specs.Meetings.{meeting};
    ghost use Rattle.phrases.specs.PhraseEntries.{phrased};
    ghost use Rattle.phrases.specs.PhraseEntryLaws.{Rising-phrased};
    ghost use Rattle.phrases.specs.PhraseScores.{phrase_score_by};
    ghost use Rattle.phrases.specs.PhraseScoreLaws.{phrase_score-below};

    ghost entries = { λ s. phrased (phrase_score_by s.similarity_weight_opt s.fieldnorm_reader) s.finder.slop (meeting (map S.entries s.intersection_docset.docsets.items)) };

    fn advance(&mut self) -> DocId {
        self.intersection_docset.advance();
        settle(&mut self.intersection_docset, &mut self.finder)
    }

    fn seek(&mut self, target: DocId) -> DocId {
        self.intersection_docset.seek(target);
        settle(&mut self.intersection_docset, &mut self.finder)
    }

    #[inline]
    fn doc(&self) -> DocId {
        self.intersection_docset.doc()
    }

    fn size_hint(&self) -> u32 {
        self.intersection_docset.size_hint()
    }

    fn cost(&self) -> u64 {
        self.intersection_docset.cost()
    }

    ghost rising = { λ s. Rising-phrased (phrase_score_by s.similarity_weight_opt s.fieldnorm_reader) s.finder.slop 0 (meeting (map S.entries s.intersection_docset.docsets.items)) (phrase_score-below s.similarity_weight_opt s.fieldnorm_reader) (s.intersection_docset.meets.rises) };
}

impl<'a, S: Positioned> Scorer for PhraseScorer<'a, S> {
    fn score(&mut self) -> Score {
        match self.similarity_weight_opt {
            Some(similarity) => {
                let fieldnorm_id = self.fieldnorm_reader.fieldnorm_id(self.doc());
                similarity.score(fieldnorm_id, self.phrase_count())
            }
            None => 1,
        }
    }

    /// Leaves out documents whose terms' counts tell that the score isn't above `threshold`: the leading term is moved
    /// alone, and no position of them is read.
    fn advance_above(&mut self, threshold: Score) -> DocId {
        let limit = PhraseThreshold {
            similarity_weight_opt: self.similarity_weight_opt,
            fieldnorm_reader: &self.fieldnorm_reader,
            slop: self.finder.slop,
            limit: threshold,
        };
        settle_above(&mut self.intersection_docset, &mut self.finder, &limit)
    }
}

impl<'a, S: Positioned> Positioned for PhraseScorer<'a, S> {
    ghost use Rattle.std.specs.Prelude.{map};
    ghost use Rattle.intersections.specs.Meetings.{meeting};
    ghost use Rattle.phrases.specs.PhraseScores.{phrase_score_by};
    ghost use Rattle.phrases.specs.PlacesLaws.{one_column-phrased};

    fn positions(&mut self, output: &mut Vec<u32>) {
        copy_all(&self.finder.places, output);
    }

    fn most_positions(&self) -> usize {
        self.finder.places.capacity()
    }

    ghost one_column = { λ s. one_column-phrased (phrase_score_by s.similarity_weight_opt s.fieldnorm_reader) s.finder.slop (meeting (map S.entries s.intersection_docset.docsets.items)) s.standing.columns };
}
