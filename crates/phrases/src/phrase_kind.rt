//! A phrase of one whole term, or of several.

ghost use Rattle.phrases.specs.declared.phrase_kind.PhraseKind.TheVariants.{MultiPrefix, SinglePrefix};

use common::{DocId, Score};
use docsets::{DocSet, Scorer, SeekDangerResult};
use intersections::Positioned;

/// The whole terms before a prefix: one term, or a phrase of several.
#[derive(Drop)]
pub enum PhraseKind<O, S> {
    SinglePrefix(O),
    MultiPrefix(S),
}

impl<O: DocSet, S: DocSet> DocSet for PhraseKind<O, S> {
    ghost entries = { elim [ SinglePrefix one ↦ O.entries one | MultiPrefix several ↦ S.entries several ] };

    #[inline]
    fn advance(&mut self) -> DocId {
        match self {
            PhraseKind::SinglePrefix(one) => one.advance(),
            PhraseKind::MultiPrefix(several) => several.advance(),
        }
    }

    #[inline]
    fn seek(&mut self, target: DocId) -> DocId {
        match self {
            PhraseKind::SinglePrefix(one) => one.seek(target),
            PhraseKind::MultiPrefix(several) => several.seek(target),
        }
    }

    fn seek_danger(&mut self, target: DocId) -> SeekDangerResult {
        match self {
            PhraseKind::SinglePrefix(one) => one.seek_danger(target),
            PhraseKind::MultiPrefix(several) => several.seek_danger(target),
        }
    }

    #[inline]
    fn doc(&self) -> DocId {
        match self {
            PhraseKind::SinglePrefix(one) => one.doc(),
            PhraseKind::MultiPrefix(several) => several.doc(),
        }
    }

    fn size_hint(&self) -> u32 {
        match self {
            PhraseKind::SinglePrefix(one) => one.size_hint(),
            PhraseKind::MultiPrefix(several) => several.size_hint(),
        }
    }

    fn cost(&self) -> u64 {
        match self {
            PhraseKind::SinglePrefix(one) => one.cost(),
            PhraseKind::MultiPrefix(several) => several.cost(),
        }
    }

    ghost rising = { elim [ SinglePrefix one ↦ O.rising one | MultiPrefix several ↦ S.rising several ] };
}

impl<O: Scorer, S: Scorer> Scorer for PhraseKind<O, S> {
    fn score(&mut self) -> Score {
        match self {
            PhraseKind::SinglePrefix(one) => one.score(),
            PhraseKind::MultiPrefix(several) => several.score(),
        }
    }
}

impl<O: Positioned, S: Positioned> Positioned for PhraseKind<O, S> {
    fn positions(&mut self, output: &mut Vec<u32>) {
        match self {
            PhraseKind::SinglePrefix(one) => one.positions(output),
            PhraseKind::MultiPrefix(several) => several.positions(output),
        }
    }

    fn most_positions(&self) -> usize {
        match self {
            PhraseKind::SinglePrefix(one) => one.most_positions(),
            PhraseKind::MultiPrefix(several) => several.most_positions(),
        }
    }

    ghost one_column = { elim [ SinglePrefix one ↦ O.one_column one | MultiPrefix several ↦ S.one_column several ] };
}
