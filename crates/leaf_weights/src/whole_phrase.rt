//! The whole terms before a prefix: one term, or a phrase of several.

ghost use Rattle.std.specs.Prelude.{[], ◌*◌, ◌≡◌, ◌≤ℤ◌, ◌≤◌, IfNone, IfOk, IfSome, List, length, map, pos};
ghost use Rattle.std.specs.List.{AllByRecursion};
ghost use Rattle.docsets.specs.Entries.{from, most_positions};
ghost use Rattle.definitions.specs.Analyzers.{Analyzer};
ghost use Rattle.definitions.specs.Phrases.{by_offset, phrase_count};
ghost use Rattle.definitions.specs.Schema.{Schema};
ghost use Rattle.definitions.specs.Scoring.{DontFall, greatest_of, max_score, natural, weight_sum};
ghost use Rattle.definitions.specs.Scoring as scoring;
ghost use Rattle.definitions.specs.Values.{Document};
ghost use Rattle.docsets.specs.ScoredEntries.{greatest_score};
ghost use Rattle.leaf_weights.specs.PlacedAnswers.{whole_answers, whole_weight};
ghost use Rattle.segment_reader.specs.SegmentReaders.{StandsFor, max_doc_of};

use crate::phrase_weight::PhraseWeight;
use crate::read_terms::read_term;
use common::Score;
use docsets::DocSet;
use phrases::{OneTermPhrase, PhraseKind, PhraseScorer, PostingsWithOffset};
use segment_postings::SegmentPostings;
use segment_reader::SegmentReader;
use std::alloc::{AllocError, Global};
use terms::Term;

/// One whole term, or a phrase of several.
pub type WholePhrase<'a> = PhraseKind<
    OneTermPhrase<SegmentPostings<'a>>,
    PhraseScorer<'a, PostingsWithOffset<SegmentPostings<'a>>>,
>;

/// Returns the documents where the whole `terms` occur, with their scores before a prefix; `None` if one is in no
/// document.
pub(crate) fn whole_phrase<'a>(
    alloc: Global,
    reader: &SegmentReader<'a>,
    terms: &[(usize, Term)],
    weight: u64,
    norms: &'a [u32],
    boost: Score,
) -> Result<Option<WholePhrase<'a>>, AllocError>
    requires some { 1 ≤ length terms.now }
    requires sorted { by_offset terms.now ≡ terms.now }
    requires near { greatest_of (map (λ t. t.0) terms.now) ≤ 1073741824 }
    requires small { weight ≤ max_score }
    requires norm_for_each { length norms.now ≡ 256 }
    requires rises { DontFall norms.now }
    requires positive { pos 0 ≤ℤ boost }
    requires fits { natural boost * whole_weight terms.now weight ≤ max_score }
    ensures places { (schema : Schema) (analyze : Analyzer) (sim : scoring.Similarity) (docs : List Document)
        → StandsFor schema analyze docs reader.now
        → weight_sum sim.weight terms.now ≡ weight
        → sim.norms ≡ norms.now
        → IfOk result (λ found. IfSome found (λ phrase. ⟦<WholePhrase<'a> as DocSet>⟧.entries phrase
        ≡ whole_answers schema analyze sim (natural boost) terms.now docs)) }
    ensures none { (schema : Schema) (analyze : Analyzer) (docs : List Document)
        → StandsFor schema analyze docs reader.now
        → IfOk result (λ found. IfNone found
        (AllByRecursion (λ doc. phrase_count schema analyze terms.now 0 doc ≡ 0) docs)) }
    ensures within { IfOk result (λ found. IfSome found (λ phrase.
        from (max_doc_of reader.now) (⟦<WholePhrase<'a> as DocSet>⟧.entries phrase) ≡ [])) }
    ensures bounded { IfOk result (λ found. IfSome found (λ phrase.
        greatest_score (⟦<WholePhrase<'a> as DocSet>⟧.entries phrase)
        ≤ natural boost * whole_weight terms.now weight)) }
    ensures few_places { IfOk result (λ found. IfSome found (λ phrase.
        most_positions (⟦<WholePhrase<'a> as DocSet>⟧.entries phrase) ≤ 4294967295)) }
{
    if terms.len() == 1 {
        let Some(postings) = read_term(reader, &terms[0].1) else {
            return Ok(None);
        };
        let one = OneTermPhrase::new(alloc, postings, boost)?;
        return Ok(Some(PhraseKind::SinglePrefix(one)));
    }
    let phrase = PhraseWeight::new(terms, 0, weight, norms);
    let Some(several) = phrase.phrase_scorer(alloc, reader, boost)? else {
        return Ok(None);
    };
    Ok(Some(PhraseKind::MultiPrefix(several)))
}
