//! The score of one document, explained.

ghost use Rattle.std.specs.Prelude.{◌<◌, ◌≡◌, ◌≢◌, IfErr, IfOk, List, None, OnErr, OnOk, Some, option_map, pos, ℕ};
ghost use Rattle.docsets.specs.Entries.{first, first_score, from};
ghost use Rattle.definitions.specs.Analyzers.{Analyzer};
ghost use Rattle.definitions.specs.Postings.{terminated};
ghost use Rattle.definitions.specs.Query.{Query};
ghost use Rattle.definitions.specs.Refusing.{tree_fault};
ghost use Rattle.definitions.specs.Schema.{Schema};
ghost use Rattle.definitions.specs.Scoring as scoring;
ghost use Rattle.definitions.specs.Values.{Document};
ghost use Rattle.definitions.specs.declared.fault.Fault.TheVariants as faults;
ghost use Rattle.query_scorers.specs.Scores.{Scores};
ghost use Rattle.scorer_answers.specs.Earned.{score_at};
ghost use Rattle.segment_reader.specs.SegmentReaders.{StandsFor};
ghost use Rattle.segment_reader.specs.declared.segment_reader.SegmentReader.{SegmentReader};
ghost use Rattle.term_scorer.specs.Explaining.{explained_value};

use common::{DocId, TERMINATED};
use definitions::Fault;
use docsets::{DocSet, Scorer, SeekDangerResult};
use std::alloc::Global;
use term_scorer::Explanation;

/// Moves `docset` to `doc`; `InvalidArgument` if `doc` doesn't match.
pub fn seek_match<D: DocSet>(docset: &mut D, doc: DocId) -> Result<(), Fault>
    ensures ok { (schema : Schema) (analyze : Analyzer) (sim : scoring.Similarity) (b : ℕ) (q : Query)
        (docs : List Document) (r : SegmentReader)
        → StandsFor schema analyze docs r
        → tree_fault schema sim.weight b q ≡ None
        → Scores sim b q r (D.entries docset.old)
        → OnOk result (score_at schema analyze sim b q docs doc ≡ Some (first_score (D.entries docset.new))) }
    ensures at { OnOk result (first (D.entries docset.new) ≡ doc) }
    ensures on { OnOk result (doc < terminated) }
    ensures rest { OnOk result (D.entries docset.new ≡ from doc (D.entries docset.old)) }
    ensures err { (schema : Schema) (analyze : Analyzer) (sim : scoring.Similarity) (b : ℕ) (q : Query)
        (docs : List Document) (r : SegmentReader)
        → StandsFor schema analyze docs r
        → tree_fault schema sim.weight b q ≡ None
        → Scores sim b q r (D.entries docset.old)
        → OnErr result (score_at schema analyze sim b q docs doc ≡ None) }
    ensures fault { IfErr result (λ fault. fault ≡ faults.InvalidArgument) }
{
    if doc >= TERMINATED {
        return Err(Fault::InvalidArgument);
    }
    match docset.seek_danger(doc) {
        SeekDangerResult::Found => Ok(()),
        SeekDangerResult::SeekLowerBound(_) => Err(Fault::InvalidArgument),
    }
}

/// Explains the score of `doc`, with `description`; `InvalidArgument` if `doc` doesn't match.
pub fn explain<S: Scorer + Drop>(
    alloc: Global,
    scorer: S,
    doc: DocId,
    description: &str,
) -> Result<Explanation, Fault>
    ensures ok { (schema : Schema) (analyze : Analyzer) (sim : scoring.Similarity) (b : ℕ) (q : Query)
        (docs : List Document) (r : SegmentReader)
        → StandsFor schema analyze docs r
        → tree_fault schema sim.weight b q ≡ None
        → Scores sim b q r (S.entries scorer)
        → IfOk result (λ explanation. option_map pos (score_at schema analyze sim b q docs doc)
        ≡ Some (explained_value explanation)) }
    ensures err { (schema : Schema) (analyze : Analyzer) (sim : scoring.Similarity) (b : ℕ) (q : Query)
        (docs : List Document) (r : SegmentReader)
        → StandsFor schema analyze docs r
        → tree_fault schema sim.weight b q ≡ None
        → Scores sim b q r (S.entries scorer)
        → IfErr result (λ fault. fault ≢ faults.OutOfMemory → score_at schema analyze sim b q docs doc ≡ None) }
    ensures fault { IfErr result (λ fault. fault ≢ faults.OutOfMemory → fault ≡ faults.InvalidArgument) }
{
    let mut scorer = scorer;
    seek_match(&mut scorer, doc)?;
    Ok(Explanation::new(alloc, description, scorer.score())?)
}
