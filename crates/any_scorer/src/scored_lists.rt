//! Scorers that are walked whole.

ghost use Rattle.std.specs.Prelude.{[], ◌≡◌, IfOk};
ghost use Rattle.scorers.specs.Signed.{signed};
ghost use Rattle.docsets.specs.ScoredEntries.{AreScores, pairs_of};

use common::{DocId, Score, TERMINATED};
use docsets::{DocSet, ListScorer, Scorer};
use std::alloc::{AllocError, Global};

/// Lists the remaining documents, each with its score. The scorer is then exhausted.
pub fn for_each_scorer<S: Scorer>(
    alloc: Global,
    scorer: &mut S,
) -> Result<Vec<(DocId, Score)>, AllocError>
    ensures pairs { IfOk result (λ pairs. pairs.items ≡ signed (S.entries scorer.old)) }
    ensures scores { IfOk result (λ pairs. AreScores 0 pairs.items) }
    ensures done { IfOk result (λ pairs. S.entries scorer.new ≡ []) }
{
    let mut pairs = Vec::new(alloc);
    let mut doc = scorer.doc();
    while doc != TERMINATED {
        pairs.push((doc, scorer.score()))?;
        doc = scorer.advance();
    }
    Ok(pairs)
}

/// Lists the documents of `scorer`, with their scores.
pub fn listed<S: Scorer + Drop>(alloc: Global, scorer: S) -> Result<ListScorer, AllocError>
    ensures { IfOk result (λ list. pairs_of (⟦<ListScorer as DocSet>⟧.entries list) ≡ pairs_of (S.entries scorer)) }
{
    let mut scorer = scorer;
    let pairs = for_each_scorer(alloc, &mut scorer)?;
    Ok(ListScorer::new(pairs))
}
