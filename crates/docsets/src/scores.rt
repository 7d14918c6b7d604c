//! Scores of a document by several cursors.

ghost use Rattle.std.specs.Prelude.{◌++◌, ◌+◌, ◌<◌, ◌≡◌, ◌≤◌, List, map, sum, ℕ};
ghost use Rattle.docsets.specs.Entries.{first};
ghost use Rattle.definitions.specs.Postings.{terminated};
ghost use Rattle.definitions.specs.Scoring.{max_score};
ghost use Rattle.docsets.specs.Members.{entries_at, entries_of, least, scores_in};

use crate::{ScoreCombiner, Scorer};
use common::DocId;

/// Adds the score of `scorer` to `combiner`, if its current document is `doc`.
#[inline]
pub fn take_score<S: Scorer, C: ScoreCombiner>(scorer: &mut S, doc: DocId, combiner: &mut C)
    requires leads { doc ≤ first (S.entries scorer.old) }
    requires on { doc < terminated }
    requires fits { C.total combiner.old + sum (scores_in (entries_of doc (S.entries scorer.old))) ≤ max_score }
    ensures same { S.entries scorer.new ≡ S.entries scorer.old }
    ensures total { C.total combiner.new
        ≤ C.total combiner.old + sum (scores_in (entries_of doc (S.entries scorer.old))) }
    ensures answer { (xs : List ℕ) → C.answer combiner.new xs
        ≡ C.answer combiner.old (scores_in (entries_of doc (S.entries scorer.old)) ++ xs) }
{
    if scorer.doc() == doc {
        combiner.update(scorer);
    }
}

/// Combines the scores of all cursors whose current document is `doc`.
pub fn combine_at<S: Scorer, C: ScoreCombiner>(docsets: &mut Vec<S>, doc: DocId, combiner: C) -> C
    requires leads { doc ≤ least (map S.entries docsets.old.items) }
    requires on { doc < terminated }
    requires fits { C.total combiner + sum (scores_in (entries_at doc (map S.entries docsets.old.items))) ≤ max_score }
    ensures same { map S.entries docsets.new.items ≡ map S.entries docsets.old.items }
    ensures answer { (xs : List ℕ) → C.answer result xs
        ≡ C.answer combiner (scores_in (entries_at doc (map S.entries docsets.old.items)) ++ xs) }
{
    let mut total = combiner;
    for i in 0..docsets.len() {
        take_score(&mut docsets[i], doc, &mut total);
    }
    total
}
