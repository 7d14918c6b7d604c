//! Walks of scorers of any kind, each kind by a walk of its own.

ghost use Rattle.std.specs.Prelude.{◌≡◌, ◌≤◌, length};
ghost use Rattle.definitions.specs.Sinks.{fed};
ghost use Rattle.docsets.specs.ScoredEntries.{pairs_of};

use any_scorer::{AnyScorer, Leaf};
use common::Score;
use docsets::{DocSet, ListScorer, Scorer};
use walks::{Sink, for_each_pruning_scorer};

/// Feeds each document of `scorer` with its score to `sink`, in order, if the score is above the sink's threshold by
/// then. Each kind of scorer has a walk of its own, so that the kind is looked at once and not for each document.
pub(crate) fn feed_any<
    A: Scorer + Drop,
    T: Scorer + Drop,
    P: Scorer + Drop,
    X: Scorer + Drop,
    K: Sink,
>(scorer: AnyScorer<A, T, P, X>, threshold: Score, sink: &mut K)
    requires threshold { threshold ≡ K.limit (K.state sink.old) }
    requires room { length (⟦<AnyScorer<A, T, P, X> as DocSet>⟧.entries scorer) ≤ K.room sink.old }
    ensures { K.state sink.new ≡ fed K.limit K.taken (K.state sink.old)
        (pairs_of (⟦<AnyScorer<A, T, P, X> as DocSet>⟧.entries scorer)) }
{
    match scorer {
        AnyScorer::Leaf(scorer) => feed_leaf(scorer, threshold, sink),
        AnyScorer::ConstAll(scorer) => feed(scorer, threshold, sink),
        AnyScorer::ConstTerm(scorer) => feed(scorer, threshold, sink),
        AnyScorer::ConstPhrase(scorer) => feed(scorer, threshold, sink),
        AnyScorer::ConstPhrasePrefix(scorer) => feed(scorer, threshold, sink),
    }
}

/// Like `feed_any`, but of a scorer of a query that holds no other, or of a list.
fn feed_leaf<A: Scorer + Drop, T: Scorer + Drop, P: Scorer + Drop, X: Scorer + Drop, K: Sink>(
    scorer: Leaf<A, T, P, X, ListScorer>,
    threshold: Score,
    sink: &mut K,
)
    requires threshold { threshold ≡ K.limit (K.state sink.old) }
    requires room { length (⟦<Leaf<A, T, P, X, ListScorer> as DocSet>⟧.entries scorer) ≤ K.room sink.old }
    ensures { K.state sink.new ≡ fed K.limit K.taken (K.state sink.old)
        (pairs_of (⟦<Leaf<A, T, P, X, ListScorer> as DocSet>⟧.entries scorer)) }
{
    match scorer {
        Leaf::All(scorer) => feed(scorer, threshold, sink),
        Leaf::Term(scorer) => feed(scorer, threshold, sink),
        Leaf::Phrase(scorer) => feed(scorer, threshold, sink),
        Leaf::PhrasePrefix(scorer) => feed(scorer, threshold, sink),
        Leaf::List(scorer) => feed(scorer, threshold, sink),
    }
}

/// Like `feed_any`, but of a scorer of one kind.
fn feed<S: Scorer + Drop, K: Sink>(scorer: S, threshold: Score, sink: &mut K)
    requires threshold { threshold ≡ K.limit (K.state sink.old) }
    requires room { length (S.entries scorer) ≤ K.room sink.old }
    ensures { K.state sink.new ≡ fed K.limit K.taken (K.state sink.old) (pairs_of (S.entries scorer)) }
{
    let mut scorer = scorer;
    for_each_pruning_scorer(&mut scorer, threshold, sink);
}
