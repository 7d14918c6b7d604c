//! Walks of scorers into sinks.

ghost use Rattle.std.specs.Prelude.{[], ◌≡◌, ◌≤◌};
ghost use Rattle.definitions.specs.Sinks as sinks;
ghost use Rattle.docsets.specs.Entries.{from};
ghost use Rattle.docsets.specs.ScoredEntries.{pairs_of};
ghost use Rattle.walks.specs.Feeding.{IsFedBelow};

use common::{DocId, Score};
use docsets::Scorer;
use query_scorers::SegmentScorers;
use walks::{Sink, for_each_pruning_scorer};

/// Feeds each document of `scorer` with its score to `sink`, in order, if the score is above the sink's threshold by
/// then. All documents are below `max_doc`.
pub(crate) fn feed<S: Scorer + Drop, K: Sink>(
    scorer: S,
    max_doc: DocId,
    threshold: Score,
    sink: &mut K,
)
    requires within { from max_doc (S.entries scorer) ≡ [] }
    requires threshold { threshold ≡ K.limit (K.state sink.old) }
    requires room { max_doc ≤ K.room sink.old }
    ensures fed { K.state sink.new ≡ sinks.fed K.limit K.taken (K.state sink.old) (pairs_of (S.entries scorer)) }
    ensures listed { IsFedBelow K.limit K.taken (K.state sink.old) max_doc (K.state sink.new) }
{
    let mut scorer = scorer;
    for_each_pruning_scorer(&mut scorer, threshold, sink);
}

/// Like `feed`, of a scorer whose kind is looked at once, and not for each document.
pub(crate) fn feed_by_kind<F: SegmentScorers, K: Sink>(
    scorer: F::Scorer,
    max_doc: DocId,
    threshold: Score,
    sink: &mut K,
)
    requires within { from max_doc (F.Scorer.entries scorer) ≡ [] }
    requires threshold { threshold ≡ K.limit (K.state sink.old) }
    requires room { max_doc ≤ K.room sink.old }
    ensures fed { K.state sink.new
        ≡ sinks.fed K.limit K.taken (K.state sink.old) (pairs_of (F.Scorer.entries scorer)) }
    ensures listed { IsFedBelow K.limit K.taken (K.state sink.old) max_doc (K.state sink.new) }
{
    F::feed(scorer, threshold, sink);
}
