//! Sinks of documents whose scores are above a threshold.

ghost use Rattle.std.specs.Prelude.{[], ◌+◌, ◌∷◌, ◌≡◌, ◌≤ℤ◌, ◌≤◌, length, pos};
ghost use Rattle.definitions.specs.Postings.{terminated};
ghost use Rattle.definitions.specs.Scoring.{natural};
ghost use Rattle.definitions.specs.Sinks.{fed};
ghost use Rattle.docsets.specs.Entries.{first, from};
ghost use Rattle.docsets.specs.ScoredEntries.{pairs_of};

use common::{DocId, Score, TERMINATED};
use docsets::{DocSet, Scorer, move_to};

/// A sink of documents whose scores are above its threshold, which may rise as it takes them.
pub trait Sink {
    ghost use Rattle.std.specs.Prelude.{ℕ, ℤ};

    /// The state of a sink. No value of it is made.
    type State;

    // The state of the sink.
    ghost state: { Self → Self.State };

    // Scores up to this one aren't taken.
    ghost limit: { Self.State → ℤ };

    // The state after one more document and its score.
    ghost taken: { Self.State → ℕ × ℕ → Self.State };

    // How many documents it can take without an allocation.
    ghost room: { Self → ℕ };

    /// Returns the score that a document has to exceed.
    fn threshold(&self) -> Score
        ensures { result ≡ limit (state self.now) };

    /// Takes `doc` with its `score`, and returns the next threshold.
    fn collect(&mut self, doc: DocId, score: Score) -> Score
        requires room { 1 ≤ room self.old }
        requires positive { pos 0 ≤ℤ score }
        ensures state { state self.new ≡ taken (state self.old) (doc, natural score) }
        ensures next { result ≡ limit (state self.new) }
        ensures room { room self.old ≤ room self.new + 1 };
}

/// Feeds `doc` to `sink` if `score` is above `threshold`, which is the sink's. Returns the next threshold.
#[inline]
pub fn offer<K: Sink>(sink: &mut K, threshold: Score, doc: DocId, score: Score) -> Score
    requires threshold { threshold ≡ K.limit (K.state sink.old) }
    requires room { 1 ≤ K.room sink.old }
    requires positive { pos 0 ≤ℤ score }
    ensures state { K.state sink.new ≡ fed K.limit K.taken (K.state sink.old) ((doc, natural score) ∷ []) }
    ensures next { result ≡ K.limit (K.state sink.new) }
    ensures room { K.room sink.old ≤ K.room sink.new + 1 }
{
    if score > threshold {
        return sink.collect(doc, score);
    }
    threshold
}

/// Feeds each document of `scorer` with its score to `sink`, in order, if the score is above the sink's threshold by
/// then. A window whose bound isn't above the threshold is left out.
pub fn for_each_pruning_scorer<S: Scorer, K: Sink>(scorer: &mut S, threshold: Score, sink: &mut K)
    requires threshold { threshold ≡ K.limit (K.state sink.old) }
    requires room { length (S.entries scorer.old) ≤ K.room sink.old }
    ensures state { K.state sink.new ≡ fed K.limit K.taken (K.state sink.old) (pairs_of (S.entries scorer.old)) }
{
    let mut threshold = threshold;
    let mut target = scorer.doc();
    while target < TERMINATED {
        let window = scorer.window(target);
        if window.bound > threshold {
            threshold = feed_up_to(scorer, target, window.until, threshold, sink);
        }
        target = window.until;
    }
}

/// Feeds the documents of `scorer` from `target` on and before `until`. Returns the next threshold.
fn feed_up_to<S: Scorer, K: Sink>(
    scorer: &mut S,
    target: DocId,
    until: DocId,
    threshold: Score,
    sink: &mut K,
) -> Score
    requires threshold { threshold ≡ K.limit (K.state sink.old) }
    requires room { length (from target (S.entries scorer.old)) ≤ K.room sink.old }
    requires small { target ≤ terminated }
    requires within { until ≤ terminated }
    ensures fed { fed K.limit K.taken (K.state sink.new) (pairs_of (S.entries scorer.new))
        ≡ fed K.limit K.taken (K.state sink.old) (pairs_of (from target (S.entries scorer.old))) }
    ensures next { result ≡ K.limit (K.state sink.new) }
    ensures room { length (S.entries scorer.new) ≤ K.room sink.new }
    ensures behind { until ≤ first (S.entries scorer.new) }
{
    let mut threshold = threshold;
    let mut doc = move_to(scorer, target);
    while doc < until {
        let score = scorer.score();
        threshold = offer(sink, threshold, doc, score);
        doc = scorer.advance_above(threshold);
    }
    threshold
}
