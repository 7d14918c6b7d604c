//! The walk over what several scorers all have that leaves out documents whose scores are known not to be above the
//! threshold.

ghost use Rattle.std.specs.Prelude.{IfNone, IfSome, [], ◌+◌, ◌<◌, ◌∷◌, ◌≡◌, ◌≤◌, length, map, min, sum, ℕ};
ghost use Rattle.definitions.specs.Postings.{terminated};
ghost use Rattle.definitions.specs.Scoring.{max_score};
ghost use Rattle.definitions.specs.Sinks.{fed};
ghost use Rattle.docsets.specs.Entries.{from};
ghost use Rattle.docsets.specs.Members.{entries_at, entries_of, greatest_sum, scores_in};
ghost use Rattle.docsets.specs.ScoredEntries.{pairs_of};
ghost use Rattle.intersections.specs.Meetings.{meeting};
ghost use Rattle.walks.specs.Meets.{met_at};
ghost use Rattle.walks.specs.Unions.{AreLater};

use crate::sink::{Sink, offer};
use crate::union_walk::{Bound, Fed, bound_before};
use common::{DocId, MAX_SCORE, Score, TERMINATED};
use docsets::{DocSet, Scorer, move_to};

/// Feeds each document that all of `scorers` have with the sum of its scores to `sink`, in order, if that is above the
/// sink's threshold by then. The scorer of the least cost leads. What is known not to be above the threshold is left
/// out: windows by the bounds of all, and of the leader's documents each whose own score beside the others' bounds
/// isn't above it, for which the others aren't asked.
pub fn block_wand_intersection<S: Scorer + Drop, K: Sink>(
    scorers: Vec<S>,
    threshold: Score,
    sink: &mut K,
)
    requires some { 0 < length scorers.items }
    requires fits { greatest_sum (map S.entries scorers.items) ≤ max_score }
    requires threshold { threshold ≡ K.limit (K.state sink.old) }
    requires room { length (meeting (map S.entries scorers.items)) ≤ K.room sink.old }
    ensures { K.state sink.new ≡ fed K.limit K.taken (K.state sink.old)
        (pairs_of (meeting (map S.entries scorers.items))) }
{
    let mut others = scorers;
    let index = least_cost(&others);
    let lead = others.remove(index);
    feed_led(lead, others, threshold, sink);
}

/// Returns the index of the scorer of the least cost.
fn least_cost<S: Scorer>(scorers: &Vec<S>) -> usize
    requires { 0 < length scorers.now.items }
    ensures { result < length scorers.now.items }
{
    let mut index = 0;
    let mut least = scorers[0].cost();
    for i in 1..scorers.len() {
        let cost = scorers[i].cost();
        if cost < least {
            index = i;
            least = cost;
        }
    }
    index
}

/// Feeds each document that `lead` and all of `others` have with the sum of its scores to `sink`, in order, if that is
/// above the sink's threshold by then.
fn feed_led<S: Scorer + Drop, K: Sink>(lead: S, others: Vec<S>, threshold: Score, sink: &mut K)
    requires fits { greatest_sum (S.entries lead ∷ map S.entries others.items) ≤ max_score }
    requires threshold { threshold ≡ K.limit (K.state sink.old) }
    requires room { length (meeting (S.entries lead ∷ map S.entries others.items)) ≤ K.room sink.old }
    ensures { K.state sink.new ≡ fed K.limit K.taken (K.state sink.old)
        (pairs_of (meeting (S.entries lead ∷ map S.entries others.items))) }
{
    let mut lead = lead;
    let mut others = others;
    let mut threshold = threshold;
    let mut target = lead.doc();
    while target < TERMINATED {
        let fed = feed_from(&mut lead, &mut others, target, threshold, sink);
        threshold = fed.threshold;
        target = fed.target;
    }
}

/// Feeds what `lead` and all of `others` have from `target` on, as far as a bound of the scores is known. If that isn't
/// above the threshold, nothing is, and `lead` is moved behind it.
fn feed_from<S: Scorer, K: Sink>(
    lead: &mut S,
    others: &mut Vec<S>,
    target: DocId,
    threshold: Score,
    sink: &mut K,
) -> Fed
    requires small { target < terminated }
    requires fits { greatest_sum (S.entries lead.old ∷ map S.entries others.old.items) ≤ max_score }
    requires threshold { threshold ≡ K.limit (K.state sink.old) }
    requires room { length (from target (meeting (S.entries lead.old ∷ map S.entries others.old.items)))
        ≤ K.room sink.old }
    ensures later { AreLater result.target (S.entries lead.old ∷ map S.entries others.old.items)
        (S.entries lead.new ∷ map S.entries others.new.items) }
    ensures fed { fed K.limit K.taken (K.state sink.new)
        (pairs_of (from result.target (meeting (S.entries lead.old ∷ map S.entries others.old.items))))
        ≡ fed K.limit K.taken (K.state sink.old)
        (pairs_of (from target (meeting (S.entries lead.old ∷ map S.entries others.old.items)))) }
    ensures next { result.threshold ≡ K.limit (K.state sink.new) }
    ensures room { length (from result.target (meeting (S.entries lead.old ∷ map S.entries others.old.items)))
        ≤ K.room sink.new }
    ensures ahead { target < result.target }
    ensures within { result.target ≤ terminated }
{
    let own = bound_before(lead, target, TERMINATED);
    let rest = bound_together(others, target, own.until);
    if (own.score + rest.score) as Score > threshold {
        return feed_window(lead, others, target, rest, threshold, sink);
    }
    Fed {
        threshold,
        target: move_to(lead, rest.until),
    }
}

/// Returns a bound of the scores that `others` give a document together, from `target` on, before `until`. They stay
/// where they are.
fn bound_together<S: Scorer>(others: &mut Vec<S>, target: DocId, until: DocId) -> Bound
    requires small { target < until }
    requires within { until ≤ terminated }
    requires fits { greatest_sum (map S.entries others.old.items) ≤ max_score }
    ensures same { map S.entries others.new.items ≡ map S.entries others.old.items }
    ensures few { result.score ≤ max_score }
    ensures ahead { target < result.until }
    ensures until { result.until ≤ until }
    ensures bound { (d : ℕ) → target ≤ d → d < result.until
        → sum (scores_in (entries_at d (map S.entries others.old.items))) ≤ result.score }
{
    let mut together = Bound { score: 0, until };
    for i in 0..others.len() {
        let bound = bound_before(&mut others[i], target, together.until);
        together = together.beside(bound);
    }
    together
}

impl Bound {
    /// Returns the bound of the scores of both together, where `other` is known.
    #[inline]
    fn beside(self, other: Bound) -> Bound
        requires few { (self.score ≤ max_score) × (other.score ≤ max_score) }
        ensures score { result.score ≡ min (self.score + other.score) max_score }
        ensures until { result.until ≡ other.until }
    {
        Bound {
            score: (self.score + other.score).min(MAX_SCORE as u64),
            until: other.until,
        }
    }
}

/// Feeds what `lead` and all of `others` have from `target` on, up to where `rest` ends, which is a bound of the
/// others' scores until there.
fn feed_window<S: Scorer, K: Sink>(
    lead: &mut S,
    others: &mut Vec<S>,
    target: DocId,
    rest: Bound,
    threshold: Score,
    sink: &mut K,
) -> Fed
    requires ahead { target < rest.until }
    requires within { rest.until ≤ terminated }
    requires few { rest.score ≤ max_score }
    requires bound { (d : ℕ) → target ≤ d → d < rest.until
        → sum (scores_in (entries_at d (map S.entries others.old.items))) ≤ rest.score }
    requires fits { greatest_sum (S.entries lead.old ∷ map S.entries others.old.items) ≤ max_score }
    requires threshold { threshold ≡ K.limit (K.state sink.old) }
    requires room { length (from target (meeting (S.entries lead.old ∷ map S.entries others.old.items)))
        ≤ K.room sink.old }
    ensures later { AreLater result.target (S.entries lead.old ∷ map S.entries others.old.items)
        (S.entries lead.new ∷ map S.entries others.new.items) }
    ensures fed { fed K.limit K.taken (K.state sink.new)
        (pairs_of (from result.target (meeting (S.entries lead.old ∷ map S.entries others.old.items))))
        ≡ fed K.limit K.taken (K.state sink.old)
        (pairs_of (from target (meeting (S.entries lead.old ∷ map S.entries others.old.items)))) }
    ensures next { result.threshold ≡ K.limit (K.state sink.new) }
    ensures room { length (from result.target (meeting (S.entries lead.old ∷ map S.entries others.old.items)))
        ≤ K.room sink.new }
    ensures ahead { target < result.target }
    ensures within { result.target ≤ terminated }
{
    let mut threshold = threshold;
    let mut doc = move_to(lead, target);
    while doc < rest.until {
        let score = lead.score() as u64;
        threshold = offer_met(others, rest.score, doc, score, threshold, sink);
        doc = lead.advance();
    }
    Fed {
        threshold,
        target: doc,
    }
}

/// Feeds `doc`, whose score by the leader is `score`, to `sink` if all of `others` have it and the sum of its scores is
/// above `threshold`, which is the sink's. Returns the next threshold. The others are asked only if `bound`, which
/// their scores together don't exceed, leaves it open.
fn offer_met<S: Scorer, K: Sink>(
    others: &mut Vec<S>,
    bound: u64,
    doc: DocId,
    score: u64,
    threshold: Score,
    sink: &mut K,
) -> Score
    requires small { doc < terminated }
    requires few { bound ≤ max_score }
    requires fits { score + sum (scores_in (entries_at doc (map S.entries others.old.items))) ≤ max_score }
    requires bound { sum (scores_in (entries_at doc (map S.entries others.old.items))) ≤ bound }
    requires threshold { threshold ≡ K.limit (K.state sink.old) }
    requires room { length (met_at doc score (map S.entries others.old.items)) ≤ K.room sink.old }
    ensures later { AreLater doc (map S.entries others.old.items) (map S.entries others.new.items) }
    ensures state { K.state sink.new ≡ fed K.limit K.taken (K.state sink.old)
        (met_at doc score (map S.entries others.old.items)) }
    ensures next { result ≡ K.limit (K.state sink.new) }
    ensures room { K.room sink.old ≤ K.room sink.new + length (met_at doc score (map S.entries others.old.items)) }
{
    if (score + bound) as Score <= threshold {
        return threshold;
    }
    match sum_met(others, doc, score) {
        Some(total) => offer(sink, threshold, doc, total as Score),
        None => threshold,
    }
}

/// Returns `score` with the scores of `doc` by `others` added, or none if one of them lacks it. Those that were asked
/// are moved there.
fn sum_met<S: Scorer>(others: &mut Vec<S>, doc: DocId, score: u64) -> Option<u64>
    requires small { doc < terminated }
    requires fits { score + sum (scores_in (entries_at doc (map S.entries others.old.items))) ≤ max_score }
    ensures later { AreLater doc (map S.entries others.old.items) (map S.entries others.new.items) }
    ensures met { IfSome result (λ total. met_at doc score (map S.entries others.old.items) ≡ (doc, total) ∷ []) }
    ensures few { IfSome result (λ total. total ≤ max_score) }
    ensures lacks { IfNone result (met_at doc score (map S.entries others.old.items) ≡ []) }
{
    let mut total = score;
    for i in 0..others.len() {
        total = add_own(&mut others[i], doc, total)?;
    }
    Some(total)
}

/// Returns `total` with the score of `doc` by `scorer` added, or none if it lacks `doc`; it is moved there.
#[inline]
fn add_own<S: Scorer>(scorer: &mut S, doc: DocId, total: u64) -> Option<u64>
    requires small { doc < terminated }
    requires fits { total + sum (scores_in (entries_of doc (S.entries scorer.old))) ≤ max_score }
    ensures moved { S.entries scorer.new ≡ from doc (S.entries scorer.old) }
    ensures has { IfSome result (λ added. (length (entries_of doc (S.entries scorer.old)) ≡ 1)
        × (added ≡ total + sum (scores_in (entries_of doc (S.entries scorer.old))))) }
    ensures lacks { IfNone result (entries_of doc (S.entries scorer.old) ≡ []) }
{
    if move_to(scorer, doc) != doc {
        return None;
    }
    Some(total + scorer.score() as u64)
}
