//! The walk over a union of scorers that leaves out documents whose scores are known not to be above the threshold.

ghost use Rattle.std.specs.Prelude.{IfNone, IfSome, IsPermutation, IsTrue, [], ◌+◌, ◌<◌, ◌∷◌, ◌≡◌, ◌≤ℤ◌, ◌≤◌, ◌⊎◌, drop, false, int_lt, length, map, min, pos, sum, take, ℕ};
ghost use Rattle.definitions.specs.Postings.{terminated};
ghost use Rattle.definitions.specs.Scoring.{max_score};
ghost use Rattle.definitions.specs.Sinks.{fed};
ghost use Rattle.docsets.specs.Bounds.{Covers};
ghost use Rattle.docsets.specs.Entries.{first, from};
ghost use Rattle.docsets.specs.Members.{entries_at, entries_of, greatest_sum, least, scores_in};
ghost use Rattle.docsets.specs.ScoredEntries.{pairs_of};
ghost use Rattle.walks.specs.Unions.{AreLater, bound_of, moved_from, union};

use crate::sink::{Sink, offer};
use common::{DocId, MAX_SCORE, Score, TERMINATED};
use docsets::{DocSet, Scorer, move_to};

/// How many scorers are brought to the front at the most. A query seldom has more; of one that has thousands, the time to
/// look at all for each of them would grow faster than their number.
const BROUGHT: usize = 16;

/// How many bounds are kept of the first scorers, one of the first, one of the first two, and so on.
const BOUNDS: usize = 16;

/// The first of several scorers, which are left where they are as long as no document of theirs alone can be above the
/// threshold.
#[derive(Clone, Copy)]
struct Free {
    /// How many they are.
    count: usize,
    /// No document has a greater score by them.
    bound: u64,
    /// No document has a greater score by the first one, by the first two, and so on; the last is true of more too.
    bounds: [u64; BOUNDS],
    /// The first document for which that isn't said.
    until: DocId,
}

/// No score of some scorers is above `score`, before document `until`.
#[derive(Clone, Copy)]
pub(crate) struct Bound {
    pub(crate) score: u64,
    pub(crate) until: DocId,
}

impl Free {
    /// Whether no document of the free ones alone can be above `threshold`.
    #[inline]
    fn is_low(&self, threshold: Score) -> bool
        requires { self.now.bound ≤ max_score }
        ensures { IsTrue result → 0 < self.now.count → pos self.now.bound ≤ℤ threshold }
    {
        self.count == 0 || is_at_most(self.bound, threshold)
    }

    /// Takes in one more scorer, beside which the free ones have this bound.
    #[inline]
    fn add(&mut self, bound: u64)
        requires small { self.old.count < 18446744073709551615 }
        ensures count { self.new.count ≡ self.old.count + 1 }
        ensures bound { self.new.bound ≡ bound }
        ensures own { bound_of self.new.bounds self.old.count ≡ bound }
        ensures others { (n : ℕ) → (bound_of self.new.bounds n ≡ bound_of self.old.bounds n)
            ⊎ (bound_of self.new.bounds n ≡ bound) }
        ensures until { self.new.until ≡ self.old.until }
    {
        self.bounds[self.count.min(BOUNDS - 1)] = bound;
        self.count += 1;
        self.bound = bound;
    }

    /// Returns the bound of scorer number `i` and those before it.
    #[inline]
    fn bound_at(&self, i: usize) -> u64
        ensures { result ≡ bound_of self.now.bounds i }
    {
        self.bounds[i.min(BOUNDS - 1)]
    }
}

/// Whether `score` isn't above `threshold`.
#[inline]
fn is_at_most(score: u64, threshold: Score) -> bool
    requires { score < 9223372036854775808 }
    ensures { IsTrue result → pos score ≤ℤ threshold }
{
    score as Score <= threshold
}

/// How far a walk came.
#[derive(Clone, Copy)]
pub(crate) struct Fed {
    /// The sink's threshold.
    pub(crate) threshold: Score,
    /// The document from which on all is left to feed.
    pub(crate) target: DocId,
}

/// The score of a document by some scorers, and the least of their documents behind it.
#[derive(Clone, Copy)]
struct Taken {
    score: u64,
    next: DocId,
}

/// Feeds each document of the union of `scorers` with the sum of its scores to `sink`, in order, if that is above the
/// sink's threshold by then. What is known not to be above it is left out: block by block, and of the first scorers,
/// whose bounds together aren't above it, what the others don't have. The order of `scorers` doesn't matter: those with the
/// most documents for their bounds are brought to the front.
pub fn block_wand<S: Scorer + Drop, K: Sink>(scorers: Vec<S>, threshold: Score, sink: &mut K)
    requires fits { greatest_sum (map S.entries scorers.items) ≤ max_score }
    requires threshold { threshold ≡ K.limit (K.state sink.old) }
    requires room { length (union (map S.entries scorers.items)) ≤ K.room sink.old }
    ensures { K.state sink.new ≡ fed K.limit K.taken (K.state sink.old)
        (pairs_of (union (map S.entries scorers.items))) }
{
    let mut scorers = scorers;
    bring_frequent_first(&mut scorers);
    let mut threshold = threshold;
    let mut target = 0;
    while target < TERMINATED {
        let free = free_from(&mut scorers, target, threshold);
        let fed = feed_window(&mut scorers, target, &free, threshold, sink);
        threshold = fed.threshold;
        target = fed.target;
    }
}

/// Brings the scorers with the most documents for their bounds to the front, in that order: left free, they leave the most
/// out.
fn bring_frequent_first<S: Scorer>(scorers: &mut Vec<S>)
    ensures { IsPermutation (map S.entries scorers.old.items) (map S.entries scorers.new.items) }
{
    for i in 0..scorers.len().min(BROUGHT) {
        let index = most_frequent(scorers, i);
        scorers.swap(i, index);
    }
}

/// Returns the index of the scorer with the most documents for its bound, from number `first` on.
fn most_frequent<S: Scorer>(scorers: &mut Vec<S>, first: usize) -> usize
    requires { first < length scorers.old.items }
    ensures same { map S.entries scorers.new.items ≡ map S.entries scorers.old.items }
    ensures within { result < length scorers.new.items }
{
    let mut index = first;
    let mut most = 0;
    for i in first..scorers.len() {
        let documents = documents_for_bound(&mut scorers[i]);
        if documents > most {
            index = i;
            most = documents;
        }
    }
    index
}

/// Returns about how many documents `scorer` has for each 2^31st of the bound of its first ones.
fn documents_for_bound<S: Scorer>(scorer: &mut S) -> u64
    ensures { S.entries scorer.new ≡ S.entries scorer.old }
{
    let bound = bound_before(scorer, 0, TERMINATED);
    scorer.cost().saturating_mul(1 << 31) / bound.score.max(1)
}

/// Returns as many of the first scorers as have a bound together, from `target` on, that isn't above `threshold`. One
/// whose current document is behind the window has none in it. Scorers behind the first that isn't free aren't asked.
fn free_from<S: Scorer>(scorers: &mut Vec<S>, target: DocId, threshold: Score) -> Free
    requires small { target < terminated }
    requires fits { greatest_sum (map S.entries scorers.old.items) ≤ max_score }
    ensures same { map S.entries scorers.new.items ≡ map S.entries scorers.old.items }
    ensures ahead { target < result.until }
    ensures within { result.until ≤ terminated }
    ensures count { result.count ≤ length scorers.old.items }
    ensures few { result.bound ≤ max_score }
    ensures most { (n : ℕ) → n < result.count → bound_of result.bounds n ≤ result.bound }
    ensures bound { (d : ℕ) → target ≤ d → d < result.until
        → sum (scores_in (entries_at d (take result.count (map S.entries scorers.old.items)))) ≤ result.bound }
    ensures bounds { (n d : ℕ) → n < result.count → target ≤ d → d < result.until
        → sum (scores_in (entries_at d (take (n + 1) (map S.entries scorers.old.items)))) ≤ bound_of result.bounds n }
    ensures low { 0 < result.count → pos result.bound ≤ℤ threshold }
{
    let mut free = Free {
        count: 0,
        bound: 0,
        bounds: [0; BOUNDS],
        until: TERMINATED,
    };
    for i in 0..scorers.len() {
        let next = bound_before(&mut scorers[i], target, free.until);
        let bound = (free.bound + next.score).min(MAX_SCORE as u64);
        free.until = next.until;
        if !is_at_most(bound, threshold) {
            return free;
        }
        free.add(bound);
    }
    free
}

/// Returns the bound of `scorer` from `target` on, before `until`; it is 0 if the current document isn't before `until`.
pub(crate) fn bound_before<S: Scorer>(scorer: &mut S, target: DocId, until: DocId) -> Bound
    requires small { target < until }
    requires within { until ≤ terminated }
    ensures same { S.entries scorer.new ≡ S.entries scorer.old }
    ensures few { result.score ≤ max_score }
    ensures ahead { target < result.until }
    ensures until { result.until ≤ until }
    ensures covers { Covers target result.until result.score (S.entries scorer.old) }
{
    if scorer.doc() >= until {
        return Bound { score: 0, until };
    }
    let window = scorer.window(target);
    Bound {
        score: (window.bound as u64).min(MAX_SCORE as u64),
        until: window.until.min(until),
    }
}

/// Feeds the documents from `target` on and before the free scorers' bound ends, of which each that isn't left out has a
/// scorer that isn't free.
fn feed_window<S: Scorer, K: Sink>(
    scorers: &mut Vec<S>,
    target: DocId,
    free: &Free,
    threshold: Score,
    sink: &mut K,
) -> Fed
    requires count { free.now.count ≤ length scorers.old.items }
    requires few { free.now.bound ≤ max_score }
    requires ahead { target < free.now.until }
    requires within { free.now.until ≤ terminated }
    requires bound { (d : ℕ) → target ≤ d → d < free.now.until
        → sum (scores_in (entries_at d (take free.now.count (map S.entries scorers.old.items)))) ≤ free.now.bound }
    requires most { (n : ℕ) → n < free.now.count → bound_of free.now.bounds n ≤ free.now.bound }
    requires bounds { (n d : ℕ) → n < free.now.count → target ≤ d → d < free.now.until
        → sum (scores_in (entries_at d (take (n + 1) (map S.entries scorers.old.items)))) ≤ bound_of free.now.bounds n }
    requires low { 0 < free.now.count → pos free.now.bound ≤ℤ threshold }
    requires fits { greatest_sum (map S.entries scorers.old.items) ≤ max_score }
    requires threshold { threshold ≡ K.limit (K.state sink.old) }
    requires room { length (from target (union (map S.entries scorers.old.items))) ≤ K.room sink.old }
    ensures later { AreLater result.target (map S.entries scorers.old.items) (map S.entries scorers.new.items) }
    ensures fed { fed K.limit K.taken (K.state sink.new)
        (pairs_of (from result.target (union (map S.entries scorers.new.items))))
        ≡ fed K.limit K.taken (K.state sink.old)
        (pairs_of (from target (union (map S.entries scorers.old.items)))) }
    ensures next { result.threshold ≡ K.limit (K.state sink.new) }
    ensures room { length (from result.target (union (map S.entries scorers.new.items))) ≤ K.room sink.new }
    ensures ahead { target < result.target }
    ensures within { result.target ≤ terminated }
{
    let mut threshold = threshold;
    let mut doc = move_from(scorers, free.count, target);
    while doc < free.until {
        let taken = take_from(scorers, free.count, doc);
        threshold = offer_with(scorers, free, doc, taken.score, threshold, sink);
        if !free.is_low(threshold) {
            return Fed {
                threshold,
                target: doc + 1,
            };
        }
        doc = taken.next;
    }
    Fed {
        threshold,
        target: free.until,
    }
}

/// Moves the scorers from number `first` on to their first document >= `target`; returns the least of these.
fn move_from<S: Scorer>(scorers: &mut Vec<S>, first: usize, target: DocId) -> DocId
    requires small { target ≤ terminated }
    requires within { first ≤ length scorers.old.items }
    ensures moved { map S.entries scorers.new.items ≡ moved_from first target (map S.entries scorers.old.items) }
    ensures least { result ≡ least (drop first (map S.entries scorers.new.items)) }
{
    let mut doc = TERMINATED;
    for i in first..scorers.len() {
        doc = doc.min(move_to(&mut scorers[i], target));
    }
    doc
}

/// Adds up the scores of `doc` by the scorers from number `first` on, none of which is behind it, and moves them on;
/// returns the least of their documents then too.
fn take_from<S: Scorer>(scorers: &mut Vec<S>, first: usize, doc: DocId) -> Taken
    requires small { doc < terminated }
    requires within { first ≤ length scorers.old.items }
    requires leads { doc ≤ least (drop first (map S.entries scorers.old.items)) }
    requires fits { sum (scores_in (entries_at doc (drop first (map S.entries scorers.old.items)))) ≤ max_score }
    ensures moved { map S.entries scorers.new.items ≡ moved_from first (doc + 1) (map S.entries scorers.old.items) }
    ensures score { result.score ≡ sum (scores_in (entries_at doc (drop first (map S.entries scorers.old.items)))) }
    ensures next { result.next ≡ least (drop first (map S.entries scorers.new.items)) }
{
    let mut taken = Taken {
        score: 0,
        next: TERMINATED,
    };
    for i in first..scorers.len() {
        taken = take_one(&mut scorers[i], doc, taken);
    }
    taken
}

/// Adds the score of `scorer` to those of `doc` and moves it on, if it is on `doc`, and takes note of its document then.
#[inline]
fn take_one<S: Scorer>(scorer: &mut S, doc: DocId, taken: Taken) -> Taken
    requires small { doc < terminated }
    requires leads { doc ≤ first (S.entries scorer.old) }
    requires fits { taken.score + sum (scores_in (entries_of doc (S.entries scorer.old))) ≤ max_score }
    ensures moved { S.entries scorer.new ≡ from (doc + 1) (S.entries scorer.old) }
    ensures score { result.score ≡ taken.score + sum (scores_in (entries_of doc (S.entries scorer.old))) }
    ensures next { result.next ≡ min taken.next (first (S.entries scorer.new)) }
{
    let current = scorer.doc();
    if current != doc {
        return Taken {
            score: taken.score,
            next: taken.next.min(current),
        };
    }
    let score = taken.score + scorer.score() as u64;
    Taken {
        score,
        next: taken.next.min(scorer.advance()),
    }
}

/// Feeds `doc`, whose score by the scorers that aren't free is `score`, to `sink` if the sum of its scores is above
/// `threshold`, which is the sink's. Returns the next threshold. The free scorers are asked only as long as their bounds
/// leave it open.
fn offer_with<S: Scorer, K: Sink>(
    scorers: &mut Vec<S>,
    free: &Free,
    doc: DocId,
    score: u64,
    threshold: Score,
    sink: &mut K,
) -> Score
    requires small { doc < terminated }
    requires count { free.now.count ≤ length scorers.old.items }
    requires few { (n : ℕ) → n < free.now.count → bound_of free.now.bounds n ≤ max_score }
    requires fits { score + sum (scores_in (entries_at doc (take free.now.count (map S.entries scorers.old.items))))
        ≤ max_score }
    requires bounds { (n : ℕ) → n < free.now.count
        → sum (scores_in (entries_at doc (take (n + 1) (map S.entries scorers.old.items))))
        ≤ bound_of free.now.bounds n }
    requires threshold { threshold ≡ K.limit (K.state sink.old) }
    requires room { 1 ≤ K.room sink.old }
    ensures later { AreLater doc (map S.entries scorers.old.items) (map S.entries scorers.new.items) }
    ensures rest { drop free.now.count (map S.entries scorers.new.items)
        ≡ drop free.now.count (map S.entries scorers.old.items) }
    ensures state { K.state sink.new ≡ fed K.limit K.taken (K.state sink.old)
        ((doc, score + sum (scores_in (entries_at doc (take free.now.count (map S.entries scorers.old.items))))) ∷ []) }
    ensures next { result ≡ K.limit (K.state sink.new) }
    ensures room { K.room sink.old ≤ K.room sink.new + 1 }
{
    match sum_above(scorers, free, doc, score, threshold) {
        Some(total) => offer(sink, threshold, doc, total as Score),
        None => threshold,
    }
}

/// Returns `score` with the scores of `doc` by the free scorers added, or none if that isn't above `threshold`. Each is
/// moved there, from the last of them on, unless the bound of those that are left shows before that the sum isn't above.
fn sum_above<S: Scorer>(
    scorers: &mut Vec<S>,
    free: &Free,
    doc: DocId,
    score: u64,
    threshold: Score,
) -> Option<u64>
    requires small { doc < terminated }
    requires count { free.now.count ≤ length scorers.old.items }
    requires few { (n : ℕ) → n < free.now.count → bound_of free.now.bounds n ≤ max_score }
    requires fits { score + sum (scores_in (entries_at doc (take free.now.count (map S.entries scorers.old.items))))
        ≤ max_score }
    requires bounds { (n : ℕ) → n < free.now.count
        → sum (scores_in (entries_at doc (take (n + 1) (map S.entries scorers.old.items))))
        ≤ bound_of free.now.bounds n }
    ensures later { AreLater doc (map S.entries scorers.old.items) (map S.entries scorers.new.items) }
    ensures rest { drop free.now.count (map S.entries scorers.new.items)
        ≡ drop free.now.count (map S.entries scorers.old.items) }
    ensures sum { IfSome result (λ total. total
        ≡ score + sum (scores_in (entries_at doc (take free.now.count (map S.entries scorers.old.items))))) }
    ensures low { IfNone result (int_lt threshold (pos (score
        + sum (scores_in (entries_at doc (take free.now.count (map S.entries scorers.old.items)))))) ≡ false) }
{
    let mut total = score;
    for i in 0..free.count {
        let last = free.count - i - 1;
        if is_at_most(total + free.bound_at(last), threshold) {
            return None;
        }
        total = add_score(&mut scorers[last], doc, total);
    }
    Some(total)
}

/// Adds the score of `doc` by `scorer`, which is moved there, to `total`.
#[inline]
fn add_score<S: Scorer>(scorer: &mut S, doc: DocId, total: u64) -> u64
    requires small { doc < terminated }
    requires fits { total + sum (scores_in (entries_of doc (S.entries scorer.old))) ≤ max_score }
    ensures moved { S.entries scorer.new ≡ from doc (S.entries scorer.old) }
    ensures sum { result ≡ total + sum (scores_in (entries_of doc (S.entries scorer.old))) }
{
    if move_to(scorer, doc) == doc {
        return total + scorer.score() as u64;
    }
    total
}
