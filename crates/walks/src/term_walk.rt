//! The walk over one term that leaves out blocks with no document above the threshold.

ghost use Rattle.std.specs.Prelude.{[], ◌+◌, ◌/◌, ◌<◌, ◌∷◌, ◌≡◌, ◌≤◌, drop, length, min};
ghost use Rattle.definitions.specs.Blocks.{block_len};
ghost use Rattle.definitions.specs.Postings.{terminated};
ghost use Rattle.definitions.specs.Sinks.{fed, later_blocks_above};
ghost use Rattle.docsets.specs.Entries.{first, first_score, from};
ghost use Rattle.docsets.specs.ScoredEntries.{pairs_of};
ghost use Rattle.walks.specs.BlocksLeft.{StandsInBlock, blocks_decoded_by, blocks_left, docs_held, skips_found, skips_held, up_to};
ghost use Rattle.segment_postings.specs.Reading.{below};
ghost use Rattle.codes.specs.SkipBlocks.{last_doc};
ghost use Rattle.term_scorer.specs.BlockScores.{until_of};
ghost use Rattle.term_scorer.specs.ScoredTerms.{scored_left};

use crate::sink::{Sink, offer};
use common::{DocId, Score, TERMINATED};
use docsets::DocSet;
use term_scorer::TermScorer;

/// Feeds each document of `scorer` with its score to `sink`, in order, if the score is above the sink's threshold by
/// then. A block is decoded only if its bound is above the threshold; the cursor stays on the last document that it
/// reached, as the move after a block's last document would decode the next.
pub fn block_wand_single_scorer<K: Sink>(
    scorer: &mut TermScorer<'_>,
    threshold: Score,
    sink: &mut K,
)
    requires threshold { threshold ≡ K.limit (K.state sink.old) }
    requires room { length (scored_left scorer.old) ≤ K.room sink.old }
    ensures state { K.state sink.new ≡ fed K.limit K.taken (K.state sink.old) (pairs_of (scored_left scorer.old)) }
    ensures counted { blocks_decoded_by scorer.new ≡ blocks_decoded_by scorer.old
        + later_blocks_above K.limit K.taken (K.state sink.old) (blocks_left scorer.old) }
{
    let mut threshold = threshold;
    let mut target = scorer.doc();
    while target < TERMINATED {
        scorer.seek_block(target);
        let until = next_doc(scorer.last_doc_in_block());
        if scorer.block_max_score() > threshold {
            threshold = feed_block(scorer, target, until, threshold, sink);
        }
        target = until;
    }
}

/// Returns the document after `last`, at most `TERMINATED`.
fn next_doc(last: DocId) -> DocId
    ensures { result ≡ min terminated (last + 1) }
{
    if last < TERMINATED {
        return last + 1;
    }
    TERMINATED
}

/// Feeds the documents from `target` on and before `until`, which ends their block, to `sink`. Returns the next
/// threshold.
fn feed_block<K: Sink>(
    scorer: &mut TermScorer<'_>,
    target: DocId,
    until: DocId,
    threshold: Score,
    sink: &mut K,
) -> Score
    requires threshold { threshold ≡ K.limit (K.state sink.old) }
    requires room { length (from target (scored_left scorer.old)) ≤ K.room sink.old }
    requires small { target < terminated }
    requires reached { skips_found scorer.old
        ≡ drop (below target (docs_held scorer.old) / block_len) (skips_held scorer.old) }
    requires ahead { target ≤ last_doc (skips_found scorer.old) }
    requires ends { until ≡ until_of (skips_found scorer.old) }
    ensures state { K.state sink.new
        ≡ fed K.limit K.taken (K.state sink.old) (pairs_of (up_to until (from target (scored_left scorer.old)))) }
    ensures next { result ≡ K.limit (K.state sink.new) }
    ensures room { length (from until (scored_left scorer.new)) ≤ K.room sink.new }
    ensures left { from until (scored_left scorer.new) ≡ from until (scored_left scorer.old) }
    ensures block { StandsInBlock target scorer.old scorer.new }
{
    let mut threshold = threshold;
    let mut doc = scorer.doc();
    if doc < target {
        doc = scorer.seek(target);
    }
    while doc + 1 < until {
        threshold = offer_current(scorer, doc, threshold, sink);
        doc = scorer.advance();
    }
    if doc + 1 == until {
        return offer_current(scorer, doc, threshold, sink);
    }
    threshold
}

/// Feeds `doc`, the current document of `scorer`, to `sink` if its score is above `threshold`, which is the sink's.
/// Returns the next threshold.
#[inline(always)]
fn offer_current<K: Sink>(
    scorer: &TermScorer<'_>,
    doc: DocId,
    threshold: Score,
    sink: &mut K,
) -> Score
    requires current { doc ≡ first (scored_left scorer.now) }
    requires small { doc < terminated }
    requires threshold { threshold ≡ K.limit (K.state sink.old) }
    requires room { 1 ≤ K.room sink.old }
    ensures state { K.state sink.new ≡ fed K.limit K.taken (K.state sink.old)
        ((doc, first_score (scored_left scorer.now)) ∷ []) }
    ensures next { result ≡ K.limit (K.state sink.new) }
    ensures room { K.room sink.old ≤ K.room sink.new + 1 }
{
    match scorer.score_above(threshold) {
        Some(score) => offer(sink, threshold, doc, score),
        None => threshold,
    }
}
