//! The check of a term: its postings, and its positions if they are recorded.

ghost use Rattle.std.specs.Prelude.{IfErr, IfOk, IfSome, List, None, ℕ, ◌≡◌, ◌≤◌, length, sum_by};
ghost use Rattle.codes.specs.UnpackedBlocks.{listed};
ghost use Rattle.segment_postings.specs.Placed.{term_of};
ghost use Rattle.definitions.specs.Postings.{Posting, terminated};
ghost use Rattle.definitions.specs.declared.fault.Fault.TheVariants as faults;
ghost use Rattle.layouts.specs.InvertedIndexes.{IsTerm};
ghost use Rattle.options.specs.RecordOption.{record_option_of};

use crate::positions_check::check_positions;
use crate::postings_check::checked_postings;
use codes::FieldNormReader;
use definitions::Fault;
use options::IndexRecordOption;

/// Checks the postings and positions of a term that `doc_freq` documents of a segment have, and returns the sum of its
/// counts; each document counts 1 if no counts are recorded. `Damaged` for other bytes.
///
/// Copies no more than a block at a time, and allocates nothing.
pub fn check_term(
    postings: &[u8],
    positions: &[u8],
    doc_freq: u32,
    option: IndexRecordOption,
    fieldnorm_reader: &Option<FieldNormReader>,
    num_docs: u32,
) -> Result<u64, Fault>
    requires kept { IfSome fieldnorm_reader.now (λ ids. length ids ≡ num_docs) }
    requires few { num_docs ≤ terminated }
    ensures ok { IfOk result (λ total. (ps : List Posting) × (length ps ≡ doc_freq)
        × IsTerm (record_option_of option) num_docs (listed fieldnorm_reader.now)
        (term_of ps postings.now positions.now) × (total ≡ sum_by (λ p. p.count) ps)) }
    ensures err { IfErr result (λ fault. (fault ≡ faults.Damaged None)
        × ((ps : List Posting) → length ps ≡ doc_freq
        → IsTerm (record_option_of option) num_docs (listed fieldnorm_reader.now)
        (term_of ps postings.now positions.now) → ⊥)) }
{
    if doc_freq == 0 {
        return Err(Fault::Damaged(None));
    }
    let total = checked_postings(postings, doc_freq, option, fieldnorm_reader, num_docs)?;
    if option.has_positions() {
        check_positions(postings, positions, doc_freq, total)?;
        return Ok(total);
    }
    if !positions.is_empty() {
        return Err(Fault::Damaged(None));
    }
    Ok(total)
}
