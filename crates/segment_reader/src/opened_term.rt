//! The postings of a term, opened.

ghost use Rattle.std.specs.Prelude.{◌&&◌, ◌≡◌, List, if◌then◌else◌, map, ℕ};
ghost use Rattle.definitions.specs.Postings.{Posting};
ghost use Rattle.definitions.specs.Schema.{has_freq, has_positions};
ghost use Rattle.segment_reader.specs.OpenedTerms.{HasTerm, entries_of_postings, entry_as, positions_asked};
ghost use Rattle.options.specs.RecordOption.{record_option_of};
ghost use Rattle.segment_postings.specs.BoundedBlocks.{AreBounded};
ghost use Rattle.segment_postings.specs.Cursors.{blocks_decoded, counts_left, cursor_blocks, cursor_blocks_decoded, cursor_doc_freq, cursor_place, cursor_positions, doc_freq_of, docs_left, entries_left, skips_left, skips_reached};

use codes::PositionReader;
use options::IndexRecordOption;
use segment_postings::{BlockSegmentPostings, SegmentPostings, recorded_of};

/// Whether counts are read: if they are recorded, and asked for.
fn reads_counts(option: IndexRecordOption, asked: IndexRecordOption) -> bool
    ensures { result ≡ (has_freq (record_option_of option) && has_freq (record_option_of asked)) }
{
    option.has_freq() && asked.has_freq()
}

/// Whether positions are read: if they are recorded, and asked for.
fn reads_positions(option: IndexRecordOption, asked: IndexRecordOption) -> bool
    ensures { result ≡ (has_positions (record_option_of option) && has_positions (record_option_of asked)) }
{
    option.has_positions() && asked.has_positions()
}

/// Opens the postings of a term, which are known to be in their layout, with as much as is asked for.
pub(crate) fn open_term<'a>(
    postings: &'a [u8],
    positions: &'a [u8],
    doc_freq: u32,
    option: IndexRecordOption,
    asked: IndexRecordOption,
) -> SegmentPostings<'a>
    requires { ∥ ((ps : List Posting) × HasTerm (record_option_of option) doc_freq postings.now positions.now ps) ∥₁ }
    ensures entries { (ps : List Posting) → HasTerm (record_option_of option) doc_freq postings.now positions.now ps
        → entries_left result ≡ map (entry_as (record_option_of asked)) ps }
    ensures decoded { cursor_blocks_decoded result ≡ 1 }
    ensures doc_freq { cursor_doc_freq result ≡ doc_freq }
    ensures skips { (ps : List Posting)
        (known : HasTerm (record_option_of option) doc_freq postings.now positions.now ps)
        → skips_left (cursor_blocks result) ≡ entries_of_postings (record_option_of option) known.ids ps }
    ensures bounded { (ps : List Posting)
        (known : HasTerm (record_option_of option) doc_freq postings.now positions.now ps)
        → AreBounded known.ids (skips_left (cursor_blocks result)) (docs_left (cursor_blocks result))
        (counts_left (cursor_blocks result)) }
    ensures place { cursor_place result ≡ 0 }
    ensures reached { skips_reached (cursor_blocks result) ≡ skips_left (cursor_blocks result) }
    ensures positions { (ps : List Posting) → HasTerm (record_option_of option) doc_freq postings.now positions.now ps
        → cursor_positions result ≡ positions_asked (record_option_of asked) ps }
{
    let recorded = recorded_of(option);
    if reads_positions(option, asked) {
        let reader = PositionReader::new(positions);
        return SegmentPostings::with_positions(postings, doc_freq, recorded, reader);
    }
    SegmentPostings::new(postings, doc_freq, recorded, reads_counts(option, asked))
}

/// Like `open_term`, but block by block, and without positions.
pub(crate) fn open_term_blocks<'a>(
    postings: &'a [u8],
    doc_freq: u32,
    option: IndexRecordOption,
    asked: IndexRecordOption,
) -> BlockSegmentPostings<'a>
    requires { ∥ ((ps : List Posting) × (positions : List ℕ)
        × HasTerm (record_option_of option) doc_freq postings.now positions ps) ∥₁ }
    ensures docs { (ps : List Posting) (positions : List ℕ)
        → HasTerm (record_option_of option) doc_freq postings.now positions ps
        → docs_left result ≡ map (λ p. p.doc) ps }
    ensures counts { (ps : List Posting) (positions : List ℕ)
        → HasTerm (record_option_of option) doc_freq postings.now positions ps
        → counts_left result ≡ map (λ p. if has_freq (record_option_of asked) then p.count else 1) ps }
    ensures decoded { blocks_decoded result ≡ 1 }
    ensures doc_freq { doc_freq_of result ≡ doc_freq }
    ensures skips { (ps : List Posting) (positions : List ℕ)
        (known : HasTerm (record_option_of option) doc_freq postings.now positions ps)
        → skips_left result ≡ entries_of_postings (record_option_of option) known.ids ps }
{
    let recorded = recorded_of(option);
    let reads_counts = reads_counts(option, asked);
    BlockSegmentPostings::new(postings, doc_freq, recorded, reads_counts, false)
}
