//! The skip entry of a full block.

ghost use Rattle.std.specs.Prelude.{◌<◌, length};
ghost use Rattle.segment_postings.specs.Blocks.{IsFirst, entry_of};

use codes::{BlockInfo, SkipReader};

/// The last document of a block, the widths of its documents and counts, the sum of its counts, and its bound.
#[derive(Clone, Copy)]
pub(crate) struct Entry {
    pub(crate) last_doc: u32,
    pub(crate) doc_width: u8,
    pub(crate) count_width: u8,
    pub(crate) count_sum: u32,
    pub(crate) least_id: u8,
    pub(crate) greatest_count: u8,
}

/// Returns the entry of the full block that `skips` is at.
pub(crate) fn first_entry(skips: &SkipReader) -> Entry
    requires { 0 < length skips.now.left }
    ensures { IsFirst (entry_of result) skips.now.left }
{
    match skips.block_info() {
        BlockInfo::BitPacked {
            doc_num_bits,
            tf_num_bits,
            tf_sum,
            block_wand_fieldnorm_id,
            block_wand_term_freq,
        } => Entry {
            last_doc: skips.last_doc_in_block(),
            doc_width: doc_num_bits,
            count_width: tf_num_bits,
            count_sum: tf_sum,
            least_id: block_wand_fieldnorm_id,
            greatest_count: block_wand_term_freq,
        },
        BlockInfo::VInt { .. } => unreachable!(),
    }
}
