//! Byte layouts of postings and lengths: blocks and lists of numbers, positions, the lengths of fields, and skip entries.
#![tactic(auto)]

mod bit_packer;
mod bit_unpacker;
mod block_decoder;
mod block_encoder;
pub mod block_laws;
mod block_size;
mod blocks_by_bits;
mod checked_blocks;
mod delta_offset;
mod delta_sums;
mod field_ranks;
mod fieldnorm_code;
mod fieldnorm_reader;
mod fieldnorm_readers;
mod fieldnorms_serializer;
mod fieldnorms_writer;
pub mod layout_laws;
pub mod position_laws;
mod position_reader;
mod position_serializer;
pub mod skip_laws;
mod skip_reader;
mod skip_serializer;
mod vint;

pub use block_decoder::BlockDecoder;
pub use block_encoder::BlockEncoder;
pub use block_size::{COMPRESSION_BLOCK_SIZE, compressed_block_size};
pub use blocks_by_bits::numbers_by_bits;
pub use fieldnorm_code::{
    FIELD_NORMS_TABLE, fieldnorm_to_id, id_to_fieldnorm, the_table_has_the_lengths_of_all_ids,
};
pub use fieldnorm_reader::FieldNormReader;
pub use fieldnorm_readers::FieldNormReaders;
pub use fieldnorms_serializer::FieldNormsSerializer;
pub use fieldnorms_writer::FieldNormsWriter;
pub use position_reader::PositionReader;
pub use position_serializer::PositionSerializer;
pub use skip_reader::{BlockInfo, Recorded, SkipReader};
pub use skip_serializer::SkipSerializer;
pub use vint::{VIntDecoder, VIntEncoder, take_u32_vint};
