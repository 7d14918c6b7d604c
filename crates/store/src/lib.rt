//! Documents in blocks, with a skip index and a footer.
#![tactic(auto)]

mod block;
mod block_cache;
pub mod cache_laws;
mod cache_stats;
mod checkpoint_block;
mod current_block;
mod documents;
mod footer;
mod groups;
mod pending_documents;
mod skip_index;
mod skip_index_builder;
pub mod slot_laws;
mod stacked_blocks;
mod store_iter;
mod store_reader;
mod store_writer;
mod writer_fields;

pub use bytes::Bytes;
pub use cache_stats::CacheStats;
pub use checkpoint_block::CheckpointBlock;
pub use footer::{DocStoreFooter, DocStoreVersion};
pub use layouts::Checkpoint;
pub use skip_index::SkipIndex;
pub use skip_index_builder::SkipIndexBuilder;
pub use store_iter::StoreIter;
pub use store_reader::StoreReader;
pub use store_writer::StoreWriter;
