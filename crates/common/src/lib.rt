//! What every layer speaks of: numbers of documents, scores, refusals, tokens, analyzers, number codes
//! and devices.
#![tactic(auto)]

mod alive_bit_set;
pub mod alive_set_laws;
mod analyzer;
mod bit_set;
mod bit_words;
mod device;
mod file_device;
mod fuse_device;
mod has_len;
mod memory_device;
mod number;
pub mod number_code_laws;
mod number_codes;
mod pre_tokenized_string;
mod raw_and_default;
mod run_fault;
mod synced_steps;
mod token;
mod token_buffer;
mod token_stream;

pub use alive_bit_set::AliveBitSet;
pub use analyzer::Analyzer;
pub use bit_set::BitSet;
pub use definitions::Fault;
pub use device::Device;
pub use file_device::FileDevice;
pub use fuse_device::FuseDevice;
pub use has_len::HasLen;
pub use memory_device::MemoryDevice;
pub use number::{
    DocId, MAX_SCORE, Score, TERMINATED, max_score_is_that_of_definitions,
    terminated_is_that_of_definitions,
};
pub use number_codes::{
    put_bytes, put_u32, put_u64, put_vint, take_bytes, take_text, take_u32, take_u64, take_vint,
};
pub use pre_tokenized_string::PreTokenizedString;
pub use raw_and_default::RawAndDefault;
pub use run_fault::RunFault;
pub use synced_steps::{cut_synced, write_synced};
pub use token::{MAX_TOKEN_LEN, Token, max_token_len_is_that_of_definitions};
pub use token_buffer::{TokenBuffer, TokenRef};
pub use token_stream::{BufferedStream, PreTokenizedStream, TokenStream};
