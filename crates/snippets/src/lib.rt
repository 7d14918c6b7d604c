//! Snippets of texts: the best passage, with the words in it that are looked for.
#![tactic(auto)]

mod context;
pub mod examples;
pub mod laws;
mod passages;
mod shown_texts;
mod snippet;
mod text_pieces;
mod words;

pub use passages::{MAX_PASSAGE_LEN, Piece};
pub use shown_texts::shown_snippet;
pub use snippet::{Snippet, snippet_of};
pub use words::Word;
