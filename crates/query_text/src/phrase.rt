//! Words and phrases, and what they mean.

ghost use Rattle.query_text.specs.Clauses.{phrase_of};
ghost use Rattle.query_text.specs.Refusals.{Gives};
ghost use Rattle.query_trees.specs.Queries.{query_of};

use crate::refusal::Reason;
use query_trees::AnyQuery;
use std::alloc::Global;

/// A word or a phrase as it is written.
#[derive(Clone, Copy, Debug)]
pub struct Phrase<'a> {
    /// The name of the field that it names.
    pub field: Option<&'a [u8]>,
    pub text: &'a [u8],
    /// How many positions off its words may be in total.
    pub slop: u32,
    /// Whether its last word is a prefix.
    pub is_prefix: bool,
    /// Whether what has it is left out.
    pub is_excluded: bool,
}

/// What words and phrases mean.
pub trait Vocabulary {
    ghost use Rattle.query_text.specs.Reading as reading;

    // The query of each, or why there is none.
    ghost queries: { Self → reading.Vocabulary };

    /// Makes the query of `phrase`.
    fn query(&self, alloc: Global, phrase: Phrase<'_>) -> Result<AnyQuery, Reason>
        ensures { Gives query_of result (queries self.now (phrase_of phrase.entry)) };
}
