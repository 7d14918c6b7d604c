//! Words and phrases that every text field has to be looked into for.

ghost use Rattle.ask.specs.WholeWords as definitions;
ghost use Rattle.query_text.specs.Clauses.{phrase_of};
ghost use Rattle.query_text.specs.Refusals.{Gives};
ghost use Rattle.query_trees.specs.Queries.{query_of};

use index::AnyQuery;
use query_text::{Phrase, Reason, Vocabulary};
use std::alloc::Global;

/// Words and phrases, refused where a text field can't take part, as those are that are left out.
#[derive(Drop)]
pub(crate) struct WholeWords<'a, V: Vocabulary> {
    pub(crate) words: &'a V,
}

impl<'a, V: Vocabulary> Vocabulary for WholeWords<'a, V> {
    ghost use Rattle.ask.specs.WholeWords.{whole_words};

    ghost queries = { λ v. whole_words (V.queries v.words.now) };

    fn query(&self, alloc: Global, phrase: Phrase<'_>) -> Result<AnyQuery, Reason> {
        whole_query(alloc, self.words, phrase)
    }
}

/// Makes the query of `phrase` as of one that is left out.
fn whole_query<V: Vocabulary>(
    alloc: Global,
    words: &V,
    phrase: Phrase<'_>,
) -> Result<AnyQuery, Reason>
    ensures { Gives query_of result (definitions.whole_words (V.queries words.now) (phrase_of phrase.entry)) }
{
    let whole = Phrase {
        field: phrase.field,
        text: phrase.text,
        slop: phrase.slop,
        is_prefix: phrase.is_prefix,
        is_excluded: true,
    };
    words.query(alloc, whole)
}
