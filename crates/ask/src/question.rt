//! A text that a person writes, read as a query.

use crate::rarity::{Weight, Weighted, rarity};
use crate::whole_words::WholeWords;
use definitions::Fault;
use index::{AllQuery, Analyzer, AnyQuery, Device, Index, IndexRecordOption, Term, TermQuery};
use languages::Asked;
use query_text::{FieldScores, Reason, Refusal, SchemaVocabulary, Vocabulary, read_text};
use query_trees::QueryTree;
use std::alloc::{AllocError, AllocFailed, Global};

/// A text that a person writes, and how its words weigh.
#[derive(Clone, Copy, Debug)]
pub struct Question<'a> {
    /// What is looked for.
    pub text: &'a str,
    /// Whether each word weighs the same.
    pub flat: bool,
    /// How the scores of a word's fields count together where it names none.
    pub field_scores: FieldScores,
}

/// Why a question isn't answered.
#[derive(Clone, Copy, Debug)]
pub(crate) enum Unanswered {
    /// The text isn't read as a query.
    NotRead(Refusal),
    /// The index refuses the query.
    Refused(Fault),
}

impl From<Fault> for Unanswered {
    fn from(fault: Fault) -> Unanswered {
        Unanswered::Refused(fault)
    }
}

impl From<AllocError> for Unanswered {
    fn from(_refused: AllocError) -> Unanswered {
        Unanswered::Refused(Fault::OutOfMemory)
    }
}

impl<T: Drop> From<AllocFailed<T>> for Unanswered {
    fn from(_refused: AllocFailed<T>) -> Unanswered {
        Unanswered::Refused(Fault::OutOfMemory)
    }
}

/// Reads `question` as a query to `index`, with the weight of each word.
pub(crate) fn query_of<D: Device + Drop, A: Analyzer + Drop>(
    alloc: Global,
    index: &Index<D, A>,
    question: &Question<'_>,
) -> Result<AnyQuery, Unanswered> {
    let words = SchemaVocabulary {
        schema: index.schema(),
        analyzer: &Asked,
        field_scores: question.field_scores,
    };
    let plain = read(alloc, &words, question)?;
    if question.flat {
        return Ok(plain);
    }
    let weights = weights_of(alloc, index, &plain)?;
    read_weighted(alloc, &words, &weights, question)
}

/// Returns where words of `question` stand beside each other that a text field can't take part in, for its positions.
pub(crate) fn left_out<D: Device + Drop, A: Analyzer + Drop>(
    alloc: Global,
    index: &Index<D, A>,
    question: &Question<'_>,
) -> Option<Refusal> {
    let words = SchemaVocabulary {
        schema: index.schema(),
        analyzer: &Asked,
        field_scores: question.field_scores,
    };
    let whole = WholeWords { words: &words };
    match read_text(alloc, &whole, question.text.as_bytes()) {
        Err(refusal) if matches!(refusal.reason, Reason::NoPositions) => Some(refusal),
        _ => None,
    }
}

/// Reads `question`, whose words mean what `words` says, each with its weight.
fn read_weighted<V: Vocabulary>(
    alloc: Global,
    words: &V,
    weights: &[Weight<'_>],
    question: &Question<'_>,
) -> Result<AnyQuery, Unanswered> {
    let weighted = Weighted { words, weights };
    read(alloc, &weighted, question)
}

/// Reads `question`, whose words mean what `words` says.
fn read<V: Vocabulary>(
    alloc: Global,
    words: &V,
    question: &Question<'_>,
) -> Result<AnyQuery, Unanswered> {
    match read_text(alloc, words, question.text.as_bytes()) {
        Ok(query) => Ok(query),
        Err(refusal) => Err(Unanswered::NotRead(refusal)),
    }
}

/// Returns what each term of `query` weighs that documents have, by how many these are.
fn weights_of<'q, D: Device + Drop, A: Analyzer + Drop>(
    alloc: Global,
    index: &Index<D, A>,
    query: &'q AnyQuery,
) -> Result<Vec<Weight<'q>>, Unanswered> {
    let total = index.count(&AnyQuery::All(AllQuery))?;
    let mut weights = Vec::new(alloc);
    for (term, _needs_positions) in &query.needed_terms(alloc)? {
        let count = index.count(&query_for(alloc, *term)?)?;
        if count > 0 {
            let weight = rarity(total, count);
            weights.push(Weight {
                term: *term,
                weight,
            })?;
        }
    }
    Ok(weights)
}

/// Makes the query for the documents that have `term`.
fn query_for(alloc: Global, term: &Term) -> Result<AnyQuery, Fault> {
    let mut bytes = Vec::new(alloc);
    bytes.extend_from_slice(term.serialized_term())?;
    Ok(AnyQuery::Term(TermQuery::new(Term::wrap(bytes)?, IndexRecordOption::Basic)))
}
