//! Terms of phrases, with their offsets.

ghost use Rattle.std.specs.Prelude.{◌==◌, ◌≡◌, IfOk, OnOk, map};
ghost use Rattle.definitions.specs.Phrases.{by_offset};
ghost use Rattle.definitions.specs.Scoring.{phrase_field};
ghost use Rattle.definitions.specs.Terms.{field_of};
ghost use Rattle.query_trees.specs.PhraseTerms.{are_phrase_terms};
ghost use Rattle.std.specs.List.{enumerate_from, list_all};

use std::alloc::{AllocError, Global};
use std::fmt;
use terms::{Field, Term};

/// Whether `terms` are `least` or more, all of one field, as phrases require.
pub fn are_phrase_terms(least: usize, terms: &[(usize, Term)]) -> bool
    ensures { result ≡ are_phrase_terms least terms.now }
{
    terms.len() >= least && are_of_field(field_of_first(terms), terms)
}

/// Whether all `terms` are of `field`.
fn are_of_field(field: Field, terms: &[(usize, Term)]) -> bool
    ensures { result ≡ list_all (λ t. field_of t.1 == field) terms.now }
{
    terms.iter().all(|(_offset, term)| term.field().field_id() == field.field_id())
}

/// Returns the field of the first term; field 0 if there are no terms.
fn field_of_first(terms: &[(usize, Term)]) -> Field
    ensures { result ≡ phrase_field terms.now }
{
    match terms.first() {
        Some((_offset, term)) => term.field(),
        None => Field::from_field_id(0),
    }
}

/// Gives `terms` consecutive offsets, from 0 on.
pub(crate) fn in_a_row(alloc: Global, terms: Vec<Term>) -> Result<Vec<(usize, Term)>, AllocError>
    ensures { IfOk result (λ pairs. pairs.items ≡ enumerate_from 0 terms.items) }
{
    let mut left = terms;
    left.reverse();
    let mut pairs = Vec::with_capacity(alloc, left.len())?;
    while let Some(term) = left.pop() {
        pairs.push((pairs.len(), term))?;
    }
    Ok(pairs)
}

/// Sorts `terms` by their offsets; those of one offset stay in their order.
pub(crate) fn sort_by_offset(terms: &mut Vec<(usize, Term)>) -> Result<(), AllocError>
    ensures { OnOk result (terms.new.items ≡ by_offset terms.old.items) }
{
    terms.sort_by(|a, b| a.0.cmp(&b.0))?;
    Ok(())
}

/// Copies terms, without their offsets.
pub(crate) fn copied_terms(alloc: Global, terms: &[(usize, Term)]) -> Result<Vec<Term>, AllocError>
    ensures { IfOk result (λ copies. copies.items ≡ map (λ t. t.1) terms.now) }
{
    let mut copies = Vec::with_capacity(alloc, terms.len())?;
    for (_offset, term) in terms {
        copies.push(copied(alloc, term)?)?;
    }
    Ok(copies)
}

/// Copies terms, with their offsets.
pub(crate) fn copied_with_offsets(
    alloc: Global,
    terms: &[(usize, Term)],
) -> Result<Vec<(usize, Term)>, AllocError>
    ensures { IfOk result (λ copies. copies.items ≡ terms.now) }
{
    let mut copies = Vec::with_capacity(alloc, terms.len())?;
    for (offset, term) in terms {
        copies.push((*offset, copied(alloc, term)?))?;
    }
    Ok(copies)
}

/// Copies a term.
pub(crate) fn copied(alloc: Global, term: &Term) -> Result<Term, AllocError>
    ensures { IfOk result (λ copy. copy ≡ term.now) }
{
    let _type = term.typ();
    let mut bytes = Vec::new(alloc);
    bytes.extend_from_slice(term.serialized_term())?;
    Ok(Term::wrap(bytes).ok().unwrap())
}

/// Writes each term's offset and bytes.
pub(crate) fn show_terms<W: fmt::Write>(
    f: &mut fmt::Formatter<W>,
    terms: &[(usize, Term)],
) -> fmt::Result {
    for (offset, term) in terms {
        write!(f, "{offset}: {:?}, ", term.serialized_term())?;
    }
    Ok(())
}
