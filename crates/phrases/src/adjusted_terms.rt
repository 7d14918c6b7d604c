//! The postings of a phrase's terms, shifted by their offsets in the phrase.

ghost use Rattle.std.specs.Prelude.{◌-◌, ◌≡◌, ◌≤◌, IfOk, map};
ghost use Rattle.docsets.specs.Entries.{most_positions};
ghost use Rattle.definitions.specs.Scoring.{greatest_of};
ghost use Rattle.phrases.specs.PhraseEntries.{placed};

use crate::postings_with_offset::PostingsWithOffset;
use docsets::{DocSet, Postings};
use intersections::Positioned;
use std::alloc::{AllocError, Global};

/// Returns the greatest offset.
fn greatest_offset<P: Postings>(term_postings: &Vec<(usize, P)>) -> usize
    ensures { result ≡ greatest_of (map (λ t. t.0) term_postings.now.items) }
{
    let mut greatest: usize = 0;
    for i in 0..term_postings.len() {
        greatest = greatest.max(term_postings[i].0);
    }
    greatest
}

/// Shifts the positions of each of `term_postings` by the greatest offset less its own.
pub(crate) fn adjusted<P: Postings + Drop>(
    alloc: Global,
    term_postings: Vec<(usize, P)>,
) -> Result<Vec<PostingsWithOffset<P>>, AllocError>
    requires { greatest_of (map (λ t. t.0) term_postings.items) ≤ 1073741824 }
    ensures { IfOk result (λ docsets. map ⟦<PostingsWithOffset<P> as DocSet>⟧.entries docsets.items
        ≡ map (λ t. placed (greatest_of (map (λ u. u.0) term_postings.items) - t.0) (P.entries t.1))
        term_postings.items) }
{
    let greatest = greatest_offset(&term_postings);
    let mut left = term_postings;
    left.reverse();
    let mut docsets = Vec::with_capacity(alloc, left.len())?;
    while let Some((offset, postings)) = left.pop() {
        let moved = greatest.saturating_sub(offset) as u32;
        docsets.push(PostingsWithOffset::new(postings, moved))?;
    }
    Ok(docsets)
}

/// Returns an upper bound of the number of positions of each document of `docsets`.
pub(crate) fn most_of<S: Positioned>(docsets: &Vec<S>) -> usize
    ensures { greatest_of (map (λ s. most_positions (S.entries s)) docsets.now.items) ≤ result }
{
    let mut most: usize = 0;
    for i in 0..docsets.len() {
        most = most.max(docsets[i].most_positions());
    }
    most
}
