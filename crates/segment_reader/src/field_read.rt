//! The terms of fields, read from their section.

ghost use Rattle.std.specs.Prelude.{◌++◌, ◌<◌, ◌^◌, ◌≡◌, ◌≢◌, ◌≤◌, IfErr, IfOk, List, None, drop, length, ℕ};
ghost use Rattle.definitions.specs.declared.fault.Fault.TheVariants as faults;
ghost use Rattle.layouts.specs.TermSections.{FieldTerms, block_size};
ghost use Rattle.segment_reader.specs.TermPlaces.{IsField, IsHeader, IsReadField, first_in, header_bytes, starts_of};
ghost use Rattle.segment_reader.specs.ToldFields.{HasShape};

use crate::field_index::TermsShape;
use crate::terms_read::{SectionLengths, take_terms};
use common::{take_u32, take_u64, take_vint};
use definitions::Fault;
use front_coding::TermStart;
use std::alloc::Global;

/// The number of tokens and of terms of a field, and the offset of its first term.
#[derive(Clone, Copy)]
struct Header {
    num_tokens: u64,
    num_terms: u64,
    first: usize,
}

/// Decodes the header of `field` at `offset` of the section of terms; it has at most 4294967295 terms.
fn take_header(section: &[u8], offset: usize, field: u32) -> Result<Header, Fault>
    requires { offset ≤ length section.now }
    ensures ok { IfOk result (λ h. IsHeader section.now offset field h.num_tokens h.num_terms h.first) }
    ensures err { IfErr result (λ fault. (fault ≡ faults.Damaged None)
        × ((num_tokens num_terms : ℕ) (rest : List ℕ) → num_tokens < 2 ^ 64 → num_terms ≤ 4294967295
        → drop offset section.now ≡ header_bytes field num_tokens num_terms ++ rest → ⊥)) }
{
    let (number, rest) = take_u32(&section[offset..])?;
    if number != field {
        return Err(Fault::Damaged(None));
    }
    let (num_tokens, rest) = take_u64(rest)?;
    let (num_terms, rest) = take_vint(rest)?;
    if num_terms > u64::from(u32::MAX) {
        return Err(Fault::Damaged(None));
    }
    Ok(Header {
        num_tokens,
        num_terms,
        first: section.len() - rest.len(),
    })
}

/// Decodes `field` at `start`: its number of tokens, the shape of its terms, where each block of them begins, and where
/// the field ends.
pub(crate) fn take_field(
    alloc: Global,
    section: &[u8],
    front_coded: bool,
    start: TermStart,
    lengths: SectionLengths,
    field: u32,
) -> Result<(u64, TermsShape, Vec<TermStart>, TermStart), Fault>
    requires entry { start.entry ≤ length section.now }
    requires postings { start.postings ≤ lengths.postings }
    requires positions { start.positions ≤ lengths.positions }
    ensures ok { IfOk result (λ p. (f : FieldTerms) × (f.field ≡ field) × (f.num_tokens ≡ p.0)
        × IsReadField (block_size front_coded) section.now start lengths.postings lengths.positions f p.3
        × HasShape front_coded (first_in start f) f.terms p.1
        × (p.2.items ≡ starts_of (block_size front_coded) (first_in start f) f.terms)) }
    ensures err { IfErr result (λ fault. fault ≢ faults.OutOfMemory → (fault ≡ faults.Damaged None)
        × ((f : FieldTerms) (rest : List ℕ) → f.field ≡ field
        → IsField (block_size front_coded) section.now start lengths.postings lengths.positions f rest → ⊥)) }
{
    let header = take_header(section, start.entry, field)?;
    let first = TermStart {
        entry: header.first,
        postings: start.postings,
        positions: start.positions,
    };
    let num_terms = header.num_terms;
    let (shape, starts, end) = take_terms(alloc, section, front_coded, first, lengths, num_terms)?;
    Ok((header.num_tokens, shape, starts, end))
}
