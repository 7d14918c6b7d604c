//! The terms of a field, read from their section.

ghost use Rattle.std.specs.Prelude.{◌+◌, ◌++◌, ◌<◌, ◌≡◌, ◌≢◌, ◌≤◌, IfErr, IfOk, List, None, OnOk, Some, drop, length, ℕ};
ghost use Rattle.definitions.specs.declared.fault.Fault.TheVariants as faults;
ghost use Rattle.front_coding.specs.BlockPlaces.{begun};
ghost use Rattle.front_coding.specs.Lengths.{lengths_of};
ghost use Rattle.front_coding.specs.TakenKeys.{take_term};
ghost use Rattle.layouts.specs.TermSections.{TermLengths, Told, block_size};
ghost use Rattle.segment_reader.specs.TermPlaces.{AreRead, AreTerms, EndsWithin, TermFits, starts_of};
ghost use Rattle.segment_reader.specs.ToldFields.{HasShape};

use crate::field_index::TermsShape;
use definitions::Fault;
use front_coding::{EntryLengths, TermStart, begins_block, take_term};
use std::alloc::{AllocError, Global};

/// The lengths of the sections of postings and of positions, in bytes.
#[derive(Clone, Copy)]
pub(crate) struct SectionLengths {
    pub(crate) postings: usize,
    pub(crate) positions: usize,
}

/// Decodes the term of a number at `start`, which must end within the sections, and returns its end. Its key comes into
/// `key`, where that of the term before stands.
fn take_at(
    section: &[u8],
    front_coded: bool,
    number: u64,
    start: TermStart,
    lengths: SectionLengths,
    key: &mut Vec<u8>,
) -> Result<TermStart, Fault>
    requires { start.entry ≤ length section.now }
    ensures ok { IfOk result (λ end. (l : TermLengths)
        × (take_term (block_size front_coded) number key.old.items (drop start.entry section.now)
        ≡ Some ((key.new.items, l), drop end.entry section.now)) × (end.entry ≤ length section.now)
        × EndsWithin start l lengths.postings lengths.positions end) }
    ensures err { IfErr result (λ fault. fault ≢ faults.OutOfMemory → (fault ≡ faults.Damaged None)
        × ((t : Told) (rest : List ℕ)
        → take_term (block_size front_coded) number key.old.items (drop start.entry section.now) ≡ Some (t, rest)
        → TermFits t.1 → start.postings + t.1.postings_len ≤ lengths.postings
        → start.positions + t.1.positions_len ≤ lengths.positions → ⊥)) }
{
    let (entry, rest) = take_term(&section[start.entry..], front_coded, number, key)?;
    end_behind(section.len() - rest.len(), start, &entry, lengths)
}

/// Returns the end of a term at `start`, which must have documents; `entry_end` is the end of its entry.
fn end_behind(
    entry_end: usize,
    start: TermStart,
    entry: &EntryLengths,
    lengths: SectionLengths,
) -> Result<TermStart, Fault>
    ensures ok { IfOk result (λ b. (b.entry ≡ entry_end)
        × EndsWithin start (lengths_of entry.now) lengths.postings lengths.positions b) }
    ensures err { IfErr result (λ fault. (fault ≡ faults.Damaged None)
        × (TermFits (lengths_of entry.now) → start.postings + entry.now.postings_len ≤ lengths.postings
        → start.positions + entry.now.positions_len ≤ lengths.positions → ⊥)) }
{
    if entry.doc_freq == 0 || entry.doc_freq > u64::from(u32::MAX) {
        return Err(Fault::Damaged(None));
    }
    let postings = end_within(start.postings, entry.postings_len, lengths.postings)?;
    let positions = end_within(start.positions, entry.positions_len, lengths.positions)?;
    Ok(TermStart {
        entry: entry_end,
        postings,
        positions,
    })
}

/// Returns the end of `len` bytes from offset `start` on, at most `limit`.
fn end_within(start: usize, len: u64, limit: usize) -> Result<usize, Fault>
    ensures ok { IfOk result (λ end. (end ≡ start + len) × (end ≤ limit)) }
    ensures err { IfErr result (λ fault. (fault ≡ faults.Damaged None) × (limit < start + len)) }
{
    match start.checked_add(len as usize) {
        Some(end) if end <= limit => Ok(end),
        _ => Err(Fault::Damaged(None)),
    }
}

/// Keeps the start of a term that begins a block.
fn push_begun(
    starts: &mut Vec<TermStart>,
    front_coded: bool,
    number: u64,
    start: TermStart,
) -> Result<(), AllocError>
    ensures { OnOk result (starts.new.items ≡ starts.old.items ++ begun (block_size front_coded) number start) }
{
    if begins_block(front_coded, number) {
        starts.push(start)?;
    }
    Ok(())
}

/// Decodes `num_terms` terms from `start` on: their shape, where each block of them begins, and where the last one
/// ends.
pub(crate) fn take_terms(
    alloc: Global,
    section: &[u8],
    front_coded: bool,
    start: TermStart,
    lengths: SectionLengths,
    num_terms: u64,
) -> Result<(TermsShape, Vec<TermStart>, TermStart), Fault>
    requires entry { start.entry ≤ length section.now }
    requires postings { start.postings ≤ lengths.postings }
    requires positions { start.positions ≤ lengths.positions }
    ensures ok { IfOk result (λ p. (ts : List Told) × (length ts ≡ num_terms)
        × AreRead (block_size front_coded) section.now start lengths.postings lengths.positions ts p.2
        × HasShape front_coded start ts p.0
        × (p.1.items ≡ starts_of (block_size front_coded) start ts)) }
    ensures err { IfErr result (λ fault. fault ≢ faults.OutOfMemory → (fault ≡ faults.Damaged None)
        × ((ts : List Told) (rest : List ℕ) → length ts ≡ num_terms
        → AreTerms (block_size front_coded) section.now start lengths.postings lengths.positions ts rest → ⊥)) }
{
    let mut starts = Vec::new(alloc);
    let mut key = Vec::new(alloc);
    let mut longest = 0;
    let mut end = start;
    for number in 0..num_terms {
        push_begun(&mut starts, front_coded, number, end)?;
        end = take_at(section, front_coded, number, end, lengths, &mut key)?;
        longest = key.len().max(longest);
    }
    let shape = TermsShape {
        front_coded,
        num_terms,
        longest,
        first: start,
    };
    Ok((shape, starts, end))
}
