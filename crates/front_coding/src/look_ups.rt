//! Keys, looked up in blocks.

ghost use Rattle.std.specs.Prelude.{IfErr, IfOk, List, None, Some, drop, length, option_map, ◌≡◌, ◌≤◌, ℕ};
ghost use Rattle.std.specs.Cmp.Lexicographic.{slice_cmp};
ghost use Rattle.std.specs.List.{prefix_len};
ghost use Rattle.std.specs.Ordering.{nat_cmp};
ghost use Rattle.definitions.specs.declared.fault.Fault.TheVariants as faults;
ghost use Rattle.layouts.specs.TermSections.{Told, block_size};
ghost use Rattle.front_coding.specs.BlockPlaces.{EndWithin, IsBlock};
ghost use Rattle.front_coding.specs.Lengths.{lengths_of, located_at, parts_as};
ghost use Rattle.front_coding.specs.LookUps.{compared, located, stands_below, take_parts, take_shared};

use crate::blocks::begins_block;
use crate::keys::shared_len;
use crate::short_codes::{take_bytes, take_vint};
use crate::term_lengths::EntryLengths;
use crate::term_starts::TermStart;
use crate::terms_read::take_lengths;
use definitions::Fault;
use std::cmp::Ordering;

/// A term as it stands: how many bytes of the key before it begins with, the rest of its own, and its lengths.
#[derive(Clone, Copy)]
pub struct EntryParts<'a> {
    pub shared_len: u64,
    pub left: &'a [u8],
    pub lengths: EntryLengths,
}

/// Takes how much the term of a number shares with the one before, and returns what follows.
fn take_shared(bytes: &[u8], front_coded: bool, number: u64) -> Result<(u64, &[u8]), Fault>
    ensures ok { IfOk result (λ p. take_shared (block_size front_coded) number bytes.now ≡ Some (p.0, p.1.now)) }
    ensures err { IfErr result (λ fault. (fault ≡ faults.Damaged None)
        × (take_shared (block_size front_coded) number bytes.now ≡ None)) }
{
    if begins_block(front_coded, number) {
        return Ok((0, bytes));
    }
    take_vint(bytes)
}

/// The parts of the term of a number, and what follows it.
pub fn take_parts(
    bytes: &[u8],
    front_coded: bool,
    number: u64,
) -> Result<(EntryParts<'_>, &[u8]), Fault>
    ensures ok { IfOk result (λ p. take_parts (block_size front_coded) number bytes.now
        ≡ Some (parts_as p.0, p.1.now)) }
    ensures err { IfErr result (λ fault. (fault ≡ faults.Damaged None)
        × (take_parts (block_size front_coded) number bytes.now ≡ None)) }
{
    let (alike, rest) = take_shared(bytes, front_coded, number)?;
    let (left, rest) = take_bytes(rest)?;
    let (lengths, rest) = take_lengths(rest)?;
    let parts = EntryParts {
        shared_len: alike,
        left,
        lengths,
    };
    Ok((parts, rest))
}

/// Returns the bytes from an offset on; none after the end.
pub(crate) fn from(bytes: &[u8], offset: usize) -> &[u8]
    ensures { result.now ≡ drop offset bytes.now }
{
    bytes.get(offset..).unwrap_or(&[])
}

/// Compares two keys by their bytes.
fn order_of(left: &[u8], sought: &[u8]) -> Ordering
    ensures { result ≡ slice_cmp nat_cmp left.now sought.now }
{
    left.cmp(sought)
}

/// A term that was found: its lengths, and where its postings and positions begin.
#[derive(Clone, Copy)]
pub struct TermPlace {
    pub lengths: EntryLengths,
    pub postings: usize,
    pub positions: usize,
}

/// What a look-up in a block finds: how many of its terms are below the key, and the term that has it.
#[derive(Clone, Copy)]
pub struct BlockSearch {
    pub below: u64,
    pub found: Option<TermPlace>,
}

/// Returns a search that ended at the term of a number, which hasn't the key.
fn ended(number: u64) -> BlockSearch
    ensures { (result.below ≡ number) × (result.found ≡ None) }
{
    BlockSearch {
        below: number,
        found: None,
    }
}

/// Looks up `key` among `num_terms` terms of the block that begins at `start`. No key is put together: a term that
/// shares more with the one before than this does with `key` is below it too, and one that shares less is above it.
pub fn search_block(
    section: &[u8],
    front_coded: bool,
    num_terms: u64,
    start: TermStart,
    key: &[u8],
) -> BlockSearch
    ensures bound { result.below ≤ num_terms }
    ensures below { (ts : List Told) (end : List ℕ)
        → IsBlock (block_size front_coded) num_terms section.now start ts end
        → result.below ≡ prefix_len (stands_below key.now) ts }
    ensures found { (ts : List Told) (end : List ℕ)
        → IsBlock (block_size front_coded) num_terms section.now start ts end
        → EndWithin start ts
        → option_map located_at result.found ≡ located key.now start.postings start.positions ts }
{
    let mut rest = from(section, start.entry);
    let mut alike = 0;
    let mut postings = start.postings;
    let mut positions = start.positions;
    for number in 0..num_terms {
        let Ok((parts, after)) = take_parts(rest, front_coded, number) else {
            return ended(number);
        };
        let told = compare(&parts, alike, key);
        match told.order {
            Ordering::Equal => return found_at(number, parts.lengths, postings, positions),
            Ordering::Greater => return ended(number),
            Ordering::Less => {}
        }
        alike = told.alike;
        postings = postings.saturating_add(parts.lengths.postings_len as usize);
        positions = positions.saturating_add(parts.lengths.positions_len as usize);
        rest = after;
    }
    ended(num_terms)
}

/// How a term stands to a key, and with how many bytes they begin alike where it is below.
#[derive(Clone, Copy)]
struct Comparison {
    order: Ordering,
    alike: usize,
}

/// Compares a term with `key` by its parts, where the term before is below `key` and shares `alike` bytes with it.
fn compare(parts: &EntryParts<'_>, alike: usize, key: &[u8]) -> Comparison
    requires { alike ≤ length key.now }
    ensures { (result.order, result.alike) ≡ compared (parts_as parts.now) alike key.now }
{
    if parts.shared_len < alike as u64 {
        return Comparison {
            order: Ordering::Greater,
            alike,
        };
    }
    if parts.shared_len > alike as u64 {
        return Comparison {
            order: Ordering::Less,
            alike,
        };
    }
    let sought = from(key, alike);
    Comparison {
        order: order_of(parts.left, sought),
        alike: alike + shared_len(parts.left, sought),
    }
}

/// Returns a search that found the term of a number.
fn found_at(number: u64, lengths: EntryLengths, postings: usize, positions: usize) -> BlockSearch
    ensures { (result.below ≡ number)
        × (option_map located_at result.found ≡ Some (lengths_of lengths, postings, positions)) }
{
    let found = TermPlace {
        lengths,
        postings,
        positions,
    };
    BlockSearch {
        below: number,
        found: Some(found),
    }
}
