//! The terms of several members, one after another.

ghost use Rattle.std.specs.Prelude.{[], ◌<◌, ◌≡◌, IfOk, IfSome, List, Some, drop, length, map, option_map, slice_get, ℕ};
ghost use Rattle.std.specs.List.{AllByRecursion, slice_index_or};
ghost use Rattle.segment_reader.specs.Dictionaries.{Placed};
ghost use Rattle.segment_reader.specs.Readers.{info_in};
ghost use Rattle.layouts.specs.TermSections.{TermsAscend};
ghost use Rattle.merging.specs.KeyLists.{begins_with, first_key, keys_of, merged_keys, past_key};
ghost use Rattle.merging.specs.Walking.{IsLeast, is_lead, key_at};

use crate::member_terms::MemberTerms;
use segment_reader::{TermDictionary, TermInfo};
use std::alloc::{AllocError, Global};
use std::marker::Model;

/// The terms of a field in several members, in ascending order and each once: the current one is the first that is
/// left, with which members have it.
#[derive(Drop)]
pub struct TermMerger<'a> {
    dictionaries: Vec<TermDictionary<'a>>,
    // What is left of each.
    members: Vec<MemberTerms<'a>>,
    // The first member whose first term is the least.
    least: Option<usize>,
}

impl<'a> Model for TermMerger<'a> {
    ghost use Rattle.merging.specs.KeyLists.{merged_keys};
    ghost use Rattle.merging.specs.Walking.{AreLeft, IsLeast, Merger};

    ghost Value = { Merger };

    ghost view = { λ m. record { members = m.dictionaries.items; keys = merged_keys m.members.items } };

    ghost invariant = { λ m. ∥ AreLeft m.dictionaries.items m.members.items × IsLeast m.members.items m.least ∥₁ };
}

impl<'a> TermMerger<'a> {
    /// Returns a merger of all terms of `dictionaries`, one of each member.
    pub fn new(
        alloc: Global,
        dictionaries: Vec<TermDictionary<'a>>,
    ) -> Result<TermMerger<'a>, AllocError>
        requires { AllByRecursion (λ terms. TermsAscend (keys_of terms)) dictionaries.items }
        ensures { IfOk result (λ merger. merger
            ≡ record { members = dictionaries.entry.items; keys = merged_keys dictionaries.entry.items }) }
    {
        let members = all_terms(alloc, &dictionaries)?;
        let least = least_of(&members);
        Ok(TermMerger {
            dictionaries,
            members,
            least,
        })
    }

    /// Returns the value bytes of the current term; none after the last.
    pub fn key(&self) -> Option<&[u8]>
        ensures { option_map (λ key. key.now) result ≡ slice_get self.now.keys 0 }
    {
        let Some(least) = self.least else {
            return None;
        };
        self.members[least].key()
    }

    /// Returns where the postings of the current term are in `member`; none if the member doesn't have it.
    pub fn term_info(&self, member: usize) -> Option<&TermInfo>
        requires { member < length self.now.members }
        ensures { (key : List ℕ) → slice_get self.now.keys 0 ≡ Some key
            → option_map (λ info. info.now) result ≡ info_in key (slice_index_or self.now.members member []) }
    {
        let Some(key) = self.key() else {
            return None;
        };
        let terms = &self.members[member];
        if terms.begins_with(key) {
            return terms.info();
        }
        None
    }

    /// Moves to the next term.
    pub fn advance(&mut self)
        ensures { self.new ≡ record self.old { keys = drop 1 self.old.keys } }
    {
        let Some(least) = self.least else {
            return;
        };
        pass_first(&mut self.members, least);
        self.least = least_of(&self.members);
    }
}

/// Returns the terms of each dictionary.
fn all_terms<'a>(
    alloc: Global,
    dictionaries: &[TermDictionary<'a>],
) -> Result<Vec<MemberTerms<'a>>, AllocError>
    ensures { IfOk result (λ members. members.items ≡ dictionaries.now) }
{
    let mut members = Vec::with_capacity(alloc, dictionaries.len())?;
    for dictionary in dictionaries {
        members.push(MemberTerms::new(dictionary.range(alloc, &[], None)?))?;
    }
    Ok(members)
}

/// Returns the first member whose first term is the least of all.
fn least_of(members: &[MemberTerms<'_>]) -> Option<usize>
    ensures { IsLeast members.now result }
{
    let mut least = None;
    for number in (0..members.len()).rev() {
        if comes_before(members, number, least) {
            least = Some(number);
        }
    }
    least
}

/// Whether member `number` has a first term, which isn't after that of `other`, if there is one.
fn comes_before(members: &[MemberTerms<'_>], number: usize, other: Option<usize>) -> bool
    requires own { number < length members.now }
    requires within { IfSome other (λ n. n < length members.now) }
    ensures { result ≡ is_lead (first_key (slice_index_or members.now number [])) (key_at members.now other) }
{
    let Some(key) = members[number].key() else {
        return false;
    };
    let Some(other) = other else {
        return true;
    };
    match members[other].key() {
        Some(other_key) => !(other_key < key),
        None => true,
    }
}

/// Removes the first term of member `least` in each that begins with it; in `least` last, as others are compared to it.
fn pass_first(members: &mut [MemberTerms<'_>], least: usize)
    requires { least < length members.old }
    ensures { (key : List ℕ) → first_key (slice_index_or members.old least []) ≡ Some key
        → members.new ≡ map (past_key key) members.old }
{
    for number in 0..members.len() {
        if number != least && begin_alike(members, number, least) {
            members[number].advance();
        }
    }
    members[least].advance();
}

/// Whether member `number` begins with the first term of `other`.
fn begin_alike(members: &[MemberTerms<'_>], number: usize, other: usize) -> bool
    requires own { number < length members.now }
    requires within { other < length members.now }
    ensures { (key : List ℕ) → first_key (slice_index_or members.now other []) ≡ Some key
        → result ≡ begins_with key (slice_index_or members.now number []) }
{
    match members[other].key() {
        Some(key) => members[number].begins_with(key),
        None => false,
    }
}
