//! The terms of one member that are left.

ghost use Rattle.std.specs.Prelude.{◌≡◌, drop, option_map};
ghost use Rattle.merging.specs.KeyLists.{begins_with, first_key};
ghost use Rattle.merging.specs.Walking.{first_info};

use segment_reader::{TermInfo, TermRange};
use std::marker::Model;

/// The terms of a member that are left; the first is the current one of its range.
#[derive(Drop)]
pub(crate) struct MemberTerms<'a> {
    range: TermRange<'a>,
    has_term: bool,
}

impl<'a> Model for MemberTerms<'a> {
    ghost use Rattle.std.specs.Prelude.{◌↔◌, IsSome, IsTrue, List};
    ghost use Rattle.segment_reader.specs.Dictionaries.{Placed};
    ghost use Rattle.merging.specs.Walking.{left_of};

    ghost Value = { List Placed };

    ghost view = { λ m. left_of m.range };

    ghost invariant = { λ m. IsTrue m.has_term ↔ IsSome m.range.here };
}

impl<'a> MemberTerms<'a> {
    /// Returns all terms of `range`, which is before the first of them.
    pub(crate) fn new(mut range: TermRange<'a>) -> MemberTerms<'a>
        ensures { result ≡ range.entry.rest }
    {
        let has_term = range.advance();
        MemberTerms { range, has_term }
    }

    /// Returns the value bytes of the first term, if there is one.
    pub(crate) fn key(&self) -> Option<&[u8]>
        ensures { option_map (λ key. key.now) result ≡ first_key self.now }
    {
        if !self.has_term {
            return None;
        }
        Some(self.range.key())
    }

    /// Returns where the postings of the first term are, if there is one.
    pub(crate) fn info(&self) -> Option<&TermInfo>
        ensures { option_map (λ info. info.now) result ≡ first_info self.now }
    {
        if !self.has_term {
            return None;
        }
        Some(self.range.value())
    }

    /// Whether the first term has the value bytes `key`.
    pub(crate) fn begins_with(&self, key: &[u8]) -> bool
        ensures { result ≡ begins_with key.now self.now }
    {
        self.has_term && self.range.key() == key
    }

    /// Removes the first term, if there is one.
    pub(crate) fn advance(&mut self)
        ensures { self.new ≡ drop 1 self.old }
    {
        if self.has_term {
            self.has_term = self.range.advance();
        }
    }
}
