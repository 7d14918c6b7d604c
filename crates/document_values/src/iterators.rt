//! Iterators over arrays and objects, and over the pairs of a document.

ghost use Rattle.std.specs.Prelude.{[], ◌≡◌, ◌∷◌, length};
ghost use Rattle.std.specs.Iterator.{YieldsFirstBy, item_count};
ghost use Rattle.definitions.specs.Values.{values_of};
ghost use Rattle.document_values.specs.Docs.{IsWhole, pairs_at};
ghost use Rattle.layouts.specs.DocumentReading.{items_at, take_held, take_member};

use crate::compact_value::CompactDocValue;
use crate::value_reader::{take, take_any, take_last};
use common::{take_text, take_u32};
use std::marker::Model;
use terms::Field;

/// The values of an array, seen as the list of those that are left.
#[derive(Drop)]
pub struct CompactDocArrayIter<'a> {
    tokens: bool,
    depth: usize,
    left: u64,
    bytes: &'a [u8],
}

impl<'a> Model for CompactDocArrayIter<'a> {
    ghost use Rattle.std.specs.Prelude.{List};
    ghost use Rattle.std.specs.Coded.{codes, coded_list};
    ghost use Rattle.definitions.specs.Values.{Value as DocValue};
    ghost use Rattle.document_values.specs.Docs.{IsWhole};
    ghost use Rattle.layouts.specs.DocumentReading.{items_at, take_held};
    ghost use Rattle.document_values.specs.ValueCodesLaws.{value_code};

    ghost Value = { List DocValue };

    ghost coded = { coded_list (value_code (Prim.hlevel codes)) };

    ghost view = { λ i. items_at (take_held i.tokens i.depth) i.left i.bytes.now };

    ghost invariant = { λ i. IsWhole (take_held i.tokens i.depth) i.left i.bytes.now };
}

impl<'a> CompactDocArrayIter<'a> {
    /// Returns an iterator over `left` values, one after another from the first byte on.
    pub(crate) fn new(
        tokens: bool,
        depth: usize,
        left: u64,
        bytes: &'a [u8],
    ) -> CompactDocArrayIter<'a>
        requires { IsWhole (take_held tokens depth) left bytes.now }
        ensures { result ≡ items_at (take_held tokens depth) left bytes.now }
    {
        CompactDocArrayIter {
            tokens,
            depth,
            left,
            bytes,
        }
    }

    /// Returns how many values are left.
    pub(crate) fn count_left(&self) -> u64
        ensures { result ≡ length self.now }
    {
        self.left
    }
}

impl<'a> Iterator for CompactDocArrayIter<'a> {
    ghost use Rattle.document_values.specs.Shown.{value_of};

    type Item = CompactDocValue<'a>;

    ghost next_gives = { YieldsFirstBy value_of (λ rest. rest) };

    ghost remaining = { item_count (λ rest. rest) };

    fn next(&mut self) -> Option<CompactDocValue<'a>> {
        let left = self.left.checked_sub(1)?;
        if left == 0 {
            let value = take_last(self.tokens, self.depth, self.bytes)?;
            self.left = 0;
            return Some(value);
        }
        let (value, rest) = take(self.tokens, self.depth, self.bytes).ok()?;
        self.left = left;
        self.bytes = rest;
        Some(value)
    }
}

/// The members of an object, seen as the list of those that are left.
#[derive(Drop)]
pub struct CompactDocObjectIter<'a> {
    tokens: bool,
    depth: usize,
    left: u64,
    bytes: &'a [u8],
}

impl<'a> Model for CompactDocObjectIter<'a> {
    ghost use Rattle.std.specs.Prelude.{List, ℕ};
    ghost use Rattle.std.specs.Coded.{codes, coded_list, coded_ℕ, coded×};
    ghost use Rattle.definitions.specs.Values.{Value as DocValue};
    ghost use Rattle.document_values.specs.Docs.{IsWhole};
    ghost use Rattle.layouts.specs.DocumentReading.{items_at, take_held, take_member};
    ghost use Rattle.document_values.specs.ValueCodesLaws.{value_code};

    ghost Value = { List (List ℕ × DocValue) };

    ghost coded = { coded_list (coded× (coded_list coded_ℕ) (value_code (Prim.hlevel codes))) };

    ghost view = { λ i. items_at (take_member (take_held i.tokens i.depth)) i.left i.bytes.now };

    ghost invariant = { λ i. IsWhole (take_member (take_held i.tokens i.depth)) i.left i.bytes.now };
}

impl<'a> CompactDocObjectIter<'a> {
    /// Returns an iterator over `left` members, one after another from the first byte on.
    pub(crate) fn new(
        tokens: bool,
        depth: usize,
        left: u64,
        bytes: &'a [u8],
    ) -> CompactDocObjectIter<'a>
        requires { IsWhole (take_member (take_held tokens depth)) left bytes.now }
        ensures { result ≡ items_at (take_member (take_held tokens depth)) left bytes.now }
    {
        CompactDocObjectIter {
            tokens,
            depth,
            left,
            bytes,
        }
    }

    /// Returns how many members are left.
    pub(crate) fn count_left(&self) -> u64
        ensures { result ≡ length self.now }
    {
        self.left
    }
}

impl<'a> Iterator for CompactDocObjectIter<'a> {
    ghost use Rattle.document_values.specs.Shown.{value_of};

    type Item = (&'a str, CompactDocValue<'a>);

    ghost next_gives = { YieldsFirstBy (λ item. (item.0.now, value_of item.1)) (λ rest. rest) };

    ghost remaining = { item_count (λ rest. rest) };

    fn next(&mut self) -> Option<(&'a str, CompactDocValue<'a>)> {
        let left = self.left.checked_sub(1)?;
        let (key, behind) = take_text(self.bytes).ok()?;
        if left == 0 {
            let value = take_last(self.tokens, self.depth, behind)?;
            self.left = 0;
            return Some((key, value));
        }
        let (value, rest) = take(self.tokens, self.depth, behind).ok()?;
        self.left = left;
        self.bytes = rest;
        Some((key, value))
    }
}

/// The pairs of a document, seen as the list of those that are left.
#[derive(Drop)]
pub struct FieldValueIterRef<'a> {
    left: usize,
    bytes: &'a [u8],
}

impl<'a> Model for FieldValueIterRef<'a> {
    ghost use Rattle.std.specs.Coded.{codes, coded_list, coded_ℕ, coded×};
    ghost use Rattle.definitions.specs.Values.{Document};
    ghost use Rattle.document_values.specs.Docs.{pairs_at};
    ghost use Rattle.document_values.specs.ValueCodesLaws.{value_code};

    ghost Value = { Document };

    ghost coded = { coded_list (coded× coded_ℕ (value_code (Prim.hlevel codes))) };

    ghost view = { λ i. pairs_at i.left i.bytes.now };
}

impl<'a> FieldValueIterRef<'a> {
    /// Returns an iterator over `left` pairs, one after another from the first byte on.
    pub fn new(left: usize, bytes: &'a [u8]) -> FieldValueIterRef<'a>
        ensures { result ≡ pairs_at left bytes.now }
    {
        FieldValueIterRef { left, bytes }
    }
}

impl<'a> Iterator for FieldValueIterRef<'a> {
    ghost use Rattle.document_values.specs.Shown.{value_of};

    type Item = (Field, CompactDocValue<'a>);

    ghost next_gives = { YieldsFirstBy (λ item. (item.0, value_of item.1)) (λ rest. rest) };

    ghost remaining = { item_count (λ rest. rest) };

    fn next(&mut self) -> Option<(Field, CompactDocValue<'a>)> {
        let left = self.left.checked_sub(1)?;
        let (field, behind) = take_u32(self.bytes).ok()?;
        let (value, rest) = take_any(behind).ok()?;
        self.left = left;
        self.bytes = rest;
        Some((Field::from_field_id(field), value))
    }
}

/// The values of one field, seen as the list of those that are left.
#[derive(Drop)]
pub struct ValuesOfField<'a> {
    field: Field,
    pairs: FieldValueIterRef<'a>,
}

impl<'a> Model for ValuesOfField<'a> {
    ghost use Rattle.std.specs.Prelude.{List};
    ghost use Rattle.std.specs.Coded.{codes, coded_list};
    ghost use Rattle.definitions.specs.Values.{Value as DocValue, values_of};
    ghost use Rattle.document_values.specs.ValueCodesLaws.{value_code};

    ghost Value = { List DocValue };

    ghost coded = { coded_list (value_code (Prim.hlevel codes)) };

    ghost view = { λ i. values_of i.field i.pairs };
}

impl<'a> ValuesOfField<'a> {
    /// Returns an iterator over the values of `field` among `pairs`.
    pub fn new(field: Field, pairs: FieldValueIterRef<'a>) -> ValuesOfField<'a>
        ensures { result ≡ values_of field pairs.entry }
    {
        ValuesOfField { field, pairs }
    }
}

impl<'a> Iterator for ValuesOfField<'a> {
    ghost use Rattle.document_values.specs.Shown.{value_of};

    type Item = CompactDocValue<'a>;

    ghost next_gives = { YieldsFirstBy value_of (λ rest. rest) };

    ghost remaining = { item_count (λ rest. rest) };

    fn next(&mut self) -> Option<CompactDocValue<'a>> {
        while let Some((field, value)) = self.pairs.next() {
            if field == self.field {
                return Some(value);
            }
        }
        None
    }
}
