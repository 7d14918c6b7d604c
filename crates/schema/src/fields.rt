//! An iterator over the fields of a schema.

ghost use Rattle.std.specs.Prelude.{length, ◌+◌, ◌≡◌, ◌≤◌};
ghost use Rattle.std.specs.Iterator.{YieldsFirstBy, item_count};
ghost use Rattle.std.specs.List.{enumerate_from};
ghost use Rattle.definitions.specs.Schema.{max_fields};

use crate::field_entry::FieldEntry;
use std::marker::Model;
use terms::Field;

/// An iterator over the fields of a schema with their entries. Its model is the list of those that are left.
#[derive(Drop)]
pub struct Fields<'a> {
    entries: &'a [FieldEntry],
    next: usize,
}

impl<'a> Model for Fields<'a> {
    ghost use Rattle.std.specs.Prelude.{List, length, ◌+◌, ◌≤◌, ℕ};
    ghost use Rattle.std.specs.List.{enumerate_from};
    ghost use Rattle.definitions.specs.Schema.{Entry, max_fields};

    ghost Value = { List (ℕ × Entry) };

    ghost view = { λ fields. enumerate_from fields.next fields.entries.now };

    ghost invariant = { λ fields. fields.next + length fields.entries.now ≤ max_fields };
}

impl<'a> Fields<'a> {
    pub(crate) fn new(entries: &'a [FieldEntry]) -> Fields<'a>
        requires { length entries.now ≤ max_fields }
        ensures { result ≡ enumerate_from 0 entries.now }
    {
        Fields { entries, next: 0 }
    }
}

impl<'a> Iterator for Fields<'a> {
    type Item = (Field, &'a FieldEntry);

    ghost next_gives = { YieldsFirstBy (λ item. (item.0, item.1.now)) (λ rest. rest) };

    ghost remaining = { item_count (λ rest. rest) };

    fn next(&mut self) -> Option<(Field, &'a FieldEntry)> {
        let (entry, entries) = self.entries.split_first()?;
        let field = Field::from_field_id(self.next as u32);
        self.entries = entries;
        self.next += 1;
        Some((field, entry))
    }
}
