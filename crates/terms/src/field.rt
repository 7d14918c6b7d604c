//! Fields by their numbers.

ghost use Rattle.std.specs.Prelude.{◌≡◌, ℕ};

use std::marker::Model;

/// A field of a schema, by its number there.
#[derive(Clone, Copy, Debug, PartialEq, Eq, PartialOrd, Ord, Hash)]
pub struct Field(u32);

impl Model for Field {
    ghost Value = { ℕ };

    ghost view = { λ f. f.0 };

    ghost inverse = { λ n. record { 0 = n } };
}

impl Field {
    /// Makes the field with the number `field_id`, whether or not a schema has it.
    pub const fn from_field_id(field_id: u32) -> Field
        ensures { result ≡ field_id }
    {
        Field(field_id)
    }

    /// Returns the field's number.
    pub const fn field_id(self) -> u32
        ensures { result ≡ self }
    {
        self.0
    }
}
