//! A serializer of the lengths of fields.

ghost use Rattle.std.specs.Prelude.{List, ◌++◌, ◌≡◌, OnOk, ℕ};
ghost use Rattle.layouts.specs.FieldNorms.{field_norms_bytes};

use common::put_u32;
use std::alloc::AllocError;
use std::marker::Model;

/// The bytes of a section, field by field.
#[derive(Drop)]
pub struct FieldNormsSerializer {
    out: Vec<u8>,
}

impl Model for FieldNormsSerializer {
    ghost Value = { List ℕ };

    ghost view = { λ s. s.out.items };
}

impl FieldNormsSerializer {
    /// Returns a serializer that appends to `write`.
    pub fn from_write(write: Vec<u8>) -> FieldNormsSerializer
        ensures { result ≡ write.items }
    {
        FieldNormsSerializer { out: write }
    }

    /// Appends a field with one length id for each document.
    pub fn serialize_field(&mut self, field: u32, ids: &[u8]) -> Result<(), AllocError>
        ensures { OnOk result (self.new ≡ self.old ++ field_norms_bytes (field, ids.now)) }
    {
        put_u32(&mut self.out, field)?;
        self.out.extend_from_slice(ids)
    }

    /// Returns the bytes.
    pub fn close(self) -> Vec<u8>
        ensures { result.items ≡ self }
    {
        self.out
    }
}
