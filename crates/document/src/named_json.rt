//! Stored values as JSON.

ghost use Rattle.std.specs.Prelude.{◌≡◌, IfOk, false, string_bytes};
ghost use Rattle.definitions.specs.Printed.{printed_named};
ghost use Rattle.serde_json.specs.View.{view};
ghost use Rattle.serde_json.specs.Written.{compact_text, has_float};

use crate::named_doc::NamedDocument;
use document_values::values_to_json;
use serde_json::{Map, Value as Json};
use std::alloc::{AllocError, Global};
use std::fmt::{self, Display, Formatter};

impl NamedDocument {
    /// Returns one object, with field names as keys, and a list of values for each.
    pub fn to_json_value(&self, alloc: Global) -> Result<Json, AllocError>
        ensures { IfOk result (λ json. view json ≡ printed_named self.now) }
    {
        let mut members = Map::new(alloc);
        for (name, values) in self.fields().iter().rev() {
            let list = values_to_json(alloc, values.as_slice())?;
            let key = name.clone()?;
            drop(members.insert(key, Json::Array(list))?);
        }
        Ok(Json::Object(members))
    }

    /// Returns that object as text, without blanks.
    fn to_text(&self) -> Result<String, AllocError>
        ensures { IfOk result (λ text. has_float (printed_named self.now) ≡ false
            → string_bytes text ≡ compact_text (printed_named self.now)) }
    {
        let alloc = *self.allocator();
        self.to_json_value(alloc)?.to_string(alloc)
    }
}

/// Shows the document as one JSON object, with field names as keys, and a list of values for each.
///
/// It is put together in memory first: where memory is wanting, nothing is shown, and the error is `fmt::Error`. How the
/// digits of a float are chosen is the toolchain's, whose contract leaves them open.
impl Display for NamedDocument {
    ghost use Rattle.definitions.specs.Printed.{printed_named};
    ghost use Rattle.document.specs.NamedDocs.{shown};

    ghost output = { λ d. shown (printed_named d) };

    fn fmt<W: fmt::Write>(&self, f: &mut Formatter<W>) -> fmt::Result {
        let Ok(text) = self.to_text() else {
            return Err(fmt::Error);
        };
        f.write_str(text.as_str())
    }
}
