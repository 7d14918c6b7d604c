//! JSON texts.

ghost use Rattle.std.specs.Prelude.{◌≡◌, IfOk, option_map};
ghost use Rattle.serde_json.specs.Read.{read};
ghost use Rattle.serde_json.specs.View.{view};

use serde_json::Value as Json;
use std::alloc::{AllocError, Global};

/// Parses `text`; `None` if it isn't JSON.
pub fn parse_json(alloc: Global, text: &str) -> Result<Option<Json>, AllocError>
    ensures { IfOk result (λ found. option_map view found ≡ read text.now) }
{
    match Json::from_str(alloc, text) {
        Ok(json) => Ok(Some(json)),
        Err(e) if e.is_memory() => Err(AllocError),
        Err(_) => Ok(None),
    }
}
