//! Leaves printed as JSON.

ghost use Rattle.std.specs.Prelude.{◌≡◌, IfOk};
ghost use Rattle.definitions.specs.Printed.{printed};
ghost use Rattle.serde_json.specs.View.{view};
ghost use Rattle.values_json.specs.Leaves.{value_of};

use crate::address_texts::address_text;
use crate::bytes::bytes_text;
use crate::date_texts::date_text;
use crate::leaf::Leaf;
use serde_json::Value as Json;
use std::alloc::{AllocError, Global};

/// Prints `leaf` as JSON: dates, facets, byte strings and addresses as texts.
pub fn leaf_to_json(alloc: Global, leaf: &Leaf) -> Result<Json, AllocError>
    ensures { IfOk result (λ json. view json ≡ printed (value_of leaf.now)) }
{
    match leaf {
        Leaf::Str(text) => Ok(Json::String(String::from_str(alloc, text.as_str())?)),
        Leaf::U64(n) => Ok(Json::from(*n)),
        Leaf::I64(n) => Ok(Json::from(*n)),
        Leaf::Bool(b) => Ok(Json::Bool(*b)),
        Leaf::Date(date) => Ok(Json::String(date_text(alloc, *date)?)),
        Leaf::Facet(facet) => Ok(Json::String(facet.to_path_string(alloc)?)),
        Leaf::Bytes(bytes) => Ok(Json::String(bytes_text(alloc, bytes.as_slice())?)),
        Leaf::IpAddr(address) => Ok(Json::String(address_text(alloc, *address)?)),
    }
}
