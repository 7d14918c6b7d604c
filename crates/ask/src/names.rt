//! Names of fields, as they are shown.

use serde_json::Value as Json;
use std::alloc::{AllocError, Global};

/// Appends the name of a field, as JSON where it has characters that could move a terminal's cursor.
pub(crate) fn push_name(out: &mut String, alloc: Global, name: &str) -> Result<(), AllocError> {
    if name.as_bytes().iter().any(|byte| byte.is_ascii_control()) {
        let json = Json::try_from_str(alloc, name)?;
        return out.push_str(&json.to_string(alloc)?);
    }
    out.push_str(name)
}
