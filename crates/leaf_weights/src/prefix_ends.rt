//! The end of the bytes that begin with a prefix.

ghost use Rattle.std.specs.Prelude.{◌≡◌, IfOk, option_map};
ghost use Rattle.definitions.specs.Prefixes.{prefix_end};

use std::alloc::{AllocError, Global};

/// Returns the least bytes above all that begin with `prefix`; `None` if there are none.
pub fn prefix_end(alloc: Global, prefix: &[u8]) -> Result<Option<Vec<u8>>, AllocError>
    ensures { IfOk result (λ end. option_map (λ bytes. bytes.items) end ≡ prefix_end prefix.now) }
{
    let mut end = Vec::with_capacity(alloc, prefix.len())?;
    end.extend_from_slice(prefix)?;
    while let Some(last) = end.pop() {
        if last < u8::MAX {
            end.push(last + 1)?;
            return Ok(Some(end));
        }
    }
    Ok(None)
}
