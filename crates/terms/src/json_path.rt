//! Paths of keys in terms of JSON fields.

ghost use Rattle.std.specs.Prelude.{[], ◌++◌, ◌∷◌, ◌≡◌, ◌≢◌, List, OnOk, false, map, ℕ};
ghost use Rattle.definitions.specs.JsonLeaves.{has_zero};
ghost use Rattle.definitions.specs.Terms.{key_bytes, path_of_keys};
ghost use Rattle.terms.specs.JsonPaths.{keys_from, keys_in};

use std::alloc::AllocError;

/// The separator of two keys.
const KEY_SEP: u8 = 1;

/// Whether `key` contains a byte 0. Since 0 ends the path in a term, no path has such a key.
pub fn has_zero(key: &str) -> bool
    ensures { result ≡ has_zero key.now }
{
    key.as_bytes().contains(&0)
}

/// Appends the path of the keys in the path text `path`.
pub(crate) fn push_path(
    bytes: &mut Vec<u8>,
    path: &str,
    expand_dots: bool,
) -> Result<(), AllocError>
    ensures { OnOk result (bytes.new.items ≡ bytes.old.items ++ path_of_keys expand_dots (keys_in path.now)) }
{
    let mut escaped = false;
    for byte in path.as_bytes() {
        if !escaped && *byte == b'\\' {
            escaped = true;
        } else {
            bytes.push(path_byte(*byte, escaped, expand_dots))?;
            escaped = false;
        }
    }
    Ok(())
}

/// Appends the path of `keys`.
pub(crate) fn push_keys(
    bytes: &mut Vec<u8>,
    keys: &[&str],
    expand_dots: bool,
) -> Result<(), AllocError>
    ensures { OnOk result (bytes.new.items
        ≡ bytes.old.items ++ path_of_keys expand_dots (map (λ key. key.now) keys.now)) }
{
    for (i, key) in keys.iter().enumerate() {
        if i > 0 {
            bytes.push(KEY_SEP)?;
        }
        push_key(bytes, key, expand_dots)?;
    }
    Ok(())
}

/// Appends a key.
fn push_key(bytes: &mut Vec<u8>, key: &str, expand_dots: bool) -> Result<(), AllocError>
    ensures { OnOk result (bytes.new.items ≡ bytes.old.items ++ key_bytes expand_dots key.now) }
{
    for byte in key.as_bytes() {
        bytes.push(key_byte(*byte, expand_dots))?;
    }
    Ok(())
}

/// Converts a byte of a path text that isn't an escaping backslash to a byte of the path.
fn path_byte(byte: u8, escaped: bool, expand_dots: bool) -> u8
    requires { escaped ≡ false → byte ≢ 92 }
    ensures { (rest : List ℕ) → path_of_keys expand_dots (keys_from escaped (byte ∷ rest)) ≡ result
        ∷ path_of_keys expand_dots (keys_from false rest) }
{
    if !escaped && byte == b'.' {
        return KEY_SEP;
    }
    key_byte(byte, expand_dots)
}

/// Converts a byte of a key to a byte of the path; with `expand_dots` a dot separates keys.
fn key_byte(byte: u8, expand_dots: bool) -> u8
    ensures { key_bytes expand_dots (byte ∷ []) ≡ result ∷ [] }
{
    if expand_dots && byte == b'.' {
        KEY_SEP
    } else {
        byte
    }
}
