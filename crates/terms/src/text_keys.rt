//! Value bytes of terms of texts.

ghost use Rattle.std.specs.Prelude.{◌==◌, ◌≡◌};
ghost use Rattle.std.specs.List.{after_first, position};
ghost use Rattle.definitions.specs.Schema.{json_kind};
ghost use Rattle.terms.specs.Kinds.{kind_of};
ghost use Rattle.terms.specs.TextKeys.{is_text_key};

use crate::field_type::Type;
use crate::term::PATH_END;

/// The code before the tokens of texts in JSON objects.
const TEXT_CODE: u8 = b's';

impl Type {
    /// Whether `value_bytes` are those of a text's term in a field of this type. In a JSON field the code after the
    /// path says so.
    pub fn is_text_value(self, value_bytes: &[u8]) -> bool
        ensures { result ≡ is_text_key (kind_of self) value_bytes.now }
    {
        match self {
            Type::Str => true,
            Type::Json => is_text_leaf(value_bytes),
            _ => false,
        }
    }
}

/// Whether the value bytes of a JSON term are a text's: the code of texts is after the path.
fn is_text_leaf(key: &[u8]) -> bool
    ensures { result ≡ is_text_key json_kind key.now }
{
    match leaf_of(key).first() {
        Some(code) => *code == TEXT_CODE,
        None => false,
    }
}

/// Returns the bytes after the path.
fn leaf_of(key: &[u8]) -> &[u8]
    ensures { result.now ≡ after_first (◌==◌ 0) key.now }
{
    match path_end(key) {
        Some(end) => &key[end + 1..],
        None => &[],
    }
}

/// Returns the index of the byte that ends the path.
fn path_end(key: &[u8]) -> Option<usize>
    ensures { result ≡ position (◌==◌ 0) key.now }
{
    key.iter().position(|byte| *byte == PATH_END)
}
