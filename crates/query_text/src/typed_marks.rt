//! Marks that are typed, and the bytes that they are read as.

ghost use Rattle.std.specs.Prelude.{◌<◌, ◌≡◌, ◌≤◌, IfOk, length, map};
ghost use Rattle.query_text.specs.TypedMarks as definitions;

use std::alloc::{AllocError, Global};

/// Lists the bytes that `text` is read as, each with its offset there: typed quotation marks are read as `"`, and
/// spaces past ASCII as a space.
pub(crate) fn signs_of(alloc: Global, text: &[u8]) -> Result<Vec<(usize, u8)>, AllocError>
    ensures { IfOk result (λ signs. signs.items ≡ definitions.signs_of text.now) }
{
    let mut signs = Vec::with_capacity(alloc, text.len())?;
    let mut next = 0;
    for offset in 0..text.len() {
        if next <= offset {
            let (byte, width) = sign_of(&text[offset..]);
            signs.push((offset, byte))?;
            next = offset + width;
        }
    }
    Ok(signs)
}

/// Returns the byte that the beginning of `text` is read as, and how many bytes it takes.
fn sign_of(text: &[u8]) -> (u8, usize)
    requires { 0 < length text.now }
    ensures sign { result ≡ definitions.sign_of text.now }
    ensures few { result.1 ≤ 3 }
{
    if begins_high_quote(text) {
        return (b'"', 3);
    }
    if begins_pointed_quote(text) {
        return (b'"', 2);
    }
    if text.starts_with(b"\xc2\xa0") {
        return (b' ', 2);
    }
    if text.starts_with(b"\xe3\x80\x80") {
        return (b' ', 3);
    }
    (text[0], 1)
}

/// Whether `text` begins with U+201C, U+201D or U+201E.
fn begins_high_quote(text: &[u8]) -> bool
    ensures { result ≡ definitions.begins_high_quote text.now }
{
    text.starts_with(b"\xe2\x80\x9c")
        || text.starts_with(b"\xe2\x80\x9d")
        || text.starts_with(b"\xe2\x80\x9e")
}

/// Whether `text` begins with U+00AB or U+00BB.
fn begins_pointed_quote(text: &[u8]) -> bool
    ensures { result ≡ definitions.begins_pointed_quote text.now }
{
    text.starts_with(b"\xc2\xab") || text.starts_with(b"\xc2\xbb")
}

/// Returns the text that `signs` are.
pub(crate) fn plain_text(alloc: Global, signs: &[(usize, u8)]) -> Result<Vec<u8>, AllocError>
    ensures { IfOk result (λ plain. plain.items ≡ map (λ s. s.1) signs.now) }
{
    let mut plain = Vec::with_capacity(alloc, signs.len())?;
    for sign in signs {
        plain.push(sign.1)?;
    }
    Ok(plain)
}

/// Returns the offset in `text`, whose signs are `signs`, of what stands at `place` in the text that it is read as.
pub(crate) fn offset_in(text: &[u8], signs: &[(usize, u8)], place: usize) -> usize
    requires { signs.now ≡ definitions.signs_of text.now }
    ensures { result ≡ definitions.offset_in text.now place }
{
    match signs.get(place) {
        Some((offset, _byte)) => *offset,
        None => text.len(),
    }
}
