//! Short keys as numbers: a key of up to 15 bytes, with zeros after it, and its length in the last of sixteen bytes.
//! Numbers are compared and hashed at once, where the bytes of a key would lie elsewhere. They are hashed by a function
//! that is known to all, so a mask is added to each: who doesn't know it can't choose keys that collide.

ghost use Rattle.std.specs.Prelude.{◌%◌, ◌*◌, ◌+◌, ◌-◌, ◌<◌, ◌^◌, ◌≡◌, ◌≤◌, drop, length, take};
ghost use Rattle.postings_writer.specs.PackedKeys.{IsMasked, IsPacked, key_of, masked, packed, worth};

/// The greatest length of a short key, in bytes.
pub(crate) const MAX_SHORT_LEN: usize = 15;

/// Reads four bytes from offset `at` on as a big-endian number.
fn read_u32(bytes: &[u8], at: usize) -> u64
    requires { at + 4 ≤ length bytes.now }
    ensures { result ≡ worth 0 (take 4 (drop at bytes.now)) }
{
    u64::from(u32::from_be_bytes([bytes[at], bytes[at + 1], bytes[at + 2], bytes[at + 3]]))
}

/// Reads eight bytes from offset `at` on as a big-endian number.
fn read_u64(bytes: &[u8], at: usize) -> u64
    requires { at + 8 ≤ length bytes.now }
    ensures { result ≡ worth 0 (take 8 (drop at bytes.now)) }
{
    u64::from_be_bytes([
        bytes[at],
        bytes[at + 1],
        bytes[at + 2],
        bytes[at + 3],
        bytes[at + 4],
        bytes[at + 5],
        bytes[at + 6],
        bytes[at + 7],
    ])
}

/// Returns the `count` lowest bytes of `n` as the highest of eight, with zeros after them.
fn lowest_first(n: u64, count: usize) -> u64
    requires { count < 8 }
    ensures { result ≡ (n % 256 ^ count) * 256 ^ (8 - count) }
{
    (n << (8 * (7 - count))) << 8
}

/// Reads fewer than four bytes as a big-endian number.
fn read_few(bytes: &[u8]) -> u64
    requires { length bytes.now < 4 }
    ensures { result ≡ worth 0 bytes.now }
{
    let Some(first) = bytes.first() else {
        return 0;
    };
    let mut n = u64::from(*first);
    if bytes.len() > 1 {
        n = n * 256 + u64::from(bytes[1]);
    }
    if bytes.len() > 2 {
        n = n * 256 + u64::from(bytes[2]);
    }
    n
}

/// Reads fewer than eight bytes, with zeros after them; those read twice are left out of the second number.
fn padded(bytes: &[u8]) -> u64
    requires { length bytes.now < 8 }
    ensures { result ≡ worth 0 bytes.now * 256 ^ (8 - length bytes.now) }
{
    let len = bytes.len();
    if len < 4 {
        return lowest_first(read_few(bytes), len);
    }
    (read_u32(bytes, 0) << 32) + (lowest_first(read_u32(bytes, len - 4), len - 4) >> 32)
}

/// Encodes a short key as a number.
#[inline]
fn packed(key: &[u8]) -> u128
    requires { length key.now ≤ 15 }
    ensures is { result ≡ packed key.now }
    ensures packed { IsPacked result }
{
    let len = key.len();
    if len < 8 {
        return (u128::from(padded(key)) << 64) + len as u128;
    }
    let rest = lowest_first(read_u64(key, len - 8), len - 8);
    (u128::from(read_u64(key, 0)) << 64) + u128::from(rest) + len as u128
}

/// Encodes a short key as a number, and adds `mask`.
#[inline]
pub(crate) fn masked(key: &[u8], mask: u128) -> u128
    requires { length key.now ≤ 15 }
    ensures is { result ≡ masked mask (packed key.now) }
    ensures masked { IsMasked mask result }
{
    packed(key).wrapping_add(mask)
}

/// Decodes the key in the bytes of its number, from which the mask is taken off; the last byte is the key's length.
pub(crate) fn key_of(bytes: &[u8; 16]) -> &[u8]
    ensures { result.now ≡ key_of bytes.now }
{
    let len = usize::from(bytes[15]);
    if len > MAX_SHORT_LEN {
        return bytes;
    }
    &bytes[..len]
}
