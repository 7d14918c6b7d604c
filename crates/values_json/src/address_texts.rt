//! IP addresses printed as texts.

ghost use Rattle.std.specs.Prelude.{◌%◌, ◌++◌, ◌/◌, ◌<◌, ◌^◌, ◌≡◌, IfOk, OnOk, false, string_bytes};
ghost use Rattle.std.specs.Fmt.{digits};
ghost use Rattle.definitions.specs.Addresses.{address_text, groups_text, quad_text};

use std::alloc::{AllocError, Global};

/// The bits above the 32 bits of an IPv4 address that is mapped into IPv6.
const MAPPED: u128 = 0xffff;

/// The length of the longest text of an address: eight groups of four digits, and seven colons.
const MAX_LEN: usize = 39;

/// The numbers of bits below each group but the first.
const LATER_SHIFTS: [u32; 7] = [96, 80, 64, 48, 32, 16, 0];

/// Prints the address of 128 bits: a mapped IPv4 address as a dotted quad, any other as eight groups of lower-case
/// hexadecimal digits without leading zeros, with colons between them.
pub fn address_text(alloc: Global, address: u128) -> Result<String, AllocError>
    ensures { IfOk result (λ text. string_bytes text ≡ address_text address) }
{
    if address >> 32 == MAPPED {
        return quad_text(alloc, (address % (1 << 32)) as u32);
    }
    groups_text(alloc, address)
}

/// Prints an IPv4 address as a dotted quad.
fn quad_text(alloc: Global, address: u32) -> Result<String, AllocError>
    ensures { IfOk result (λ text. string_bytes text ≡ quad_text address) }
{
    let [a, b, c, d] = address.to_be_bytes();
    format!(in alloc; "{a}.{b}.{c}.{d}")
}

/// Prints an address as eight groups.
fn groups_text(alloc: Global, address: u128) -> Result<String, AllocError>
    ensures { IfOk result (λ text. string_bytes text ≡ groups_text address) }
{
    let mut text = String::with_capacity(alloc, MAX_LEN)?;
    push_group(&mut text, address, 112)?;
    for shift in &LATER_SHIFTS {
        text.push_str(":")?;
        push_group(&mut text, address, *shift)?;
    }
    Ok(text)
}

/// Appends the group of `address` that has `shift` bits below it.
fn push_group(text: &mut String, address: u128, shift: u32) -> Result<(), AllocError>
    requires { shift < 128 }
    ensures { OnOk result (string_bytes text.new
        ≡ string_bytes text.old ++ digits 16 false (address / 2 ^ shift % 2 ^ 16)) }
{
    let group = ((address >> shift) % (1 << 16)) as u16;
    write!(text, "{group:x}")
}
