//! IP addresses read from texts.

ghost use Rattle.std.specs.Prelude.{◌≡◌};
ghost use Rattle.definitions.specs.Addresses.{address_in};

use std::net::{Ipv4Addr, Ipv6Addr};

/// Reads the 128 bits of the address in `text`; an IPv4 address is mapped into IPv6. It is a dotted quad, or eight
/// groups of hexadecimal digits, of which a `::` may replace some and a quad the last two.
pub fn read_address(text: &str) -> Option<u128>
    ensures { result ≡ address_in text.now }
{
    if let Ok(address) = text.parse::<Ipv4Addr>() {
        return Some(address.to_ipv6_mapped().to_bits());
    }
    match text.parse::<Ipv6Addr>() {
        Ok(address) => Some(address.to_bits()),
        Err(_) => None,
    }
}
