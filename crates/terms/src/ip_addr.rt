//! IP addresses of 128 bits.

ghost use Rattle.std.specs.Prelude.{◌≡◌, ℕ};
ghost use Rattle.std.specs.Net.Addr.{ipv6_bits};
ghost use Rattle.terms.specs.IpAddrs.{address_bits};

use std::net::{IpAddr, Ipv6Addr};

/// A type of IP addresses that have 128 bits.
pub trait IntoIpv6Addr {
    /// The address as a number.
    ghost bits: { Self → ℕ };

    /// Converts to an IPv6 address; an IPv4 address is mapped into IPv6.
    fn into_ipv6_addr(self) -> Ipv6Addr
        ensures { ipv6_bits result ≡ bits self };
}

impl IntoIpv6Addr for IpAddr {
    ghost bits = { address_bits };

    fn into_ipv6_addr(self) -> Ipv6Addr {
        match self {
            IpAddr::V4(addr) => addr.to_ipv6_mapped(),
            IpAddr::V6(addr) => addr,
        }
    }
}
