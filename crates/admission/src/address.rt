//! Addresses, as the limits by address see them.
ghost use Rattle.std.specs.Prelude.{◌≡◌, ◌*◌, ◌/◌, ◌^◌, ⊤};
ghost use Rattle.std.specs.Net.Addr.{IsIpv4Mapped, MatchIp, ipv4_bits, ipv6_bits, ipv6_segments};

use std::net::IpAddr;

// The number of IPv6 addresses that have the same first 64 bits.
const NETWORK: u128 = 0x1_0000_0000_0000_0000;

/// The key of an address: an IPv4 address has its own, and all IPv6 addresses with the same first 64 bits have one,
/// since one client can have all of these. An IPv4 address that is written as one of IPv6 has the key that it has
/// otherwise.
pub fn key_of(address: IpAddr) -> u128
    ensures { MatchIp address (λ own. result ≡ ipv4_bits own) (λ own. ¬ (IsIpv4Mapped (ipv6_segments own))
        → result ≡ (ipv6_bits own / 2 ^ 64) * 2 ^ 64) }
{
    match address {
        IpAddr::V4(own) => u128::from(own.to_bits()),
        IpAddr::V6(own) => match own.to_ipv4_mapped() {
            Some(own) => u128::from(own.to_bits()),
            None => own.to_bits() / NETWORK * NETWORK,
        },
    }
}
