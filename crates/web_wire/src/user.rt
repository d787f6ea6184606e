//! The user of a request, if a proxy that people log in to names one.
ghost use Rattle.std.specs.Prelude.{◌≡◌, ◌+◌, All, IfOk, length, option_map};
ghost use Rattle.std.specs.Net.Addr.{MatchIp, ipv4_bits, ipv6_bits};
ghost use Rattle.httparse.specs.Spans.{IsHeaderWithin};
ghost use Rattle.websocket.specs.Headers.{fields_of};
ghost use Rattle.web_wire.specs.Users.{is_proxy, may_name, user_of};
ghost use Rattle.web_wire.specs.declared.user.TheConstants.{MAPPED};

use crate::field::{field, is_single};
use crate::page::UserHeader;
use httparse::spans::HeaderSpan;
use std::alloc::{AllocError, Global};
use std::net::IpAddr;

// The number of the address 0.0.0.0 where it is written as one of IPv6.
const MAPPED: u128 = 0xFFFF_0000_0000;

/// The number of an address: an IPv4 address has that of its form in IPv6, so no two others have one number.
pub fn address_number(address: IpAddr) -> u128
    ensures { MatchIp address (λ own. result ≡ MAPPED + ipv4_bits own) (λ own. result ≡ ipv6_bits own) }
{
    match address {
        IpAddr::V4(own) => MAPPED + u128::from(own.to_bits()),
        IpAddr::V6(own) => own.to_bits(),
    }
}

/// Returns true if a request from this address may name the user that its fields name: it names none, or one alone and
/// comes from a proxy.
pub(crate) fn may_name(
    users: Option<UserHeader<'_>>,
    from: u128,
    input: &[u8],
    fields: &[HeaderSpan],
) -> bool
    requires { All (IsHeaderWithin (length input.now)) fields.now }
    ensures { result ≡ may_name users.entry from (fields_of input.now fields.now) }
{
    let Some(header) = users else {
        return true;
    };
    let name = header.name.as_bytes();
    is_single(input, fields, name)
        && (field(input, fields, name).is_none() || is_proxy(header.proxies, from))
}

// Returns true if an address is that of a proxy.
fn is_proxy(proxies: &[u128], from: u128) -> bool
    ensures { result ≡ is_proxy proxies.now from }
{
    proxies.iter().any(|one| *one == from)
}

/// The user that the fields of a request name.
pub(crate) fn user_of<'b>(
    users: Option<UserHeader<'_>>,
    input: &'b [u8],
    fields: &[HeaderSpan],
) -> Option<&'b [u8]>
    requires { All (IsHeaderWithin (length input.now)) fields.now }
    ensures { option_map (λ user. user.now) result
        ≡ user_of users.entry (fields_of input.now fields.now) }
{
    let header = users?;
    field(input, fields, header.name.as_bytes())
}

/// A copy of the user that the fields of a request name.
pub(crate) fn copied_user(
    alloc: Global,
    users: Option<UserHeader<'_>>,
    input: &[u8],
    fields: &[HeaderSpan],
) -> Result<Option<Vec<u8>>, AllocError>
    requires { All (IsHeaderWithin (length input.now)) fields.now }
    ensures { IfOk result (λ copy. option_map (λ user. user.items) copy
        ≡ user_of users.entry (fields_of input.now fields.now)) }
{
    let Some(user) = user_of(users, input, fields) else {
        return Ok(None);
    };
    let mut copy = Vec::new(alloc);
    copy.extend_from_slice(user)?;
    Ok(Some(copy))
}
