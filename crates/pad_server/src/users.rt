//! The values of `--user-header` and `--trusted-proxy`.
ghost use Rattle.std.specs.Prelude.{◌≡◌};
ghost use Rattle.std.specs.List.{list_all};
ghost use Rattle.pad_server.specs.Users.{is_field_name, is_name_byte};

use std::net::IpAddr;

/// The most proxies that `--trusted-proxy` names.
pub const MAX_PROXIES: usize = 16;

/// An error in the addresses of `--trusted-proxy`.
#[derive(Clone, Copy)]
pub enum ProxyMistake<'a> {
    /// This is no address.
    NoAddress(&'a str),
    /// There are more than `MAX_PROXIES`.
    TooMany,
}

/// The error in these addresses, which are separated by commas; None if there is none.
pub fn proxy_mistake(proxies: &str) -> Option<ProxyMistake<'_>> {
    for (index, proxy) in proxies.split(',').enumerate() {
        let proxy = proxy.trim();
        if proxy.parse::<IpAddr>().is_err() {
            return Some(ProxyMistake::NoAddress(proxy));
        }
        if index >= MAX_PROXIES {
            return Some(ProxyMistake::TooMany);
        }
    }
    None
}

/// Returns true if a text may be the name of a field of a request.
pub fn is_field_name(name: &str) -> bool
    ensures { result ≡ is_field_name name.now }
{
    let bytes = name.as_bytes();
    !bytes.is_empty() && are_name_bytes(bytes)
}

fn are_name_bytes(bytes: &[u8]) -> bool
    ensures { result ≡ list_all is_name_byte bytes.now }
{
    bytes.iter().all(|byte| is_name_byte(*byte))
}

// Returns true if a byte may stand in the name of a field.
fn is_name_byte(byte: u8) -> bool
    ensures { result ≡ is_name_byte byte }
{
    byte.is_ascii_alphanumeric() || matches!(byte, b'-' | b'_')
}
