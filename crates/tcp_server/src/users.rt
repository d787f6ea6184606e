//! The proxies that name the user of a request.
ghost use Rattle.std.specs.Prelude.{◌≡◌, [], ◌∷◌, None, IfOk};
ghost use Rattle.tcp_server.specs.declared.users.TheConstants.{LOOPBACK};

use crate::settings::Settings;
use std::alloc::{AllocError, Global};
use std::net::IpAddr;
use web_wire::{UserHeader, address_number};

/// The number of the address 127.0.0.1, at which a proxy on the same machine connects.
const LOOPBACK: u128 = 0xFFFF_7F00_0001;

/// The numbers of the addresses of the proxies that the settings name, separated by commas; without the option, that of
/// 127.0.0.1. What is no address is left out: the command line has none.
pub fn proxies_of(alloc: Global, asked: Settings<'_>) -> Result<Vec<u128>, AllocError>
    ensures { asked.entry.trusted_proxies ≡ None → IfOk result (λ proxies. proxies.items ≡ LOOPBACK ∷ []) }
{
    let mut proxies = Vec::new(alloc);
    let Some(all) = asked.trusted_proxies else {
        proxies.push(LOOPBACK)?;
        return Ok(proxies);
    };
    for word in all.split(',') {
        if let Ok(address) = word.trim().parse::<IpAddr>() {
            proxies.push(address_number(address))?;
        }
    }
    Ok(proxies)
}

/// These proxies name users in the field with this name.
pub fn users_of<'a>(name: &'a str, proxies: &'a [u128]) -> UserHeader<'a>
    ensures { result ≡ record { name = name.entry; proxies = proxies.entry } }
{
    UserHeader { name, proxies }
}
