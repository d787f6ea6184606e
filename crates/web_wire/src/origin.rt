//! The pages that may open the socket. A browser names the origin of the page that asks; other clients name none.
ghost use Rattle.std.specs.Prelude.{◌≡◌, map, option_map, string_bytes};
ghost use Rattle.std.specs.List.{list_any};
ghost use Rattle.websocket.specs.Headers.{eq_ignore_case};
ghost use Rattle.web_wire.specs.PageRequests.{is_at, is_own, may_connect};

use crate::field::is_same;

/// Returns true if a request with this origin and host may open the socket.
pub(crate) fn may_connect(origin: Option<&[u8]>, host: Option<&[u8]>, allowed: &[String]) -> bool
    ensures { result ≡ may_connect (option_map (λ o. o.now) origin.entry)
        (option_map (λ h. h.now) host.entry) (map string_bytes allowed.now) }
{
    match origin {
        None => true,
        Some(origin) => is_own(origin, host) || is_allowed(origin, allowed),
    }
}

// Returns true if an origin is that of the requested host.
fn is_own(origin: &[u8], host: Option<&[u8]>) -> bool
    ensures { result ≡ is_own origin.now (option_map (λ h. h.now) host.entry) }
{
    match host {
        None => false,
        Some(host) => is_at(origin, b"http://", host) || is_at(origin, b"https://", host),
    }
}

// Returns true if an origin consists of this scheme and this host.
fn is_at(origin: &[u8], scheme: &[u8], host: &[u8]) -> bool
    ensures { result ≡ is_at scheme.now origin.now host.now }
{
    match origin.strip_prefix(scheme) {
        Some(rest) => !host.is_empty() && is_same(rest, host),
        None => false,
    }
}

// Returns true if an origin is in the list.
fn is_allowed(origin: &[u8], allowed: &[String]) -> bool
    ensures { result ≡ list_any (λ one. eq_ignore_case origin.now one)
        (map string_bytes allowed.now) }
{
    for one in allowed {
        if is_same(origin, one.as_bytes()) {
            return true;
        }
    }
    false
}
