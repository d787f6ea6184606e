//! The origins that `--web-origin` takes.
ghost use Rattle.std.specs.Prelude.{◌≡◌, false, IfSome, option_map};
ghost use Rattle.std.specs.List.{list_all};
ghost use Rattle.pad_server.specs.Origins.{host_of, is_host_byte, is_origin};

/// The first of these texts, which are separated by commas, that no browser sends as an origin.
pub fn wrong_origin(origins: &str) -> Option<&str>
    ensures { IfSome result (λ wrong. is_origin wrong.now ≡ false) }
{
    for origin in origins.split(',') {
        let origin = origin.trim();
        if !is_origin(origin) {
            return Some(origin);
        }
    }
    None
}

// Returns true if a text is an origin as a browser sends it: a scheme, a host, and perhaps a port.
fn is_origin(text: &str) -> bool
    ensures { result ≡ is_origin text.now }
{
    match host_of(text.as_bytes()) {
        Some(host) => !host.is_empty() && are_host_bytes(host),
        None => false,
    }
}

fn are_host_bytes(host: &[u8]) -> bool
    ensures { result ≡ list_all is_host_byte host.now }
{
    host.iter().all(|byte| is_host_byte(*byte))
}

// The text after the scheme.
fn host_of(text: &[u8]) -> Option<&[u8]>
    ensures { option_map (λ host. host.now) result ≡ host_of text.now }
{
    match text.strip_prefix(b"https://") {
        Some(host) => Some(host),
        None => text.strip_prefix(b"http://"),
    }
}

// Returns true if a byte may stand in a host or a port.
fn is_host_byte(byte: u8) -> bool
    ensures { result ≡ is_host_byte byte }
{
    byte.is_ascii_alphanumeric() || matches!(byte, b'-' | b'.' | b'_' | b':' | b'[' | b']')
}
