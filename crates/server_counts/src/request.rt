//! The requests of the address of the status.
ghost use Rattle.std.specs.Prelude.{◌≡◌, option_map};
ghost use Rattle.server_counts.specs.Requests.{asked_by, page_of, unversioned};

/// The pages that can be requested.
#[derive(Clone, Copy)]
pub enum StatusPage {
    /// `/healthz`: the health of the server.
    Health,
    /// `/kept`: the number of machines that keep what is answered.
    Kept,
    /// `/metrics`: all numbers.
    Metrics,
}

/// A request, by the page that it asks for.
#[derive(Clone, Copy)]
pub enum StatusRequest {
    /// `GET` or `HEAD` of a page.
    Page { page: StatusPage, is_head: bool },
    /// `GET` or `HEAD` of another path.
    NoPage { is_head: bool },
    /// Another method.
    NoMethod,
    /// It is no request of HTTP/1.0 or HTTP/1.1.
    NoRequest,
}

/// Returns the request of a first line without the line's end, such as `GET /healthz HTTP/1.1`.
pub fn asked_by(line: &[u8]) -> StatusRequest
    ensures { result ≡ asked_by line.now }
{
    let Some(words) = unversioned(line) else {
        return StatusRequest::NoRequest;
    };
    if let Some(target) = words.strip_prefix(b"GET ") {
        return page_of(target, false);
    }
    if let Some(target) = words.strip_prefix(b"HEAD ") {
        return page_of(target, true);
    }
    StatusRequest::NoMethod
}

// The line without its version; None if it has no version that is known.
fn unversioned(line: &[u8]) -> Option<&[u8]>
    ensures { option_map (λ words. words.now) result ≡ unversioned line.now }
{
    match line.strip_suffix(b" HTTP/1.1") {
        Some(words) => Some(words),
        None => line.strip_suffix(b" HTTP/1.0"),
    }
}

// The page that a target names.
fn page_of(target: &[u8], is_head: bool) -> StatusRequest
    ensures { result ≡ page_of target.now is_head }
{
    let page = if target == b"/healthz".as_slice() {
        StatusPage::Health
    } else if target == b"/kept".as_slice() {
        StatusPage::Kept
    } else if target == b"/metrics".as_slice() {
        StatusPage::Metrics
    } else {
        return StatusRequest::NoPage { is_head };
    };
    StatusRequest::Page { page, is_head }
}

/// The first line of a request's bytes, without its end.
pub fn first_line(bytes: &[u8]) -> &[u8] {
    let line = match bytes.iter().position(|byte| *byte == b'\n') {
        Some(end) => bytes.get(..end).unwrap_or(bytes),
        None => bytes,
    };
    line.strip_suffix(b"\r").unwrap_or(line)
}

/// Returns true if a request's head is whole: an empty line ends it.
pub fn has_whole_head(bytes: &[u8]) -> bool {
    bytes.windows(4).any(|four| four == b"\r\n\r\n".as_slice())
        || bytes.windows(2).any(|two| two == b"\n\n".as_slice())
}
