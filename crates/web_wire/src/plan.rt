//! The plan for the answer to a request.
ghost use Rattle.std.specs.Prelude.{◌≡◌, ◌≤◌, ◌∷◌, All, Contains, IfNone, IfSome, true, false, length, take, map, string_bytes};
ghost use Rattle.std.specs.List.{position};
ghost use Rattle.httparse.specs.Spans.{IsHeaderWithin, IsRequestWithin, span_bytes};
ghost use Rattle.websocket.specs.Headers.{fields_of};
ghost use Rattle.web_wire.specs.PageRequests.{IfSocket, IsNoPage, IsPlanned, MayOpen, has_copy, has_page, is_query, path_of};
ghost use Rattle.web_wire.specs.Tags.{is_tag, names_tag, strong, trimmed};
ghost use Rattle.web_wire.specs.Users.{may_name};

use crate::field::{field, is_single};
use crate::origin::may_connect;
use crate::page::{Page, Site};
use crate::user::may_name;
use httparse::spans::{HeaderSpan, RequestSpans};
use websocket::handshake::HandshakeError;
use websocket::handshake::server::check_request;

// The path of the socket.
const SOCKET: &[u8] = b"/socket";

// The path at which a client asks for its user.
const ME: &[u8] = b"/me";

/// The answer that a request is to get.
#[derive(Clone, Copy)]
pub(crate) enum Plan<'a> {
    /// A page: whole, or only its head.
    Page(&'a Page, bool),
    /// The client's copy of a page is up to date.
    Unchanged(&'a Page),
    /// The socket, with the key that answers the client's.
    Socket([u8; 28]),
    /// The user of the request.
    User,
    /// A refusal with this status: in words, or only its head.
    Refused(u16, bool),
}

/// Returns the plan for a request from this address.
pub(crate) fn plan_of<'a>(
    input: &[u8],
    head: &RequestSpans,
    spans: &[HeaderSpan],
    site: Site<'a>,
    kept: &'a Page,
    has_body: bool,
    has_room: bool,
    from: u128,
) -> Plan<'a>
    requires { IsRequestWithin input.now spans.now head.now }
    ensures { IsPlanned (kept.now ∷ site.entry.pages.now) (map string_bytes site.entry.origins.now) has_room
        (may_name site.entry.users from (fields_of input.now (take head.now.headers spans.now)))
        has_body
        (span_bytes input.now head.now.method)
        (span_bytes input.now head.now.path) head.now.version
        (fields_of input.now (take head.now.headers spans.now)) result }
{
    let method = head.method.of(input);
    if !may_name(site.users, from, input, &spans[..head.headers]) {
        return Plan::Refused(403, method != b"HEAD".as_slice());
    }
    if method != b"GET".as_slice() && method != b"HEAD".as_slice() {
        return Plan::Refused(405, true);
    }
    let whole = method == b"GET".as_slice();
    if has_body {
        return Plan::Refused(413, whole);
    }
    let path = path_of(head.path.of(input));
    if (path == SOCKET || path == ME) && !whole {
        return Plan::Refused(400, whole);
    }
    if path == SOCKET {
        return socket_plan(input, head, spans, site.origins, has_room);
    }
    if path == ME {
        return Plan::User;
    }
    let Some(page) = find_served(kept, site.pages, path) else {
        return Plan::Refused(404, whole);
    };
    if has_copy(input, &spans[..head.headers], page) {
        return Plan::Unchanged(page);
    }
    Plan::Page(page, whole)
}

// Returns the plan for a request for the socket.
fn socket_plan(
    input: &[u8],
    head: &RequestSpans,
    spans: &[HeaderSpan],
    allowed: &[String],
    has_room: bool,
) -> Plan<'static>
    requires { IsRequestWithin input.now spans.now head.now }
    ensures socket { IfSocket result (λ key. (has_room ≡ true)
        × MayOpen (map string_bytes allowed.now)
        (span_bytes input.now head.now.method)
        head.now.version (fields_of input.now (take head.now.headers spans.now)) key) }
    ensures no_page { IsNoPage result ((answer : _) → MayOpen (map string_bytes allowed.now)
        (span_bytes input.now head.now.method) head.now.version
        (fields_of input.now (take head.now.headers spans.now)) answer → has_room ≡ false) }
{
    let fields = &spans[..head.headers];
    let origin = field(input, fields, b"Origin");
    let host = field(input, fields, b"Host");
    if !is_single(input, fields, b"Origin") || !may_connect(origin, host, allowed) {
        return Plan::Refused(403, true);
    }
    match check_request(input, head, spans) {
        Ok(key) if has_room => Plan::Socket(key),
        Ok(_) => Plan::Refused(503, true),
        Err(error) => Plan::Refused(status_of(error), true),
    }
}

// The status of a request that is not a handshake.
fn status_of(error: HandshakeError) -> u16
    ensures { 400 ≤ result }
{
    match error {
        HandshakeError::MissingConnectionUpgradeHeader
        | HandshakeError::MissingUpgradeWebSocketHeader
        | HandshakeError::MissingSecWebSocketVersionHeader => 426,
        _ => 400,
    }
}

// The path of a target: everything before a question mark.
fn path_of(target: &[u8]) -> &[u8]
    ensures { result.now ≡ path_of target.now }
{
    match find_query(target) {
        Some(end) => &target[..end],
        None => target,
    }
}

// The index of the question mark of a target.
fn find_query(target: &[u8]) -> Option<usize>
    ensures { result ≡ position is_query target.now }
{
    target.iter().position(|byte| *byte == b'?')
}

// The page with a path: `kept`, or else the first of the others.
fn find_served<'a>(kept: &'a Page, pages: &'a [Page], path: &[u8]) -> Option<&'a Page>
    ensures none { IfNone result (has_page (kept.now ∷ pages.now) path.now ≡ false) }
    ensures some { IfSome result (λ page. Contains (kept.now ∷ pages.now) page.now
        × (page.now.path.now ≡ path.now)) }
{
    if kept.path.as_bytes() == path {
        Some(kept)
    } else {
        find_page(pages, path)
    }
}

// The first page with a path.
fn find_page<'a>(pages: &'a [Page], path: &[u8]) -> Option<&'a Page>
    ensures none { IfNone result (has_page pages.now path.now ≡ false) }
    ensures some { IfSome result (λ page. Contains pages.now page.now
        × (page.now.path.now ≡ path.now)) }
{
    for page in pages {
        if page.path.as_bytes() == path {
            return Some(page);
        }
    }
    None
}

// Returns true if a request names the tag of a page as that of its copy.
fn has_copy(input: &[u8], fields: &[HeaderSpan], page: &Page) -> bool
    requires { All (IsHeaderWithin (length input.now)) fields.now }
    ensures { result ≡ has_copy (fields_of input.now fields.now) page.now }
{
    match field(input, fields, b"If-None-Match") {
        None => false,
        Some(tags) => has_tag(tags, page.tag.as_bytes()),
    }
}

// Returns true if a list of tags names this one. A weak tag matches too, and so does an asterisk.
fn has_tag(tags: &[u8], tag: &[u8]) -> bool
    ensures { result ≡ names_tag tags.now tag.now }
{
    tags.split(|byte| *byte == b',').any(|one| is_tag(one, tag))
}

// Returns true if a part of a list of tags is an asterisk, or this tag, which may be weak there.
fn is_tag(part: &[u8], tag: &[u8]) -> bool
    ensures { result ≡ is_tag part.now tag.now }
{
    let one = trimmed(part);
    one == b"*".as_slice() || strong(one) == tag
}

// A text without the white space at either end.
fn trimmed(text: &[u8]) -> &[u8]
    ensures { result.now ≡ trimmed text.now }
{
    text.trim_ascii()
}

// A tag without the mark of a weak one.
fn strong(tag: &[u8]) -> &[u8]
    ensures { result.now ≡ strong tag.now }
{
    match tag.strip_prefix(b"W/".as_slice()) {
        None => tag,
        Some(rest) => rest,
    }
}
