//! One request over HTTP: for a page, for the socket, or for who its user is.
ghost use Rattle.std.specs.Prelude.{◌≡◌, ◌⊎◌, ◌≤◌, [], ◌∷◌, ◌++◌, true, drop, length, map, string_bytes, take, Contains, Ok, OnOk, OnErr, IfOk, option_map, None};
ghost use Rattle.http1.specs.Conn.{unread_size};
ghost use Rattle.http1.specs.Server.{reading};
ghost use Rattle.httparse.specs.Grammar.{HasNoRequest};
ghost use Rattle.httparse.specs.Spans.{IsRequestWithin, span_bytes};
ghost use Rattle.websocket.specs.Headers.{fields_of};
ghost use Rattle.web_wire.specs.PageRequests.{AsksUser, Grows, HasReason, IfRefused, IsKnown, IsPlanned, IsRefused, KeepsPage, PutsUser, TellsStatus, has_bytes, request_limits, OpensSocket, Responds, ServesPage};
ghost use Rattle.web_wire.specs.Users.{may_name, user_of};

use crate::page::{Page, Site};
use crate::plan::{Plan, plan_of};
use crate::reply::{
    put_page, put_refusal, put_stranger, put_unchanged, put_unread, put_upgrade, put_user,
};
use crate::user::copied_user;
use http1::{BodySize, Event, Limits, Server, WriteError};
use httparse::spans::{EMPTY_HEADER_SPAN, HeaderSpan, RequestSpans};
use std::alloc::{AllocError, Global};
use std::marker::Model;
use wire_lines::drop_front;

/// The most bytes of a request's head.
pub const LONGEST_HEAD: usize = 8_192;

// The most fields of a head.
const MOST_FIELDS: usize = 64;

/// The next step of the connection.
#[derive(Clone, Copy, Debug, PartialEq, Eq)]
pub enum Next {
    /// More bytes are needed.
    Read,
    /// Send the output, then close the connection. The number is the status of the response.
    Close(u16),
    /// Send the output. Then the connection is a socket, whose first bytes are the unused ones. If its user is no author,
    /// `refuse_user` refuses it in place of that.
    Socket,
    /// The request asks who its user is: `tell_user` or `refuse_user` answers it.
    User,
}

/// The bytes of a page request that has ended.
#[derive(Drop)]
pub struct Parts {
    /// The unused bytes; after a handshake, the first ones of the socket.
    pub input: Vec<u8>,
    /// The bytes that have to be sent.
    pub output: Vec<u8>,
}

/// A connection up to the response to its one request.
#[derive(Drop)]
pub struct PageRequest {
    input: Vec<u8>,
    output: Vec<u8>,
    /// The user that the request names, once its head was read.
    user: Option<Vec<u8>>,
}

impl Model for PageRequest {
    ghost use Rattle.std.specs.Prelude.{option_map};
    ghost use Rattle.web_wire.specs.PageRequests.{Exchange};

    ghost Value = { Exchange };

    ghost view = { λ r. record {
      input = r.input.items;
      output = r.output.items;
      user = option_map (λ u. u.items) r.user;
    } };
}

impl PageRequest {
    /// A page request without bytes.
    pub fn new(alloc: Global) -> PageRequest
        ensures { result ≡ record { input = []; output = []; user = None } }
    {
        PageRequest {
            input: Vec::new(alloc),
            output: Vec::new(alloc),
            user: None,
        }
    }

    /// Appends bytes to those that arrived; if memory runs out, none of them.
    pub fn feed(&mut self, bytes: &[u8]) -> Result<(), AllocError>
        ensures ok { OnOk result (self.new
            ≡ record self.old { input = self.old.input ++ bytes.now }) }
        ensures err { OnErr result (self.new ≡ self.old) }
    {
        self.input.extend_from_slice(bytes)
    }

    /// The bytes that have to be sent.
    pub fn output(&self) -> &[u8]
        ensures { result.now ≡ self.now.output }
    {
        self.output.as_slice()
    }

    /// The user that an answered request names.
    pub fn user(&self) -> Option<&[u8]>
        ensures { option_map (λ user. user.now) result ≡ self.now.user }
    {
        match &self.user {
            Some(user) => Some(user.as_slice()),
            None => None,
        }
    }

    /// Returns the bytes of a page request that has ended.
    pub fn into_parts(self) -> Parts
        ensures input { result.input.items ≡ self.input }
        ensures output { result.output.items ≡ self.output }
    {
        let PageRequest { input, output, .. } = self;
        Parts { input, output }
    }

    /// Appends a refusal whatever the request is, because the server is full.
    pub fn refuse(&mut self) -> Result<Next, AllocError>
        ensures closes { IfOk result (λ next. (next ≡ Next.Close 503) ⊎ (next ≡ Next.Close 500)) }
        ensures told { IfRefused result (TellsStatus self.old.output self.new.output) }
        ensures err { OnErr result (self.new ≡ self.old) }
        ensures input { self.new.input ≡ self.old.input }
        ensures grows { Grows self.old.output self.new.output }
    {
        self.refuse_unread(503)
    }

    /// Appends who the user of the request is, in this text of JSON.
    pub fn tell_user(&mut self, text: &[u8]) -> Result<Next, AllocError>
        ensures closes { IfOk result (λ next. (next ≡ Next.Close 200) ⊎ (next ≡ Next.Close 500)) }
        ensures told { result ≡ Ok (Next.Close 200)
            → PutsUser text.now self.old.output self.new.output }
        ensures failed { result ≡ Ok (Next.Close 500) → self.new ≡ self.old }
        ensures err { OnErr result (self.new ≡ self.old) }
    {
        let before = self.output.len();
        let put = put_user(&mut self.output, text);
        self.settle(before, put, Next::Close(200))
    }

    /// Refuses the request because its user is not an author, and gives the reason: its words follow the user's name.
    /// The refusal replaces any response to it. If memory runs out, there is none.
    pub fn refuse_user(&mut self, why: &[u8]) -> Result<Next, AllocError>
        ensures closes { IfOk result (λ next. (next ≡ Next.Close 403) ⊎ (next ≡ Next.Close 500)) }
        ensures told { IfRefused result (TellsStatus [] self.new.output) }
        ensures err { OnErr result (self.new.output ≡ []) }
    {
        self.output.clear();
        let user = match &self.user {
            Some(user) => user.as_slice(),
            None => &[],
        };
        let put = put_stranger(&mut self.output, user, why);
        self.settle(0, put, Next::Close(403))
    }

    /// Answers the request once its head has arrived. A handshake becomes a socket only if `has_room` is true. `kept` is
    /// served beside the pages of the site, before any of them that has its path. `from` is the number of the address that
    /// the request comes from: the user that it names is taken only from a proxy of the site, and from elsewhere a request
    /// that names one is refused.
    ///
    /// If memory runs out, nothing changes, and it may be called again.
    pub fn answer(
        &mut self,
        alloc: Global,
        site: Site<'_>,
        kept: &Page,
        has_room: bool,
        from: u128,
    ) -> Result<Next, AllocError>
        ensures waits { result ≡ Ok Next.Read
            → (self.new ≡ self.old) × HasNoRequest self.old.input }
        ensures socket { result ≡ Ok Next.Socket → (has_room ≡ true)
            × OpensSocket (map string_bytes site.entry.origins.now) site.entry.users from self.old self.new }
        ensures user { result ≡ Ok Next.User → AsksUser site.entry.users from self.old self.new }
        ensures page { result ≡ Ok (Next.Close 200)
            → ServesPage (kept.now ∷ site.entry.pages.now) site.entry.users from self.old self.new }
        ensures unchanged { result ≡ Ok (Next.Close 304)
            → KeepsPage (kept.now ∷ site.entry.pages.now) site.entry.users from self.old self.new }
        ensures known { IfOk result IsKnown }
        ensures refused { IfRefused result
            (HasReason (kept.now ∷ site.entry.pages.now) (map string_bytes site.entry.origins.now)
            has_room site.entry.users from self.old self.new) }
        ensures told { IfRefused result (TellsStatus self.old.output self.new.output) }
        ensures err { OnErr result (self.new ≡ self.old) }
    {
        let mut spans = [EMPTY_HEADER_SPAN; MOST_FIELDS];
        let mut server = Server::new(limits());
        let read = match server.read(self.input.as_slice(), &mut spans) {
            Ok(read) => read,
            Err(error) => return self.refuse_unread(error.status().max(400)),
        };
        match read.event {
            Event::Head(head) => {
                let user = self.copied_user(alloc, &head, &spans, site)?;
                let found = self.plan(&server, &head, &spans, site, kept, has_room, from);
                match self.respond(&mut server, found) {
                    Ok(next) => {
                        self.take_head(read.consumed, user);
                        Ok(next)
                    }
                    Err(error) => Err(error),
                }
            }
            Event::NeedMore => Ok(Next::Read),
            _ => self.refuse_unread(400),
        }
    }

    // A copy of the user that the head of a request names.
    fn copied_user(
        &self,
        alloc: Global,
        head: &RequestSpans,
        spans: &[HeaderSpan],
        site: Site<'_>,
    ) -> Result<Option<Vec<u8>>, AllocError>
        requires { IsRequestWithin self.now.input spans.now head.now }
        ensures { IfOk result (λ copy. option_map (λ user. user.items) copy ≡ user_of site.entry.users
            (fields_of self.now.input (take head.now.headers spans.now))) }
    {
        let fields = &spans[..head.headers];
        copied_user(alloc, site.users, self.input.as_slice(), fields)
    }

    // Returns the plan for a request from this address.
    fn plan<'a>(
        &self,
        server: &Server,
        head: &RequestSpans,
        spans: &[HeaderSpan],
        site: Site<'a>,
        kept: &'a Page,
        has_room: bool,
        from: u128,
    ) -> Plan<'a>
        requires { IsRequestWithin self.now.input spans.now head.now }
        ensures { IsPlanned (kept.now ∷ site.entry.pages.now) (map string_bytes site.entry.origins.now) has_room
            (may_name site.entry.users from (fields_of self.now.input (take head.now.headers spans.now)))
            (has_bytes (unread_size (reading server.now)))
            (span_bytes self.now.input head.now.method)
            (span_bytes self.now.input head.now.path) head.now.version
            (fields_of self.now.input (take head.now.headers spans.now)) result }
    {
        let has_body = has_bytes(server.unread_size());
        plan_of(
            self.input.as_slice(),
            head,
            spans,
            site,
            kept,
            has_body,
            has_room,
            from,
        )
    }

    // Appends the response.
    fn respond(&mut self, server: &mut Server, plan: Plan<'_>) -> Result<Next, AllocError>
        requires { IsRefused plan }
        ensures { Responds server.old plan.entry self.old result self.new }
    {
        let before = self.output.len();
        let output = &mut self.output;
        match plan {
            Plan::Page(page, whole) => {
                let put = put_page(server, output, page, whole);
                self.settle(before, put, Next::Close(200))
            }
            Plan::Unchanged(page) => {
                let put = put_unchanged(server, output, page);
                self.settle(before, put, Next::Close(304))
            }
            Plan::Refused(status, whole) => {
                let put = put_refusal(server, output, status, whole);
                self.settle(before, put, Next::Close(status))
            }
            Plan::Socket(key) => {
                let put = put_upgrade(output, &key);
                self.settle(before, put, Next::Socket)
            }
            Plan::User => Ok(Next::User),
        }
    }

    // Drops the head of the request, and keeps its user.
    fn take_head(&mut self, len: usize, user: Option<Vec<u8>>)
        requires { len ≤ length self.old.input }
        ensures { self.new ≡ record {
          input = drop len self.old.input;
          output = self.old.output;
          user = option_map (λ u. u.items) user;
        } }
    {
        drop_front(&mut self.input, len);
        self.user = user;
    }

    // Refuses bytes that are not a request.
    fn refuse_unread(&mut self, status: u16) -> Result<Next, AllocError>
        ensures told { IfRefused result (TellsStatus self.old.output self.new.output) }
        ensures err { OnErr result (self.new ≡ self.old) }
        ensures closes { IfOk result (λ next. (next ≡ Next.Close status)
            ⊎ (next ≡ Next.Close 500)) }
        ensures input { self.new.input ≡ self.old.input }
        ensures grows { Grows self.old.output self.new.output }
    {
        let before = self.output.len();
        let put = put_unread(&mut self.output, status);
        self.settle(before, put, Next::Close(status))
    }

    // Returns what comes after a response, and removes one that was not written whole.
    fn settle(
        &mut self,
        before: usize,
        put: Result<(), WriteError>,
        next: Next,
    ) -> Result<Next, AllocError>
        ensures ok { OnOk put ((result ≡ Ok next) × (self.new ≡ self.old)) }
        ensures undone { OnErr put (self.new
            ≡ record self.old { output = take before self.old.output }) }
        ensures failed { OnErr put (IfOk result (λ said. said ≡ Next.Close 500)) }
    {
        match put {
            Ok(()) => Ok(next),
            Err(error) => {
                self.output.truncate(before);
                if error == WriteError::OutOfMemory {
                    Err(AllocError)
                } else {
                    Ok(Next::Close(500))
                }
            }
        }
    }
}

// Returns true if a body has bytes, or may have some.
fn has_bytes(size: BodySize) -> bool
    ensures { result ≡ has_bytes size }
{
    match size {
        BodySize::Empty => false,
        BodySize::Known(len) => len != 0,
        BodySize::Unknown => true,
    }
}

// The limits of a request.
fn limits() -> Limits
    ensures { result ≡ request_limits }
{
    Limits {
        max_head_len: LONGEST_HEAD,
        max_extensions_len: 64,
        max_trailers_len: 64,
    }
}
