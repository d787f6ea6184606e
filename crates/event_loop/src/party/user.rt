//! The user of a browser's request, whom a proxy names: the session of its socket is that user's.
ghost use Rattle.std.specs.Prelude.{◌≡◌, None, Ok, IfOk, IfSome, OnErr, OnOk, option_map};
ghost use Rattle.event_loop.specs.Answered.{Told, TurnedAway, Upgraded, closed};
ghost use Rattle.event_loop.specs.Party.{IsStopped};
ghost use Rattle.event_loop.specs.Users.{SignsIn};
ghost use Rattle.event_loop.specs.declared.protocol.Protocol.TheVariants as protocol;
ghost use Rattle.web_wire.specs.PageRequests.{Exchange};

use crate::byte_socket::ByteSocket;
use crate::party::Party;
use crate::protocol::Protocol;
use crate::request_user::{Authors, RequestUser, user_line, user_of_request, words_of};
use pad_model::Who;
use sessions::{Accounts, Session, Stranger};
use std::alloc::{AllocError, Global};
use std::mem;
use web_wire::{Next, PageRequest, Parts};

impl<K: ByteSocket> Party<K> {
    // The response opens a socket, once it is admitted. Its session is that of the user whom the request names; one who is
    // no author is refused. If memory runs out, the client is over.
    pub(super) fn upgrade(&mut self, alloc: Global, accounts: &Accounts) -> Result<Next, AllocError>
        ensures { (exchange : Exchange) → self.old.protocol ≡ protocol.PageRequest exchange
            → Upgraded accounts.now exchange result self.old self.new }
    {
        let Protocol::PageRequest(request) = mem::replace(&mut self.protocol, Protocol::Over) else {
            return Ok(Next::Read);
        };
        match sign_in(alloc, accounts, request.user(), &mut self.session) {
            Ok(None) => {
                self.protocol = Protocol::Upgrading(request);
                Ok(Next::Socket)
            }
            Ok(Some(stranger)) => self.turn_away(request, stranger),
            Err(error) => {
                self.stop();
                Err(error)
            }
        }
    }

    // Answers who the user of the request is. If memory runs out, the client is over.
    pub(super) fn tell_user(
        &mut self,
        alloc: Global,
        authors: Authors<'_>,
    ) -> Result<Next, AllocError>
        ensures { (exchange : Exchange) → self.old.protocol ≡ protocol.PageRequest exchange
            → Told authors.entry.accounts.now authors.entry.replica exchange result self.old self.new }
    {
        let Protocol::PageRequest(mut request) = mem::replace(&mut self.protocol, Protocol::Over)
        else {
            return Ok(Next::Read);
        };
        let told = match user_line(alloc, authors, request.user()) {
            Ok(Ok(line)) => request.tell_user(line.as_bytes()),
            Ok(Err(stranger)) => return self.turn_away(request, stranger),
            Err(error) => Err(error),
        };
        self.close_told(request, told)
    }

    // Refuses a request whose user is no author, and says why. If memory runs out, the client is over.
    fn turn_away(
        &mut self,
        mut request: PageRequest,
        stranger: Stranger,
    ) -> Result<Next, AllocError>
        ensures { TurnedAway result self.old self.new }
    {
        let told = request.refuse_user(words_of(&stranger));
        self.keep_stranger(stranger);
        self.close_told(request, told)
    }

    // Keeps why the user is no author, for the worker.
    fn keep_stranger(&mut self, stranger: Stranger)
        ensures { self.new ≡ self.old }
    {
        self.stranger = Some(stranger);
    }

    /// Takes why the user of the request was no author, if it was refused for that.
    pub(crate) fn take_stranger(&mut self) -> Option<Stranger>
        ensures { self.new ≡ self.old }
    {
        mem::replace(&mut self.stranger, None)
    }

    // The response is to be written, and nothing more is read. Without one, the client is over.
    fn close_told(
        &mut self,
        request: PageRequest,
        told: Result<Next, AllocError>,
    ) -> Result<Next, AllocError>
        ensures same { result ≡ told }
        ensures ok { OnOk told (self.new ≡ closed self.old request.output) }
        ensures err { OnErr told (IsStopped self.old self.new) }
    {
        if told.is_err() {
            self.stop();
            return told;
        }
        let Parts { output, .. } = request.into_parts();
        self.close_with(output);
        told
    }
}

// Makes a session that of the author whom the accounts give for a user, if there is one. Returns why they give none, if there
// is a user. If so, or if memory runs out, the session stays as it was.
fn sign_in(
    alloc: Global,
    accounts: &Accounts,
    user: Option<&[u8]>,
    session: &mut Session,
) -> Result<Option<Stranger>, AllocError>
    ensures signs { result ≡ Ok None → SignsIn accounts.now (option_map (λ u. u.now) user.entry)
        session.old.who session.new.who
        × (session.new ≡ record session.old { who = session.new.who }) }
    ensures stays { IfOk result (λ found. IfSome found (λ _. session.new ≡ session.old)) }
    ensures err { OnErr result (session.new ≡ session.old) }
{
    match user_of_request(alloc, accounts, user)? {
        RequestUser::Nobody => Ok(None),
        RequestUser::Author(name) => {
            session.set(Who::Author(name));
            Ok(None)
        }
        RequestUser::Stranger(stranger) => Ok(Some(stranger)),
    }
}
