//! A server with ann, her pad `p`, and a peer.
ghost use Rattle.std.specs.Prelude.{◌≤◌};

use crate::replies::is_refusal;
use block_seq::BlockSeq;
use pad_core::{Reply, Request};
use pad_model::Refusal;
use presence::DEFAULT_PRESENT;
use server_core::{Moved, Server, Step};
use sessions::Accounts;
use std::alloc::Global;
use wire_json::{read_request, reply_line};

/// The session of ann.
pub const ANN: u32 = 0;

/// The session of a peer.
pub const PEER: u32 = 1;

const HELLO: &str = r#"{"do":"hello","name":"ann","token":"t"}"#;

/// The error for a step that was not answered. No reply refuses with it.
const NO_ANSWER: Refusal = Refusal::Busy;

/// A server and its two sessions.
#[derive(Drop)]
pub struct TestServer {
    alloc: Global,
    server: Server<BlockSeq>,
}

fn make_server(alloc: Global, replica: u16) -> Result<Server<BlockSeq>, Refusal>
    requires { 1 ≤ replica }
{
    let text = b"author ann t\npeer 9 t host:1\n";
    let Ok(accounts) = Accounts::read(alloc, text) else {
        return Err(Refusal::Memory);
    };
    Server::new(alloc, replica, DEFAULT_PRESENT, 1, accounts)
}

impl TestServer {
    /// A server with this number, on which ann has created `p`, and a peer has logged in.
    pub fn new(alloc: Global, replica: u16) -> Result<TestServer, Refusal>
        requires { 1 ≤ replica }
    {
        let server = make_server(alloc, replica)?;
        let mut rig = TestServer { alloc, server };
        rig.begin()?;
        Ok(rig)
    }

    fn begin(&mut self) -> Result<(), Refusal> {
        self.open_ann()?;
        self.tell(ANN, r#"{"do":"create","pad":"p"}"#)?;
        self.server.open(self.alloc)?;
        self.tell(PEER, r#"{"do":"peer","number":9,"token":"t","version":2}"#)
    }

    /// Makes a request, and returns its reply line, including the LF.
    pub fn say(&mut self, session: u32, line: &str) -> Result<String, Refusal> {
        let reply = match read_request(self.alloc, line.as_bytes()) {
            Ok(request) => self.answer(session, request),
            Err(refusal) => Err(refusal),
        };
        reply_line(self.alloc, &reply)
    }

    fn answer(&mut self, session: u32, request: Request) -> Result<Reply, Refusal> {
        let mut moved = self.server.step(self.alloc, session, &Step::Ask(request));
        for _ in 0..u64::MAX {
            match moved {
                Moved::Scanning => moved = self.server.step(self.alloc, session, &Step::Move),
                Moved::Done(reply) => return Ok(reply),
                Moved::Refused(refusal) => return Err(refusal),
                Moved::Idle | Moved::Named(_) => return Err(NO_ANSWER),
            }
        }
        Err(NO_ANSWER)
    }

    /// Opens one more session of ann.
    pub fn open_ann(&mut self) -> Result<u32, Refusal> {
        let session = self.server.open(self.alloc)?;
        self.tell(session, HELLO)?;
        Ok(session)
    }

    /// Makes a request, whatever the reply is.
    pub fn tell(&mut self, session: u32, line: &str) -> Result<(), Refusal> {
        let _reply = self.say(session, line)?;
        Ok(())
    }

    /// Makes a request, and returns whether it is refused.
    pub fn refuses(&mut self, session: u32, line: &str) -> Result<bool, Refusal> {
        let reply = self.say(session, line)?;
        Ok(is_refusal(reply.as_str()))
    }
}
