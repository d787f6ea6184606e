//! The copies sent to a standby, and the peer that gets them.
use crate::opened::Opened;
use crate::settings::Settings;
use event_loop::Hub;
use group_commit::Confirm;
use log::info;
use server_log::ServerLog;
use sessions::Peer;
use standby::{SendingEnd, send_copies};
use std::alloc::Global;
use std::net::{Net, TcpListener, TcpStream};
use std::sync::Wait;
use std::time::Clock;
use store_files::{Keeper, KeptFiles};

/// The copies sent to the standby, and the peer that gets them.
#[derive(Drop)]
pub struct Sender<'a> {
    pub keeper: &'a Keeper,
    peer: &'a Peer,
    own: u16,
    /// The condition that replies wait for.
    confirm: Confirm,
    pub end: SendingEnd,
}

/// The sender to the standby of the settings; None: there is none, or no store.
pub fn sender_of<'a>(opened: &'a Opened, asked: Settings<'_>) -> Option<Sender<'a>> {
    let standby = asked.standby?;
    Some(Sender {
        keeper: opened.keeper.as_ref()?,
        peer: opened.peer(standby.number)?,
        own: asked.replica,
        confirm: standby.confirm,
        end: SendingEnd::new(),
    })
}

impl Sender<'_> {
    /// Returns true if nobody is to be served before the standby has everything.
    pub fn is_strict(&self) -> bool {
        self.confirm == Confirm::Strict
    }

    /// Waits until the standby has everything, where nobody is to be served before. Returns true if the server may
    /// serve.
    pub fn wait<R: Wait + Clock + Eprint>(&self, rt: &R) -> bool {
        if self.is_strict() {
            let number = self.peer.number;
            info!(ServerLog(rt); "nobody is served before the standby {number} has everything that is stored here");
        }
        self.keeper.wait_for_copy(rt)
    }

    /// Sends to the standby until it is ended. If the standby is lost meanwhile, the whole server is stopped.
    pub fn send<R>(&self, rt: &R, hub: &Hub)
    where
        R: AllocGlobal + Net<Listener = TcpListener, Stream = TcpStream> + Clock + Wait + Eprint,
    {
        send_copies(
            rt,
            KeptFiles::new(self.keeper),
            self.peer,
            self.own,
            &self.end,
        );
        if self.keeper.has_failed() {
            hub.stop();
        }
    }
}
