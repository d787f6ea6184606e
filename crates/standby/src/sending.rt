//! The thread of a main server that sends its store to a standby.
use crate::connect::{connect, open_link};
use crate::rounds::{Broken, Rounds};
use log::{error, info, warn};
use server_log::ServerLog;
use sessions::Peer;
use std::net::{Net, Shutdown, TcpListener, TcpStream};
use std::sync::{Condvar, Mutex, Wait};
use std::time::{Clock, Duration};
use store_files::KeptFiles;

/// The pause before a connection is tried again, in seconds: after one that broke, and after one that was refused.
const PAUSE: u64 = 1;

const LONG_PAUSE: u64 = 10;

/// The state of the thread that sends: whether it is to end, and its connection, through which it is broken off.
#[derive(Drop)]
struct EndState {
    is_over: bool,
    socket: Option<TcpStream>,
}

/// Ends the thread that sends to a standby.
#[derive(Drop)]
pub struct SendingEnd {
    state: Mutex<EndState>,
    ended: Condvar,
}

impl SendingEnd {
    /// It is not to end.
    pub fn new() -> SendingEnd {
        SendingEnd {
            state: Mutex::new(EndState {
                is_over: false,
                socket: None,
            }),
            ended: Condvar::new(),
        }
    }

    /// The thread ends after one more round.
    pub fn end<R: Wait>(&self, rt: &R) {
        self.state.lock(rt).is_over = true;
        self.ended.notify_all();
    }

    /// The thread ends at once: nothing more is to be reported.
    pub fn break_off<R: Wait>(&self, rt: &R) {
        let mut state = self.state.lock(rt);
        state.is_over = true;
        if let Some(socket) = &state.socket {
            let _ended_already = socket.shutdown(Shutdown::Both);
        }
        drop(state);
        self.ended.notify_all();
    }

    // Returns true if the thread is to end.
    fn is_over<R: Wait>(&self, rt: &R) -> bool {
        self.state.lock(rt).is_over
    }

    // Waits for the pause between two connections, and returns whether the thread is to end.
    fn pause<R: Wait + Clock>(&self, rt: &R, seconds: u64) -> bool {
        let state = self.state.lock(rt);
        let pause = Duration::from_secs(seconds);
        let (state, _late) = self
            .ended
            .wait_timeout_while(rt, state, pause, |state| !state.is_over);
        state.is_over
    }

    // Keeps a second handle of the connection, or none once it has ended.
    fn keep<R: Wait>(&self, rt: &R, socket: Option<TcpStream>) {
        self.state.lock(rt).socket = socket;
    }
}

/// Sends what is synced of the files of a store to a standby, over one connection after the other, until the server ends.
/// `own` is the number of this server, and `peer` the standby's line in the accounts file. A fault is logged with its
/// cause, and not again until a fault of another kind comes or the standby has caught up.
pub fn send_copies<R>(rt: &R, files: KeptFiles<'_>, peer: &Peer, own: u16, end: &SendingEnd)
where
    R: AllocGlobal + Net<Listener = TcpListener, Stream = TcpStream> + Clock + Wait + Eprint,
{
    let mut told = LastTold::Nothing;
    for _ in rt.forever() {
        let broken = send(rt, files, peer, own, end, &mut told);
        end.keep(rt, None);
        match &broken {
            Broken::Over | Broken::StoreFailed => return,
            Broken::Taken => files.give_up(rt),
            _ => {}
        }
        let kind = kind_of(&broken);
        if told != kind {
            tell(rt, peer.number, &broken);
            told = kind;
        }
        let pause = match broken {
            Broken::OtherPast(_) | Broken::Refused { .. } | Broken::Taken => LONG_PAUSE,
            _ => PAUSE,
        };
        if end.pause(rt, pause) {
            return;
        }
    }
}

// The event that was logged last.
#[derive(Clone, Copy, PartialEq, Eq)]
enum LastTold {
    Nothing,
    Connected,
    Off,
    Unread,
    OtherPast,
    Refused(u64),
    Taken,
}

// Makes rounds over one connection, until it breaks.
fn send<R>(
    rt: &R,
    files: KeptFiles<'_>,
    peer: &Peer,
    own: u16,
    end: &SendingEnd,
    told: &mut LastTold,
) -> Broken
where
    R: AllocGlobal + Net<Listener = TcpListener, Stream = TcpStream> + Clock + Wait + Eprint,
{
    match try_send(rt, files, peer, own, end, told) {
        Ok(()) => Broken::Over,
        Err(broken) => broken,
    }
}

// The same; it returns without a fault where the thread is to end.
fn try_send<R>(
    rt: &R,
    files: KeptFiles<'_>,
    peer: &Peer,
    own: u16,
    end: &SendingEnd,
    told: &mut LastTold,
) -> Result<(), Broken>
where
    R: AllocGlobal + Net<Listener = TcpListener, Stream = TcpStream> + Clock + Wait + Eprint,
{
    let alloc = rt.alloc();
    let stream = connect(rt, peer.address.as_str())?;
    end.keep(rt, Some(stream.try_clone()?));
    let mut link = open_link(alloc, stream, own, peer)?;
    let mut rounds = Rounds::begin(rt, alloc, files, &mut link)?;
    let number = peer.number;
    for _ in rt.forever() {
        let is_last = end.is_over(rt);
        let was_alone = rounds.make(rt, alloc, &mut link)?;
        if rounds.has_caught_up() && *told != LastTold::Connected {
            *told = LastTold::Connected;
            info!(ServerLog(rt); "the standby {number} has everything that is stored here");
        }
        if was_alone {
            warn!(ServerLog(rt); "the standby {number} answers again: this server goes on alone no longer");
        }
        if is_last {
            return Ok(());
        }
    }
    Ok(())
}

// The kind of a fault: it is logged again only when this changes.
fn kind_of(broken: &Broken) -> LastTold {
    match broken {
        Broken::Off(_) => LastTold::Off,
        Broken::Unread(_) => LastTold::Unread,
        Broken::OtherPast(_) => LastTold::OtherPast,
        Broken::Refused { code } => LastTold::Refused(*code),
        Broken::Taken => LastTold::Taken,
        Broken::StoreFailed | Broken::Over => LastTold::Nothing,
    }
}

// Logs why no round is made with a standby.
fn tell<R: Clock + Eprint>(rt: &R, number: u16, broken: &Broken) {
    match broken {
        Broken::Off(fault) => warn!(ServerLog(rt); "the standby {number}: {fault}"),
        Broken::Unread(cause) => warn!(ServerLog(rt); "the standby {number}: {cause}"),
        Broken::OtherPast(pad) => {
            let pad = pad.as_str();
            error!(ServerLog(rt); "the standby {number} has another past of the pad {pad}: nothing is sent to it");
        }
        Broken::Refused { code } =>
            error!(ServerLog(rt); "the standby {number} refuses the copy with {code}"),
        Broken::Taken =>
            error!(ServerLog(rt); "the server {number} is no standby: it serves pads itself"),
        Broken::StoreFailed | Broken::Over => {}
    }
}
