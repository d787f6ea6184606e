//! Connects to a standby.
use crate::link::StandbyLink;
use crate::rounds::Broken;
use relay::{PeerLines, greet};
use sessions::Peer;
use std::alloc::Global;
use std::io;
use std::io::ErrorKind;
use std::net::{Net, TcpListener, TcpStream, ToSocketAddrs};
use std::time::Duration;
use wire_lines::{Std, Watched};

/// The time for which a main server waits for its standby, in seconds: to connect, for each answer, and for each round
/// to be taken.
const PATIENCE: u64 = 10;

/// A link to a standby over a socket.
pub type SocketLink = StandbyLink<Std<Watched<TcpStream>>, Std<Watched<TcpStream>>>;

/// Connects to the first address that answers, with time limits for reading and writing.
pub fn connect<R>(rt: &R, address: &str) -> io::Result<TcpStream>
where
    R: Net<Listener = TcpListener, Stream = TcpStream>,
{
    let patience = Duration::from_secs(PATIENCE);
    let mut last = io::Error::from(ErrorKind::NotFound);
    for address in address.to_socket_addrs(rt)? {
        match TcpStream::connect_timeout(rt, &address, patience) {
            Ok(stream) => {
                stream.set_nodelay(true)?;
                stream.set_read_timeout(Some(patience))?;
                stream.set_write_timeout(Some(patience))?;
                return Ok(stream);
            }
            Err(cause) => last = cause,
        }
    }
    Err(last)
}

/// Greets a standby as the server with this number.
pub fn open_link(
    alloc: Global,
    stream: TcpStream,
    own: u16,
    peer: &Peer,
) -> Result<SocketLink, Broken> {
    let second = stream.try_clone()?;
    let reader = Std::new(Watched::new(stream));
    let writer = Std::new(Watched::new(second));
    let mut lines = PeerLines::new(alloc, reader, writer)?;
    let _version = greet(alloc, &mut lines, own, peer.token.as_str())?;
    let (reader, writer) = lines.into_parts();
    Ok(StandbyLink::new(alloc, reader, writer)?)
}
