//! The listeners to which clients and operators connect.
use crate::serving_error::ServingError;
use crate::settings::Settings;
use accounts_file::has_port;
use std::io;
use std::net::{Net, TcpListener, TcpStream};

/// The listeners for clients, those that speak lines and browsers, and for operators.
#[derive(Drop)]
pub struct Listeners {
    pub lines: TcpListener,
    pub web: Option<TcpListener>,
    /// The listener for operators who ask for the status.
    pub status: Option<TcpListener>,
}

/// Binds the addresses, and prints them with their real ports.
pub fn listen_at<'a, R>(
    rt: &R,
    asked: Settings<'a>,
    address: &'a str,
) -> Result<Listeners, ServingError<'a>>
where
    R: Net<Listener = TcpListener, Stream = TcpStream> + Print,
{
    let lines = bind(rt, address)?;
    let web = match asked.web {
        Some(address) => Some(bind(rt, address)?),
        None => None,
    };
    let status = match asked.status {
        Some(address) => Some(bind(rt, address)?),
        None => None,
    };
    let listeners = Listeners { lines, web, status };
    match announce(rt, &listeners) {
        Ok(()) => Ok(listeners),
        Err(cause) => Err(ServingError::OutputFailed(cause)),
    }
}

/// Binds an address for lines alone, and prints it with its real port.
pub fn listen_alone<'a, R>(rt: &R, address: &'a str) -> Result<TcpListener, ServingError<'a>>
where
    R: Net<Listener = TcpListener, Stream = TcpStream> + Print,
{
    let listeners = Listeners {
        lines: bind(rt, address)?,
        web: None,
        status: None,
    };
    match announce(rt, &listeners) {
        Ok(()) => Ok(listeners.lines),
        Err(cause) => Err(ServingError::OutputFailed(cause)),
    }
}

fn bind<'a, R>(rt: &R, address: &'a str) -> Result<TcpListener, ServingError<'a>>
where
    R: Net<Listener = TcpListener, Stream = TcpStream>,
{
    match TcpListener::bind(rt, address) {
        Ok(listener) => Ok(listener),
        Err(cause) if has_port(address) => Err(ServingError::AddressRefused { address, cause }),
        Err(_) => Err(ServingError::NoPort { address }),
    }
}

fn announce<R: Print>(rt: &R, listeners: &Listeners) -> io::Result<()> {
    let local = listeners.lines.local_addr()?;
    println!(rt; "listening on {local}")?;
    if let Some(web) = &listeners.web {
        let local = web.local_addr()?;
        println!(rt; "web on http://{local}/")?;
    }
    match &listeners.status {
        Some(status) => {
            let local = status.local_addr()?;
            println!(rt; "status on {local}")
        }
        None => Ok(()),
    }
}
