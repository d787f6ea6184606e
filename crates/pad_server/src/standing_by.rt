//! The server of a standby, before and after its promotion.
ghost use Rattle.std.specs.Prelude.{◌≤◌};
ghost use Rattle.server_core.specs.declared.limits.TheConstants.{MAX_CELLS};

use crate::failure::ServerFailure;
use server_counts::Build;
use std::alloc::Global;
use std::fs::File;
use std::net::{Net, TcpListener, TcpStream};
use std::rt::Runtime;
use std::sync::Wait;
use std::thread::Threads;
use tcp_server::{Settings, StandbySettings, serve_clients, serve_copies};
use web_wire::Page;

/// Keeps copies until the standby is promoted, and then serves the pads at the same address.
pub fn serve_standby<'a, R>(
    rt: &R,
    files: HostRuntime,
    standby: StandbySettings<'a>,
    promoted: Settings<'a>,
    address: &'a str,
    accounts: &'a str,
    pages: &[Page],
    build: Build<'a>,
) -> Result<(), ServerFailure<'a>>
where
    R: Runtime<A = Global, File = File>
        + Net<Listener = TcpListener, Stream = TcpStream>
        + Threads
        + Wait
        + Sync
        + Eprint,
    requires { (1 ≤ standby.replica) × ((1 ≤ promoted.replica) × (promoted.cells ≤ MAX_CELLS)) }
{
    let copies = files.clone()?;
    if let Err(error) = serve_copies(rt, copies, standby, address, accounts) {
        return Err(ServerFailure::Serving(error));
    }
    serve_clients(rt, files, promoted, address, accounts, pages, build).map_err(
        ServerFailure::Serving,
    )
}
