//! A client leaves a worker: it moves to another one, or it ends.
use crate::arrivals::Arrival;
use crate::client::Client;
use crate::clients::{Clients, NotServed};
use crate::settle::Settle;
use crate::work::{Service, Worker};
use conversation::{Gate, Shared};
use log::warn;
use pad_model::Sequence;
use server_log::ServerLog;
use std::io::ErrorKind;
use std::sync::Wait;
use std::time::Clock;
use wire_lines::Fault;

/// Sends a client to the worker for long lines, or back. If there is no memory for that, it is told so, and ends.
pub fn move_away<S, R, G, T>(
    service: &Service<'_, S, R, G, T>,
    worker: &Worker,
    clients: &mut Clients,
    pads: &mut Shared<'_, S, R, G>,
    key: usize,
)
where
    S: Sequence,
    R: AllocGlobal + Wait + Clock + Eprint,
    G: Gate,
    T: Settle,
{
    let rt = service.row.rt;
    let Some(mut client) = clients.all.try_remove(key) else {
        return;
    };
    let to = if worker.place == service.hub.long_lines() {
        client.home()
    } else {
        service.hub.long_lines()
    };
    let _registered = client.party.deregister(worker.poll.registry());
    if let Some(Arrival::Moved(mut client)) = service.hub.send(rt, to, Arrival::Moved(client)) {
        // No poll reports its socket any more: it is told now, or not at all.
        let _told = client.fail(Fault::Memory);
        see_off(service, pads, client);
    }
}

/// Ends a client that cannot be served. If there is no memory for it, it is told so.
pub fn turn_away<S, R, G, T>(
    service: &Service<'_, S, R, G, T>,
    pads: &mut Shared<'_, S, R, G>,
    not_served: NotServed,
)
where
    S: Sequence,
    R: AllocGlobal + Wait + Clock + Eprint,
    G: Gate,
    T: Settle,
{
    let NotServed { mut client, cause } = not_served;
    let number = client.number();
    warn!(ServerLog(service.row.rt); "connection {number} is not served: {cause}");
    if cause.kind() == ErrorKind::OutOfMemory {
        let _told = client.fail(Fault::Memory);
    }
    close(service, pads, client);
}

/// Takes a client out, and ends it.
pub fn end<S, R, G, T>(
    service: &Service<'_, S, R, G, T>,
    clients: &mut Clients,
    pads: &mut Shared<'_, S, R, G>,
    key: usize,
)
where
    S: Sequence,
    R: AllocGlobal + Wait + Clock + Eprint,
    G: Gate,
    T: Settle,
{
    if let Some(client) = clients.all.try_remove(key) {
        if client.is_awaiting() {
            clients.forget_awaiting(key);
        }
        see_off(service, pads, client);
    }
}

// Logs the fault that a client ends with, if it does, ends its session and closes its socket.
fn see_off<S, R, G, T>(
    service: &Service<'_, S, R, G, T>,
    pads: &mut Shared<'_, S, R, G>,
    client: Client,
)
where
    S: Sequence,
    R: AllocGlobal + Wait + Clock + Eprint,
    G: Gate,
    T: Settle,
{
    let number = client.number();
    match client.fault() {
        Some((fault, Some(cause))) =>
            warn!(ServerLog(service.row.rt); "connection {number} ended: {fault}: {cause}"),
        Some((fault, None)) =>
            warn!(ServerLog(service.row.rt); "connection {number} ended: {fault}"),
        None => {}
    }
    close(service, pads, client);
}

// Ends a client's session, and closes its socket. Each client that the worker no longer serves ends here, unless it
// moves to another worker.
fn close<S, R, G, T>(
    service: &Service<'_, S, R, G, T>,
    pads: &mut Shared<'_, S, R, G>,
    mut client: Client,
)
where
    S: Sequence,
    R: AllocGlobal + Wait + Clock + Eprint,
    G: Gate,
    T: Settle,
{
    let lobby = service.hub.lobby();
    client.leave_lobby(lobby);
    if service.limits.per_address.is_some() {
        lobby.disconnect(service.row.rt, client.address());
    }
    let (home, connected) = (client.home(), client.connected());
    service.hub.counts().note_visits(client.visits(), 0);
    client.end(pads);
    service.hub.leave(home, connected);
}
