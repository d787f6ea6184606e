//! The log of who has logged in, and of users of a proxy whose names are somebody else's.
use crate::client::Client;
use crate::hub::Connected;
use log::{info, warn};
use pad_model::{Name, Who};
use server_log::ServerLog;
use std::time::Clock;

/// Logs who a client has logged in as, and from where if the system knows it. `is_user`: it was a request for a socket, whose
/// user the proxy named, and not a client that sent a token. A request that was refused is not logged.
pub fn log_access<R: Clock + Eprint>(rt: &R, client: &Client, is_user: bool) {
    if client.connected() == Connected::PageRequest {
        return;
    }
    let number = client.number();
    match (client.party.session().who(), client.party.peer_address()) {
        (Who::Author(name), _) => log_author(rt, client, name, is_user),
        (Who::Peer { number: peer, .. }, Ok(address)) =>
            info!(ServerLog(rt); "connection {number} from {address}: peer {peer} has logged in"),
        (Who::Peer { number: peer, .. }, Err(_)) =>
            info!(ServerLog(rt); "connection {number}: peer {peer} has logged in"),
        (Who::Nobody, _) => {}
    }
}

// Logs the author that a client has logged in as.
fn log_author<R: Clock + Eprint>(rt: &R, client: &Client, name: &Name, is_user: bool) {
    let number = client.number();
    let name = name.as_str();
    let way = if is_user { " by the proxy" } else { "" };
    match client.party.peer_address() {
        Ok(address) =>
            info!(ServerLog(rt); "connection {number} from {address}: {name} has logged in{way}"),
        Err(_) => info!(ServerLog(rt); "connection {number}: {name} has logged in{way}"),
    }
}

/// Warns of a user of the proxy who was refused because the accounts file gives its name to somebody else.
pub fn log_taken<R: Clock + Eprint>(rt: &R, client: &Client, name: &Name) {
    let (number, name) = (client.number(), name.as_str());
    warn!(ServerLog(rt); "connection {number}: a user of the proxy is refused: the accounts file gives the name {name} to somebody else");
}
