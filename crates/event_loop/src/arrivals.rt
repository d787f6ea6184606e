//! Messages to a worker: clients and new accounts.
ghost use Rattle.std.specs.Prelude.{◌≡◌, ◌+◌};
ghost use Rattle.std.specs.Net.Addr.{MatchIp, ipv4_bits, ipv6_bits};

use crate::client::Client;
use crate::hub::Connected;
use crate::protocol::Protocol;
use admission::key_of;
use mio::net::TcpStream;
use sessions::Accounts;
use std::alloc::Global;
use std::net::IpAddr;
use std::sync::Arc;
use web_wire::{PageRequest, address_number};

/// The listener at which a connection was accepted.
#[derive(Clone, Copy, PartialEq, Eq)]
pub enum Entrance {
    /// The listener for clients that speak lines.
    Lines,
    /// The listener for browsers, which send requests over HTTP.
    Web,
}

impl Entrance {
    /// Returns the protocol that a connection accepted there speaks.
    pub fn protocol(self, alloc: Global) -> Protocol {
        match self {
            Entrance::Lines => Protocol::Lines,
            Entrance::Web => Protocol::PageRequest(PageRequest::new(alloc)),
        }
    }

    /// Returns the kind that a connection accepted there counts as.
    pub fn connected(self) -> Connected {
        match self {
            Entrance::Lines => Connected::Client,
            Entrance::Web => Connected::PageRequest,
        }
    }
}

/// The source of a connection.
#[derive(Clone, Copy)]
pub struct ClientAddress {
    /// The number of its address.
    pub number: u128,
    /// The key of its address, by which connections and wrong tokens are counted.
    pub key: u128,
}

impl ClientAddress {
    /// Returns the source of a connection from an address. The number is the one that is compared with those of
    /// proxies.
    pub fn new(address: IpAddr) -> ClientAddress
        ensures { MatchIp address (λ own. result.number ≡ 0xFFFF_0000_0000 + ipv4_bits own)
            (λ own. result.number ≡ ipv6_bits own) }
    {
        ClientAddress {
            number: address_number(address),
            key: key_of(address),
        }
    }
}

/// A message to a worker.
#[derive(Drop)]
pub enum Arrival {
    /// A connection that was accepted, at this entrance.
    Accepted {
        number: u64,
        stream: TcpStream,
        entrance: Entrance,
        source: ClientAddress,
    },
    /// A client that moves from another worker.
    Moved(Client),
    /// The accounts that may log in from now on, which all workers share.
    Accounts(Arc<Accounts, Global>),
}
