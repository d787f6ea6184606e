//! Tests of the bytes of browsers: messages as lines, requests for pages, and the handshake of the socket.
#![tactic(auto)]

#[cfg(test)]
mod frames;
#[cfg(test)]
mod kept;
#[cfg(test)]
mod limits;
#[cfg(test)]
mod page_requests;
#[cfg(test)]
mod sent;
#[cfg(test)]
mod users;
