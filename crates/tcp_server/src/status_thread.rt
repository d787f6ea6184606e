//! The thread that answers for the status, before it starts and when it is to end.
use crate::serving_error::ServingError;
use crate::status::{StatusDoor, StatusEnd, set_up_status};
use crate::status_board::StatusBoard;
use std::net::{Net, TcpListener};

/// The status of the server, and the thread that reports it, if the settings have an address for it.
#[derive(Drop)]
pub struct StatusThread<'a, 'e> {
    pub board: &'a StatusBoard<'a>,
    pub door: Option<StatusDoor>,
    pub end: Option<&'e StatusEnd>,
}

/// Sets up the thread, if it has a listener.
pub fn open_door<R: AllocGlobal + Net>(
    rt: &R,
    listener: Option<TcpListener>,
) -> Result<(Option<StatusDoor>, Option<StatusEnd>), ServingError<'static>> {
    let Some(listener) = listener else {
        return Ok((None, None));
    };
    match set_up_status(rt, rt.alloc(), listener) {
        Ok((door, end)) => Ok((Some(door), Some(end))),
        Err(cause) => Err(ServingError::NotSetUp(cause)),
    }
}

/// Ends the thread, if it runs.
pub fn end_status(end: Option<&StatusEnd>) {
    if let Some(end) = end {
        end.end();
    }
}
