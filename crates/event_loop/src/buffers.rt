//! The buffers that a worker reads into, shared by its clients.
ghost use Rattle.std.specs.Prelude.{◌≤◌, length};

use crate::limits::CHUNK;
use std::alloc::{AllocError, Global};

/// A worker's buffers.
#[derive(Drop)]
pub struct Buffers {
    /// The bytes of one read.
    pub chunk: Vec<u8>,
    /// The line of a message.
    pub line: Vec<u8>,
}

impl Buffers {
    /// Creates empty buffers.
    pub fn new(alloc: Global) -> Result<Buffers, AllocError> {
        let mut chunk = Vec::new(alloc);
        chunk.resize(CHUNK, 0)?;
        Ok(Buffers {
            chunk,
            line: Vec::new(alloc),
        })
    }
}

/// The first bytes of a buffer, at most as many as are asked for.
pub fn first_bytes(bytes: &mut [u8], most: usize) -> &mut [u8]
    ensures { length result.now ≤ most }
{
    let end = most.min(bytes.len());
    &mut bytes[..end]
}
