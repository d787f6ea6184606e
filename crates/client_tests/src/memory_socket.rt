//! A socket in memory.
ghost use Rattle.std.specs.Prelude.{Some, ⊤};

use event_loop::{ByteSocket, Reach, Settle};
use std::alloc::Global;
use std::io;
use std::io::{Read, Write};
use web_wire::Machines;

/// A socket that gives these bytes, and then no more, and keeps the bytes that were written.
#[derive(Drop)]
pub struct MemorySocket<'a> {
    unread: &'a [u8],
    written: Vec<u8>,
    /// The most bytes that it takes at once.
    most: usize,
}

impl<'a> MemorySocket<'a> {
    /// A socket to which nothing was written yet.
    pub fn new(alloc: Global, unread: &'a [u8], most: usize) -> MemorySocket<'a> {
        MemorySocket {
            unread,
            written: Vec::new(alloc),
            most,
        }
    }

    /// The bytes that were written.
    pub fn into_written(self) -> Vec<u8> {
        self.written
    }
}

impl ByteSocket for MemorySocket<'_> {
    ghost unread = { λ socket. Some socket.unread.now };

    ghost written = { λ socket. Some socket.written.items };

    fn receive(&mut self, chunk: &mut [u8]) -> io::Result<usize> {
        self.unread.read(chunk)
    }

    fn send(&mut self, bytes: &[u8]) -> io::Result<usize> {
        let count = bytes.len().min(self.most);
        self.written.write(&bytes[..count])
    }
}

/// Replies that wait for nothing.
#[derive(Clone, Copy, Debug)]
pub struct Unstored;

impl Settle for Unstored {
    type Settled = Unstored;

    ghost counted = { λ _ _. ⊤ };

    fn settle(&self) -> io::Result<u64> {
        Ok(0)
    }

    fn reach(&self, number: u64) -> io::Result<Option<Reach<Unstored>>> {
        Ok(Some(Reach {
            number,
            settled: Unstored,
        }))
    }

    fn has_failed(&self) -> bool {
        false
    }

    fn machines(&self) -> Machines {
        Machines::Zero
    }
}
