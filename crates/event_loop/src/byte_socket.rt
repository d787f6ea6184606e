//! The socket of a client, as far as contracts see it: the bytes that it still gives, and those that it got.
ghost use Rattle.std.specs.Prelude.{◌≡◌, ◌≤◌, length, Option, List, ℕ, None, IfOk};
ghost use Rattle.std.specs.Io.KnownBytes.{ReadConsumes, WriteAppends};

use mio::net::TcpStream;
use std::io;
use std::io::{Read, Write};

/// A socket that is read and written. A read leaves alone what was written, and a write what is still to be read.
pub trait ByteSocket {
    /// The bytes that it will still give, if they are known.
    ghost unread: { Self → Option (List ℕ) };

    /// The bytes that it got, if they are known.
    ghost written: { Self → Option (List ℕ) };

    /// Reads once, as `Read::read` does.
    fn receive(&mut self, chunk: &mut [u8]) -> io::Result<usize>
        ensures gives { ReadConsumes (unread self.old) (unread self.new) result chunk.new }
        ensures count { IfOk result (λ count. count ≤ length chunk.new) }
        ensures keeps { written self.new ≡ written self.old };

    /// Writes once, as `Write::write` does.
    fn send(&mut self, bytes: &[u8]) -> io::Result<usize>
        ensures takes { WriteAppends (written self.old) (written self.new) result bytes.now }
        ensures count { IfOk result (λ count. count ≤ length bytes.now) }
        ensures keeps { unread self.new ≡ unread self.old };
}

/// A connection of the system, of which nothing is known.
impl ByteSocket for TcpStream {
    ghost unread = { λ _. None };

    ghost written = { λ _. None };

    fn receive(&mut self, chunk: &mut [u8]) -> io::Result<usize> {
        self.read(chunk)
    }

    fn send(&mut self, bytes: &[u8]) -> io::Result<usize> {
        self.write(bytes)
    }
}
