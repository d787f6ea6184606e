//! A client that waits: each reply is sent before the next line is read.
ghost use Rattle.std.specs.Prelude.{None};
ghost use Rattle.wire_lines.specs.Device.{one_more};

use crate::connection::{SESSION, serve};
use conversation::Served;
use std::cell::Cell;
use std::test::Fail;
use wire_lines::{Output, ReadError, Sink, Source, WriteError};

// A client that sends a line only once it has the replies to those before, and fails if it is asked for one earlier.
#[derive(Drop)]
struct WaitingClient<'a> {
    lines: &'a [&'a str],
    given: usize,
    replies: &'a Cell<usize>,
    failures: u64,
    reads: u64,
}

impl Source for WaitingClient<'_> {
    ghost remaining = { λ _. None };

    ghost failures = { λ c. c.failures };

    ghost reads = { λ c. c.reads };

    fn read(&mut self, buffer: &mut [u8]) -> Result<usize, ReadError> {
        self.reads = self.reads.saturating_add(1);
        let line = match self.lines.get(self.given) {
            None => return Ok(0),
            Some(line) => line.as_bytes(),
        };
        if self.replies.get() < self.given || buffer.len() < line.len() {
            self.failures = self.failures.saturating_add(1);
            return Err(ReadError::Failed);
        }
        let end = line.len();
        buffer[..end].copy_from_slice(line);
        self.given = self.given.saturating_add(1);
        Ok(end)
    }
}

// The bytes sent to the client, and the count of its replies.
#[derive(Drop)]
struct Sent<'a> {
    output: Output,
    replies: &'a Cell<usize>,
}

impl Sink for Sent<'_> {
    ghost contents = { λ _. None };

    ghost failures = { λ s. ⟦<Output as Sink>⟧.failures s.output };

    fn write(&mut self, bytes: &[u8]) -> Result<usize, WriteError> {
        self.output.write(bytes)
    }

    fn flush(&mut self) -> Result<(), WriteError> {
        self.replies.set(self.replies.get().saturating_add(1));
        self.output.flush()
    }
}

// Each reply is sent before the next line is asked for.
#[test]
fn a_client_that_waits(rt: HostRuntime) -> Result<(), Fail> {
    let alloc = rt.alloc();
    let replies = Cell::new(0);
    let mut client = WaitingClient {
        lines: &[SESSION[0].0, SESSION[1].0, SESSION[2].0],
        given: 0,
        replies: &replies,
        failures: 0,
        reads: 0,
    };
    let mut sent = Sent {
        output: Output::new(alloc),
        replies: &replies,
    };
    let served = serve(alloc, &mut client, &mut sent)?;
    let all = Served {
        lines: 3,
        delivered: 1,
    };
    assert!(rt; served == Ok(all), "wanted {all:?}, came {served:?}");
    Ok(())
}
