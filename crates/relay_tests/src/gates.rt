//! The calls to a gate before each reply.
ghost use Rattle.std.specs.Prelude.{⊤, false, None};

use block_seq::BlockSeq;
use conversation::{Alone, Gate, Served, serve_connection};
use pad_model::Sequence;
use presence::DEFAULT_PRESENT;
use server_core::Server;
use sessions::Accounts;
use shared_pads::{Answered, LockedPad};
use std::alloc::Global;
use std::sync::atomic::{AtomicU64, Ordering};
use std::test::Fail;
use wire_lines::{Input, Output, Sink, WriteError};

const LINES: &str = concat!(
    r#"{"do":"hello","name":"a1","token":"t"}"#,
    "\n",
    r#"{"do":"create","pad":"p"}"#,
    "\n",
    r#"{"at":0,"do":"insert","pad":"p","rev":0,"text":"hello"}"#,
    "\n",
    r#"{"do":"text","pad":"p"}"#,
    "\n",
    r#"{"at":9,"do":"insert","pad":"p","rev":1,"text":"!"}"#,
    "\n",
    r#"{"at":1,"do":"delete","len":3,"pad":"p","rev":1}"#,
    "\n",
);

// The number of replies announced to the gate, and which of them report a delivered operation.
#[derive(Drop)]
struct Announced {
    replies: AtomicU64,
    delivered: AtomicU64,
}

impl Announced {
    fn new() -> Announced {
        Announced {
            replies: AtomicU64::new(0),
            delivered: AtomicU64::new(0),
        }
    }
}

impl Gate for Announced {
    ghost reads = { λ _. false };

    ghost told = { λ _ _ _ _. ⊤ };

    ghost announced = { λ _ _ _. ⊤ };

    fn answered<S: Sequence>(&self, _alloc: Global, _answered: Answered<'_>, _pad: &LockedPad<S>) {}

    fn reads_operations(&self) -> bool {
        false
    }

    fn inside(&self, _cell: u32) {}

    fn before_reply(&self, _connection: u64, delivered: bool) {
        let reply = self.replies.fetch_add(1, Ordering::SeqCst);
        if delivered {
            self.delivered
                .fetch_or(1u64 << (reply % 64), Ordering::SeqCst);
        }
    }

    fn done(&self, _connection: u64) {}
}

// The bytes written, and the number of writes that came before the gate was called for their reply.
#[derive(Drop)]
struct WatchedOutput<'a> {
    output: Output,
    gate: &'a Announced,
    writes: u64,
    early: u64,
}

impl Sink for WatchedOutput<'_> {
    ghost contents = { λ _. None };

    ghost failures = { λ w. ⟦<Output as Sink>⟧.failures w.output };

    fn write(&mut self, bytes: &[u8]) -> Result<usize, WriteError> {
        self.writes = self.writes.saturating_add(1);
        if self.gate.replies.load(Ordering::SeqCst) < self.writes {
            self.early = self.early.saturating_add(1);
        }
        self.output.write(bytes)
    }

    fn flush(&mut self) -> Result<(), WriteError> {
        self.output.flush()
    }
}

// Serves a connection with these lines at a server of one pad.
fn serve<W: Sink>(
    alloc: Global,
    lines: &str,
    writer: &mut W,
    gate: &Announced,
) -> Result<Served, Fail> {
    let accounts = Accounts::read(alloc, b"author a1 t\n")?;
    let mut server: Server<BlockSeq> = Server::new(alloc, 1, DEFAULT_PRESENT, 1, accounts)?;
    let actor = server.open(alloc)?;
    let mut pads = Alone::new(server, actor);
    let mut reader = Input::new(lines.as_bytes());
    Ok(serve_connection(alloc, &mut pads, &mut reader, writer, 1, gate)?)
}

// The same, without checking the writes.
fn serve_unseen(alloc: Global, lines: &str, gate: &Announced) -> Result<Served, Fail> {
    serve(alloc, lines, &mut Output::new(alloc), gate)
}

#[test]
fn an_insertion_is_told_as_delivered_and_a_reading_is_not(rt: HostRuntime) -> Result<(), Fail> {
    let gate = Announced::new();
    let served = serve_unseen(rt.alloc(), LINES, &gate)?;
    // The third line inserts and the sixth erases; the fifth, an insertion past the end, is refused.
    assert_eq!(rt; gate.replies.load(Ordering::SeqCst), 6);
    assert_eq!(rt; gate.delivered.load(Ordering::SeqCst), 0b100100);
    assert_eq!(rt; served.delivered, 2);
    Ok(())
}

#[test]
fn a_gate_is_told_before_each_reply_is_written(rt: HostRuntime) -> Result<(), Fail> {
    let alloc = rt.alloc();
    let gate = Announced::new();
    let mut writer = WatchedOutput {
        output: Output::new(alloc),
        gate: &gate,
        writes: 0,
        early: 0,
    };
    serve(alloc, LINES, &mut writer, &gate)?;
    assert_eq!(rt; writer.writes, 6);
    assert_eq!(rt; writer.early, 0);
    Ok(())
}
