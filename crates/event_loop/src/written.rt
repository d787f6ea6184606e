//! The bytes that are written to a client.
ghost use Rattle.std.specs.Prelude.{◌≡◌, ◌≤◌, false, length, min};
ghost use Rattle.event_loop.specs.Delays.{held_by};
ghost use Rattle.event_loop.specs.Waits as waits;

use crate::client::{Client, Phase};
use crate::due::may_go;
use crate::party::Party;
use crate::settle::{Reach, Settle};
use crate::transfer::{BrokenSocket, Transfer};
use mio::net::TcpStream;
use std::alloc::AllocError;
use wire_lines::Fault;

/// The most writes to a socket before other clients have their turn.
const WRITES: u32 = 16;

impl Client {
    /// Writes as many replies as the socket takes, unless they wait for more than is settled. The reply to a wrong
    /// token stays, as long as it is held back.
    pub fn write<T: Settle>(&mut self, reach: &Reach<T::Settled>)
        ensures held { min (held_by self.old.delay) (length self.old.party.talk.replies)
            ≤ length self.new.party.talk.replies }
        ensures waits { waits.may_go self.old.due reach.now.number ≡ false → self.new.party ≡ self.old.party }
    {
        if may_go(self.due, reach.number) {
            self.write_settled::<T>(&reach.settled);
        }
    }

    // Writes as many replies as the socket takes.
    fn write_settled<T: Settle>(&mut self, settled: &T::Settled)
        ensures { min (held_by self.old.delay) (length self.old.party.talk.replies)
            ≤ length self.new.party.talk.replies }
    {
        let held = self.delay.held();
        for _write in 0..WRITES {
            match write_once::<T>(&mut self.party, held, settled) {
                Ok(Transfer::Passed) => self.times.note_taken(),
                Ok(Transfer::Again) => {}
                Ok(Transfer::Blocked | Transfer::Over) => return,
                Err(broken) => {
                    self.cause = broken.cause;
                    self.phase = Phase::Broken(broken.fault);
                    return;
                }
            }
        }
    }
}

// Writes once, from all replies except the last `held` bytes.
fn write_once<T: Settle>(
    party: &mut Party<TcpStream>,
    held: usize,
    settled: &T::Settled,
) -> Result<Transfer, BrokenSocket>
    ensures { min held (length party.old.talk.replies) ≤ length party.new.talk.replies }
{
    if party.outbox_len() == 0 && say_all(party, held).is_err() {
        return Err(BrokenSocket {
            fault: Fault::Memory,
            cause: None,
        });
    }
    party.write::<T>(held, settled)
}

/// Turns all replies to a browser, except the last `held` bytes, into messages.
pub fn say_all(party: &mut Party<TcpStream>, held: usize) -> Result<(), AllocError>
    ensures { min held (length party.old.talk.replies) ≤ length party.new.talk.replies }
{
    while party.say(held)? {}
    Ok(())
}
