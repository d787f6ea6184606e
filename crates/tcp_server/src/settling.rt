//! The condition that the workers' replies wait for.
ghost use Rattle.std.specs.Prelude.{◌≡◌, ◌≢◌, true, IfOk, IfSome, MatchOption};
ghost use Rattle.group_commit.specs.Confirmations.{is_unasked};
ghost use Rattle.group_commit.specs.Notes.{WasCounted};
ghost use Rattle.store_files.specs.Settling.{IsSaidOf};

use event_loop::{Hub, Reach, Settle};
use group_commit::Waiters;
use std::io;
use std::sync::Wait;
use std::time::Clock;
use store_files::{Keeper, Promised};
use web_wire::Machines;

/// The condition that the workers' replies wait for, if there is a store: its sync, and the standby's confirmation
/// where that was promised.
#[derive(Drop)]
pub struct Settling<'a, R> {
    rt: &'a R,
    keeper: Option<&'a Keeper>,
    hub: &'a Hub,
}

impl<'a, R> Settling<'a, R> {
    /// Replies that wait for this keeper, of the workers of this hub; None: they wait for nothing.
    pub fn new(rt: &'a R, keeper: Option<&'a Keeper>, hub: &'a Hub) -> Settling<'a, R> {
        Settling { rt, keeper, hub }
    }
}

impl<R: Wait + Clock> Settle for Settling<'_, R> {
    type Settled = Option<Promised>;

    ghost counted = { λ settling number. MatchOption settling.keeper (number ≡ 0) (λ _. WasCounted number) };

    fn settle(&self) -> io::Result<u64> {
        match self.keeper {
            Some(keeper) => keeper.advance(self.rt, &WaitingWorkers { hub: self.hub }),
            None => Ok(0),
        }
    }

    fn reach(&self, number: u64) -> io::Result<Option<Reach<Option<Promised>>>>
        ensures { IfOk result (λ found. IfSome found (λ reach. IsSaidOf self.now.keeper reach.settled reach.number)) }
    {
        let Some(keeper) = self.keeper else {
            return Ok(Some(Reach {
                number,
                settled: None,
            }));
        };
        match keeper.look(self.rt, number)? {
            Some(promised) => Ok(Some(Reach {
                number: promised.number(),
                settled: Some(promised),
            })),
            None => Ok(None),
        }
    }

    fn has_failed(&self) -> bool {
        match self.keeper {
            Some(keeper) => keeper.has_failed(),
            None => false,
        }
    }

    fn machines(&self) -> Machines
        ensures { MatchOption self.now.keeper (result ≡ Machines.Zero)
            (λ keeper. (result ≢ Machines.Zero)
            × (is_unasked keeper.now.copying.asked ≡ true → result ≡ Machines.One)) }
    {
        match self.keeper {
            None => Machines::Zero,
            Some(keeper) if keeper.machines(self.rt) < 2 => Machines::One,
            Some(_) => Machines::Two,
        }
    }
}

/// The workers of a hub whose replies wait for the store.
#[derive(Clone, Copy)]
pub struct WaitingWorkers<'a> {
    pub hub: &'a Hub,
}

impl Waiters for WaitingWorkers<'_> {
    fn wake(&self) {
        self.hub.tell_reach();
    }
}

/// Has workers look at the replies that wait whenever the standby has more, until the server ends. If the standby is lost, it
/// stops the whole server.
pub fn tell_workers<R: Wait + Clock>(rt: &R, keeper: &Keeper, hub: &Hub) {
    let mut seen = 0;
    for _ in rt.forever() {
        match keeper.follow(rt, seen) {
            Some(change) => seen = change,
            None => break,
        }
        hub.tell_reach();
    }
    if keeper.has_failed() {
        hub.stop();
    }
}
