//! The gate of the pads: the further steps of the server for each answer.
ghost use Rattle.std.specs.Prelude.{◌≡◌, ◌≢◌, ◌⊎◌, ⊤, is_some, Ok, None, IfErr, OnOk};
ghost use Rattle.shared_pads.specs.Gates.{IsLet};
ghost use Rattle.store_files.specs.Noting.{IsKept};

use conversation::Gate;
use event_loop::Hub;
use pad_core::Request;
use pad_model::{Refusal, Sequence};
use peering::Exchange;
use shared_pads::{Answered, LockedPad};
use std::alloc::Global;
use std::sync::Wait;
use std::time::{Clock, SystemTime, UNIX_EPOCH};
use store_files::Keeper;

/// Wakes the threads that exchange with peers before each reply that reports a delivered operation. Under the pad's
/// lock, each answer is noted in the store, and the workers and those threads are notified that the pad has moved.
#[derive(Drop)]
pub struct PadGate<'a, R> {
    rt: &'a R,
    exchange: &'a Exchange,
    keeper: Option<&'a Keeper>,
    hub: &'a Hub,
}

impl<'a, R> PadGate<'a, R> {
    /// Of connections whose threads wait by a runtime.
    pub fn new(
        rt: &'a R,
        exchange: &'a Exchange,
        keeper: Option<&'a Keeper>,
        hub: &'a Hub,
    ) -> PadGate<'a, R> {
        PadGate {
            rt,
            exchange,
            keeper,
            hub,
        }
    }
}

impl<R: Wait + Clock> Gate for PadGate<'_, R> {
    ghost reads = { λ gate. is_some gate.keeper };

    ghost told = { λ _ _ _ _. ⊤ };

    ghost announced = { λ _ _ _. ⊤ };

    fn answered<S: Sequence>(&self, alloc: Global, answered: Answered<'_>, _pad: &LockedPad<S>)
        ensures kept { self.now.keeper ≢ None → IsKept answered.entry }
    {
        let (cell, made) = (answered.cell, answered.made);
        let is_creation = matches!(
            (answered.request, answered.answer),
            (Request::Create { .. }, Ok(Some(_)))
        );
        if let Some(keeper) = self.keeper {
            keeper.note(self.rt, alloc, answered);
        }
        if made > 0 {
            self.hub.counts().operations.add(made);
            self.hub.publish(cell, made);
            self.exchange.note(cell);
        }
        // A peer may have the pad already.
        if is_creation {
            self.hub.counts().pads.add_one();
            self.exchange.note(cell);
            self.exchange.ring(self.rt);
        }
    }

    fn clock(&self) -> u64 {
        let Ok(now) = SystemTime::now(self.rt) else {
            return 0;
        };
        match now.duration_since(UNIX_EPOCH) {
            Ok(passed) => u64::try_from(passed.as_millis()).unwrap_or(0),
            Err(_) => 0,
        }
    }

    fn reads_operations(&self) -> bool {
        self.keeper.is_some()
    }

    #[tactic(auto, using(shared_pads::specs::Gates::let_pass))]
    fn keeps(&self, alloc: Global, request: &Request) -> Result<(), Refusal>
        ensures kept { OnOk result (IsLet request.now) }
        ensures refused { IfErr result (λ e. (e ≡ Refusal.StoreFull) ⊎ (e ≡ Refusal.Memory)) }
        ensures without_a_store { self.now.keeper ≡ None → result ≡ Ok tt }
    {
        match self.keeper {
            Some(keeper) => keeper.keeps(self.rt, alloc, request),
            None => Ok(()),
        }
    }

    fn passed(&self, _request: &Request) {
        if let Some(keeper) = self.keeper {
            keeper.release(self.rt);
        }
    }

    fn inside(&self, _cell: u32) {}

    fn before_reply(&self, _connection: u64, delivered: bool) {
        if delivered {
            self.exchange.ring(self.rt);
        }
    }

    fn done(&self, _connection: u64) {}
}
