//! The number that a client's replies wait for.
ghost use Rattle.std.specs.Prelude.{◌≡◌};
ghost use Rattle.event_loop.specs.Waits as waits;

use crate::client::Client;

impl Client {
    /// The replies that were made before this number was given wait for it. Those that already wait keep their number.
    pub fn wait_for(&mut self, number: u64)
        ensures due { self.new.due ≡ waits.due_after self.old.due number }
        ensures party { self.new.party ≡ self.old.party }
    {
        if self.due.is_none() {
            self.due = Some(number);
        }
    }

    /// Returns true if its replies wait for more than this number. None: no reply may be written yet.
    pub fn waits_beyond(&self, reached: Option<u64>) -> bool {
        self.owes()
            && match reached {
                Some(number) => !may_go(self.due, number),
                None => true,
            }
    }

    /// The number that its replies wait for.
    pub fn due(&self) -> Option<u64> {
        self.due
    }
}

/// Returns true if replies that wait for `due` may be written when all that wait for at most `reached` may be. None:
/// the number that they wait for is not known yet.
pub fn may_go(due: Option<u64>, reached: u64) -> bool
    ensures { result ≡ waits.may_go due reached }
{
    match due {
        Some(number) => number <= reached,
        None => false,
    }
}
