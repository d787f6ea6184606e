//! The proof that every answer is kept.
ghost use Rattle.std.specs.Prelude.{◌≡◌, min};

use group_commit::{Confirmed, Kept};

/// The proof that answers are kept wherever this server promised to keep them: on its own disk, and on that of the
/// standby. Only a keeper makes it, from the results of a sync and a confirmation.
#[derive(Drop)]
pub struct Promised {
    kept: Kept,
    confirmed: Confirmed,
}

impl Promised {
    // It is on the disk, and the standby has it or nobody waits for that.
    pub(crate) fn new(kept: Kept, confirmed: Confirmed) -> Promised
        ensures { (result.kept ≡ kept) × (result.confirmed ≡ confirmed) }
    {
        Promised { kept, confirmed }
    }

    /// The number of notes that this covers: the first ones of the server.
    pub fn number(&self) -> u64
        ensures { result ≡ min self.now.kept.number self.now.confirmed.number }
    {
        self.kept.number().min(self.confirmed.number())
    }
}
