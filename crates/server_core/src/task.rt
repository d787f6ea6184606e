//! The task of an actor between two steps.
ghost use Rattle.std.specs.Prelude.{◌≡◌};

use pad_core::{Listed, Request};
use pad_model::Items;

/// The task that is under way.
#[derive(Drop)]
pub enum Task {
    /// Nothing.
    Resting,
    /// A request goes from cell to cell; this one is next.
    Scanning { request: Request, cell: u32 },
    /// A list of pads goes from cell to cell; this one is next, and these pads were found so far.
    Listing { cell: u32, found: Items<Listed> },
    /// The session is leaving its pads.
    Leaving,
}

impl Task {
    /// Replaces what is under way.
    pub fn turn(&mut self, next: Task)
        ensures { self.new ≡ next }
    {
        *self = next;
    }
}
