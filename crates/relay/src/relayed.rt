//! The results of a relay round.
ghost use Rattle.std.specs.Prelude.{◌≡◌};
ghost use Rattle.relay.specs.Counts.{none_yet};
ghost use Rattle.relay.specs.Counts as counts;

/// The results of a relay round. Each number is at most the greatest `u64`.
#[derive(Clone, Copy, Debug, PartialEq, Eq)]
pub struct Relayed {
    /// The pads whose first pull the peer answered, perhaps with no operations.
    pub pads: u64,
    /// The peer's operations that were delivered here, including those that they released.
    pub pulled: u64,
    /// This server's operations that the peer delivered.
    pub pushed: u64,
    /// The operations that were refused, here or there.
    pub refused: u64,
    /// The pads that were left out, in part or whole, because the peer reads only version 1.
    pub unsaid: u64,
}

impl Relayed {
    /// No results yet.
    pub(crate) fn new() -> Relayed
        ensures { result ≡ none_yet }
    {
        Relayed {
            pads: 0,
            pulled: 0,
            pushed: 0,
            refused: 0,
            unsaid: 0,
        }
    }

    /// Counts a pull of a pad, after this many turns: the first one counts the pad.
    pub(crate) fn with_pull(self, turn: u64) -> Relayed
        ensures { result ≡ counts.with_pull turn self }
    {
        match turn {
            0 => Relayed {
                pads: self.pads.saturating_add(1),
                ..self
            },
            _ => self,
        }
    }

    pub(crate) fn with_pulled(self, count: u64) -> Relayed
        ensures { result ≡ counts.with_pulled count self }
    {
        Relayed {
            pulled: self.pulled.saturating_add(count),
            ..self
        }
    }

    pub(crate) fn with_pushed(self) -> Relayed
        ensures { result ≡ counts.with_pushed self }
    {
        Relayed {
            pushed: self.pushed.saturating_add(1),
            ..self
        }
    }

    pub(crate) fn with_refused(self) -> Relayed
        ensures { result ≡ counts.with_refused self }
    {
        Relayed {
            refused: self.refused.saturating_add(1),
            ..self
        }
    }

    pub(crate) fn with_unsaid(self) -> Relayed
        ensures { result ≡ counts.with_unsaid self }
    {
        Relayed {
            unsaid: self.unsaid.saturating_add(1),
            ..self
        }
    }
}
