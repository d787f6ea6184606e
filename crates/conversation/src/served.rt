//! The counts of a connection.
ghost use Rattle.std.specs.Prelude.{◌≡◌};

/// The counts of lines and operations of a connection.
#[derive(Clone, Copy, Debug, PartialEq, Eq)]
pub struct Served {
    /// The number of lines that were answered.
    pub lines: u64,
    /// The number of operations that the answers report as delivered.
    pub delivered: u64,
}

impl Served {
    ghost use Rattle.conversation.specs.Delivered.{counted};

    /// Adds one line, if there is one, and the operations that its answer reports.
    pub(crate) fn with(self, told: Option<u64>) -> Served
        ensures { result ≡ counted self told }
    {
        match told {
            None => self,
            Some(delivered) => Served {
                lines: self.lines.saturating_add(1),
                delivered: self.delivered.saturating_add(delivered),
            },
        }
    }
}
