ghost use Rattle.std.specs.Prelude.{◌≡◌};

use pad_model::{Name, Text};
use std::alloc::AllocError;

/// A revision, and what somebody named it.
#[derive(Debug, Drop, PartialEq)]
pub struct NamedRevision {
    pub rev: u64,
    /// The author who named it.
    pub author: Name,
    /// When, in milliseconds since 1970.
    pub at: u64,
    pub text: Text,
}

impl Clone for NamedRevision {
    ghost is_clone = { λ s t. t ≡ s };

    fn clone(&self) -> Result<NamedRevision, AllocError> {
        Ok(NamedRevision {
            rev: self.rev,
            author: self.author.clone()?,
            at: self.at,
            text: self.text.clone()?,
        })
    }
}
