ghost use Rattle.std.specs.Prelude.{◌≡◌};

use pad_model::{Name, Text};
use std::alloc::AllocError;

/// A guest, and what it calls itself.
#[derive(Debug, Drop, PartialEq)]
pub struct Guest {
    pub author: Name,
    pub display: Text,
}

impl Clone for Guest {
    ghost is_clone = { λ s t. t ≡ s };

    fn clone(&self) -> Result<Guest, AllocError> {
        Ok(Guest {
            author: self.author.clone()?,
            display: self.display.clone()?,
        })
    }
}
