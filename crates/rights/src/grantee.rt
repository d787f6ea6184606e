ghost use Rattle.std.specs.Prelude.{◌≡◌};
ghost use Rattle.rights.specs.Rights.{can_have};

use crate::right::Right;
use pad_model::Name;
use std::alloc::AllocError;

/// Whom a right is granted to.
#[derive(Debug, PartialEq, Drop)]
pub enum Grantee {
    /// The author with this name.
    Author(Name),
    /// Everyone with a name that an author can have.
    Everyone,
}

impl Clone for Grantee {
    ghost is_clone = { λ s t. t ≡ s };

    fn clone(&self) -> Result<Grantee, AllocError> {
        Ok(match self {
            Grantee::Author(name) => Grantee::Author(name.clone()?),
            Grantee::Everyone => Grantee::Everyone,
        })
    }
}

impl Grantee {
    /// Returns true if a grantee can be given a right, or lose it (None): an author needs a well-formed name, and everyone
    /// cannot own a pad.
    pub fn can_have(&self, right: Option<Right>) -> bool
        ensures { result ≡ can_have self.now right }
    {
        match self {
            Grantee::Author(name) => name.is_well_formed(),
            Grantee::Everyone => !matches!(right, Some(Right::Own)),
        }
    }
}
