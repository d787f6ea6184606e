//! The reason why the bytes of a file could not be read.
ghost use Rattle.std.specs.Prelude.{◌≡◌};
ghost use Rattle.pad_store.specs.Reading.{trouble_after, trouble_of};

use pad_model::Refusal;
use std::alloc::{AllocError, AllocFailed};
use store_format::Damage;
use thiserror::Error;

/// The reason why a revision of a file's pad could not be read.
#[derive(Clone, Copy, Debug, Error)]
pub enum Trouble {
    #[error("900 Memory")]
    Memory,
    #[error("{0}")]
    Damaged(Damage),
    #[error("320 NoRevision")]
    NoRevision,
    #[error("its pad cannot be read")]
    Unread,
}

impl Trouble {
    /// The trouble that the damage of a file means.
    pub fn of_damage(damage: Damage) -> Trouble
        ensures { result ≡ trouble_after damage }
    {
        match damage {
            Damage::Memory => Trouble::Memory,
            _ => Trouble::Damaged(damage),
        }
    }

    /// The trouble that a refusal of a pad means.
    pub fn of(refusal: Refusal) -> Trouble
        ensures { result ≡ trouble_of refusal }
    {
        match refusal {
            Refusal::Memory => Trouble::Memory,
            Refusal::NoRevision => Trouble::NoRevision,
            _ => Trouble::Unread,
        }
    }
}

impl From<AllocError> for Trouble {
    fn from(_refused: AllocError) -> Trouble {
        Trouble::Memory
    }
}

impl<T: Drop> From<AllocFailed<T>> for Trouble {
    fn from(_refused: AllocFailed<T>) -> Trouble {
        Trouble::Memory
    }
}
