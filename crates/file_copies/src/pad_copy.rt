//! The copy of a pad's file.
ghost use Rattle.std.specs.Prelude.{◌≡◌, MatchResult, string_bytes};
ghost use Rattle.file_copies.specs.Copies.{Follows, IsRefused};
ghost use Rattle.file_copies.specs.declared.pad_copy.NoStretch.TheVariants.{Memory};

use crate::stretch::stretch_sum;
use std::alloc::{AllocError, Global};
use thiserror::Error;

/// The copy of a pad's file: the number of its bytes, and the sum of its last line. A copy that has nothing yet has no
/// bytes and the empty sum.
#[derive(Debug, Drop)]
pub struct PadCopy {
    length: u64,
    sum: String,
}

/// The reason bytes are not appended to a copy.
#[derive(Clone, Copy, Debug, PartialEq, Eq, Error)]
pub enum NoStretch {
    #[error("out of memory")]
    Memory,
    /// They are to stand at another place than the end of the copy.
    #[error("the stretch begins at byte {from}, and the copy has {length}")]
    Elsewhere { from: u64, length: u64 },
    /// They are not whole lines, or one of these is not linked to the line before it: the file has another past than the
    /// copy.
    #[error("the stretch at byte {from} is not linked to the copy")]
    Unlinked { from: u64 },
    /// The copy would have 2^64 bytes or more.
    #[error("the copy is too long")]
    TooLong,
}

impl From<AllocError> for NoStretch {
    ghost from_gives = { λ _ why. why ≡ Memory };

    fn from(_refused: AllocError) -> NoStretch {
        NoStretch::Memory
    }
}

impl PadCopy {
    /// A copy with this many bytes, whose last line has this sum.
    pub fn new(length: u64, sum: String) -> PadCopy
        ensures { (result.length ≡ length) × (result.sum ≡ sum) }
    {
        PadCopy { length, sum }
    }

    /// The number of bytes.
    pub fn length(&self) -> u64
        ensures { result ≡ self.now.length }
    {
        self.length
    }

    /// The sum of the last line; empty if there is none.
    pub fn sum(&self) -> &str
        ensures { result.now ≡ string_bytes self.now.sum }
    {
        self.sum.as_str()
    }

    /// Returns the copy followed by a stretch of the file, which begins at byte `from` of the file. Nothing is appended
    /// to a file here: the keeper of the copy does so, and then uses the returned copy.
    pub fn followed_by(&self, alloc: Global, from: u64, lines: &[u8]) -> Result<PadCopy, NoStretch>
        ensures { MatchResult result (Follows from lines.now self.now) (IsRefused from lines.now self.now) }
    {
        if from != self.length {
            return Err(NoStretch::Elsewhere {
                from,
                length: self.length,
            });
        }
        let Some(length) = self.length.checked_add(lines.len() as u64) else {
            return Err(NoStretch::TooLong);
        };
        match stretch_sum(alloc, self.sum.as_str(), lines)? {
            Some(sum) => Ok(PadCopy { length, sum }),
            None => Err(NoStretch::Unlinked { from }),
        }
    }
}
