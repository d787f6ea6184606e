//! The reasons why a connection ends before its input does: each fault has a name and a number.
ghost use Rattle.std.specs.Prelude.{◌≡◌};
ghost use Rattle.wire_lines.specs.Faults.{code_of, name_of};
ghost use Rattle.wire_lines.specs.declared.fault.Fault.TheVariants.{Memory};

use std::alloc::{AllocError, AllocFailed};
use thiserror::Error;

/// The reason why a connection or a relay round ended early.
#[derive(Clone, Copy, Debug, PartialEq, Eq, Error)]
pub enum Fault {
    /// 510: the reader failed, or `MAX_READS` reads were made.
    #[error("510 ReadFault")]
    ReadFault,
    /// 511: the writer failed, or took no bytes.
    #[error("511 WriteFault")]
    WriteFault,
    /// 512: a line of a peer is not a reply.
    #[error("512 PeerReply")]
    PeerReply,
    /// 900: out of memory.
    #[error("900 Memory")]
    Memory,
}

impl Fault {
    /// The number of the fault, from 510 on, or 900.
    pub fn code(self) -> u16
        ensures { result ≡ code_of self }
    {
        match self {
            Fault::ReadFault => 510,
            Fault::WriteFault => 511,
            Fault::PeerReply => 512,
            Fault::Memory => 900,
        }
    }

    /// The name of the fault.
    pub fn name(self) -> &'static str
        ensures { result.now ≡ name_of self }
    {
        match self {
            Fault::ReadFault => "ReadFault",
            Fault::WriteFault => "WriteFault",
            Fault::PeerReply => "PeerReply",
            Fault::Memory => "Memory",
        }
    }
}

impl From<AllocError> for Fault {
    ghost from_gives = { λ _ fault. fault ≡ Memory };

    fn from(_refused: AllocError) -> Fault {
        Fault::Memory
    }
}

impl<T: Drop> From<AllocFailed<T>> for Fault {
    ghost from_gives = { λ _ fault. fault ≡ Memory };

    fn from(_refused: AllocFailed<T>) -> Fault {
        Fault::Memory
    }
}
