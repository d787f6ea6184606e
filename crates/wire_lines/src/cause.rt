//! The system's error that belongs to a fault.
ghost use Rattle.std.specs.Prelude.{◌≡◌};
ghost use Rattle.wire_lines.specs.Errors.{cause};

use crate::fault::Fault;
use std::io;

/// The system's error for a fault, from those that a reader and a writer remember. None: the fault is not of a device,
/// or its device has not failed.
pub fn cause_of(
    fault: Fault,
    unread: Option<io::Error>,
    unwritten: Option<io::Error>,
) -> Option<io::Error>
    ensures { result ≡ cause fault unread unwritten }
{
    match fault {
        Fault::ReadFault => unread,
        Fault::WriteFault => unwritten,
        _ => None,
    }
}
