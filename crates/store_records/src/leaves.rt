//! The requests that may leave records.
ghost use Rattle.std.specs.Prelude.{◌≡◌};
ghost use Rattle.store_records.specs.Leaves.{may_leave};
ghost use Rattle.store_records.specs.Leaves as leaves;

use pad_core::{Act, Request};

/// Returns true if a request may leave records, judged by the request alone. If it may not, `records_of` is empty
/// whatever the answer.
pub fn leaves_records(request: &Request) -> bool
    ensures { result ≡ may_leave request.now }
{
    match request {
        Request::Create { .. } => true,
        Request::On { act, .. } => is_kept(act),
        Request::Hello { .. } | Request::Peer { .. } | Request::Pads | Request::People { .. } =>
            false,
    }
}

fn is_kept(act: &Act) -> bool
    ensures { result ≡ leaves.is_kept act.now }
{
    match act {
        Act::Join
        | Act::Rejoin { .. }
        | Act::Grant { .. }
        | Act::Hand { .. }
        | Act::SetClosed { .. }
        | Act::Mark { .. }
        | Act::Introduce { .. }
        | Act::Insert { .. }
        | Act::Delete { .. }
        | Act::Edit { .. }
        | Act::Comment { .. }
        | Act::Resolve { .. }
        | Act::Push { .. } => true,
        _ => false,
    }
}
