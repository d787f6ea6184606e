//! The number of operations that an answer reports as delivered.
ghost use Rattle.std.specs.Prelude.{◌≡◌};
ghost use Rattle.conversation.specs.Delivered.{delivered_of};

use pad_core::{PadReply, Pushed, Reply};
use pad_model::Refusal;

/// Returns 1 for an edit. For a push, counts its own operation, if delivered, and those that it released.
pub fn delivered_by(answer: &Result<Reply, Refusal>) -> u64
    ensures { result ≡ delivered_of answer.now }
{
    match answer {
        Ok(Reply::Pad(PadReply::Made { .. } | PadReply::Changed { .. })) => 1,
        Ok(
            Reply::Pad(
                PadReply::Pushed {
                    state,
                    released,
                    ..
                },
            ),
        ) => match state {
            Pushed::Delivered => released.saturating_add(1),
            Pushed::Held | Pushed::Repeat => *released,
        },
        _ => 0,
    }
}
