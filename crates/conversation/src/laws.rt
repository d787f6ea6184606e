//! Laws of conversations, each the contract of a function that does nothing.
ghost use Rattle.std.specs.Prelude.{◌≡◌};
ghost use Rattle.conversation.specs.ThreadSession.{CallsRow, IsApart};
ghost use Rattle.conversation.specs.Laws.{CourseLaw, LastLaw, ServesApart};
ghost use Rattle.conversation.specs.Session.{Serves};
ghost use Rattle.conversation.specs.declared.shared.Shared.{Shared};

use crate::pads::Pads;
use pad_model::Sequence;
use shared_pads::Gate;
use std::sync::Wait;

/// However its bytes are split into pieces, a conversation outputs the replies of its session to the first lines of
/// these bytes; at the end, to all of them.
pub fn conversation_law<P: Pads>()
    ensures course { CourseLaw P.calls (λ old new. new ≡ old) (Serves P.calls) }
    ensures last { LastLaw P.calls (λ old new. new ≡ old) (Serves P.calls) }
{}

/// The same if the thread's seats serve other sessions between two lines of this one, or the accounts are replaced there.
pub fn shared_law<S: Sequence, R: Wait, G: Gate>()
    ensures course { CourseLaw {P = Shared S R G} CallsRow IsApart
        (ServesApart CallsRow IsApart) }
    ensures last { LastLaw {P = Shared S R G} CallsRow IsApart
        (ServesApart CallsRow IsApart) }
{}
