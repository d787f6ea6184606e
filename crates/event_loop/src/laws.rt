//! Laws of clients, each the contract of a function that does nothing.
ghost use Rattle.event_loop.specs.Laws.{BrowserLaw};
ghost use Rattle.event_loop.specs.Turns.{LinesTurnLaw, SocketTurnLaw};
ghost use Rattle.conversation.specs.ThreadSession.{CallsRow, IsApart};
ghost use Rattle.conversation.specs.Laws.{ServesApart};
ghost use Rattle.conversation.specs.declared.shared.Shared.{Shared};

use conversation::laws::shared_law;
use pad_model::Sequence;
use shared_pads::Gate;
use std::sync::Wait;
use web_wire::laws::pieces_law;
use wire_lines::laws::lines_law;

/// Whatever pieces the bytes of its socket arrive in, a browser's conversation gives out the session text of the first
/// lines of its messages, even if the worker's seats serve others between two of them, or the accounts are replaced.
pub fn browser_law<S: Sequence, R: Wait, G: Gate>()
    ensures { BrowserLaw {P = Shared S R G} CallsRow IsApart
        (ServesApart CallsRow IsApart) }
{
    lines_law();
    pieces_law();
    shared_law::<S, R, G>();
}

/// Whatever a worker does with a client, and with others in between: if it speaks lines, its socket gave and got the course
/// of a session, and if it is a browser, that of a browser, with whole frames.
pub fn turn_law()
    ensures lines { LinesTurnLaw }
    ensures sockets { SocketTurnLaw }
{}
