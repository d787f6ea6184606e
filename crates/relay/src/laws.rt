//! Laws of rounds, each the contract of a function that does nothing.
ghost use Rattle.relay.specs.Laws.{AllCellsLaw, GreetedLaw, MissedLaw, OneRequestLaw, PulledLaw, PushedLaw};

use conversation::Pads;

/// Over any pads, a greeting that was answered is the first two stages of a round, and a greeting that failed is a
/// round that broke off.
pub fn greeting_law<P: Pads>()
    ensures greeted { GreetedLaw P.calls P.names }
    ensures missed { MissedLaw P.calls P.names }
{}

/// A round over the list of all cells, in order, is a round over the pads themselves, and the other way round.
pub fn all_cells_law<P: Pads>()
    ensures { AllCellsLaw P.calls P.names }
{}

/// If a peer has one operation more that this server delivers, or lacks one that it delivers, a turn of the exchange
/// delivers it, and another turn follows. There are turns enough for as many operations as a pad can have.
pub fn turns_law<P: Pads>()
    ensures pulled { PulledLaw P.calls P.names }
    ensures pushed { PushedLaw P.calls P.names }
{}

/// If it is known what a peer has of a pad, and the pad has one operation more that the peer delivers, this operation is
/// all that the peer is sent, and it is known again what it has.
pub fn one_request_law<P: Pads>()
    ensures { OneRequestLaw P.calls P.names }
{}
