//! A law of sockets, as the contract of a function that does nothing.
ghost use Rattle.web_wire.specs.Laws.{PiecesLaw};

/// Whatever pieces the bytes arrive in, what a socket gives out and sends is a prefix of what all bytes together lead
/// to.
pub fn pieces_law()
    ensures { PiecesLaw }
{}
