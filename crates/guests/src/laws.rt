//! Laws of the names of guests, each the contract of a function that does nothing.
ghost use Rattle.guests.specs.Laws.{GuestLaw, LinkLaw, NamedLaw};

/// The name that is made from a token is one that an author can have, and a guest's.
pub fn guest_law()
    ensures named { NamedLaw }
    ensures guest { GuestLaw }
{}

/// The name that is made from a token tells the link whose secret the token has.
pub fn link_law()
    ensures { LinkLaw }
{}
