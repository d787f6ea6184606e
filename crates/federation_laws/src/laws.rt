//! Laws of the definitions, each the contract of a function that does nothing.
ghost use Rattle.federation_laws.specs.Laws.{CarriesLaw, FederationLaw, GoesOnLaw};

/// After any events: no server refuses an operation of an honest server as invalid, each log has each origin's
/// operations up to its count, equal vectors mean equal pads, and all servers show parts of one order.
pub fn federation_law()
    ensures { FederationLaw }
{}

/// An operation that was valid where it was made is valid wherever all operations that it was made after have arrived.
/// This is why federation works.
pub fn carries_law()
    ensures { CarriesLaw }
{}

/// Every event can happen in every world, so the federation law covers every order of events.
pub fn goes_on_law()
    ensures { GoesOnLaw }
{}
