//! Laws of rights. Each law is the contract of a function without parameters.
ghost use Rattle.rights.specs.Laws.{EitherLaw, GuestLaw, UnsharedLaw};

/// Where nothing was granted to everyone, the owner has the right to own, and any other name that is no guest's what it was
/// granted.
pub fn unshared_law()
    ensures { UnsharedLaw }
{}

/// An author who is neither a guest nor the owner may do exactly what its own right or that of everyone allows.
pub fn either_law()
    ensures { EitherLaw }
{}

/// A guest who is not the owner may do exactly what its own right or that of its link allows.
pub fn guest_law()
    ensures { GuestLaw }
{}
