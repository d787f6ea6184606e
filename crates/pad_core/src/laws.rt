//! Laws of the definitions, each the contract of a function that does nothing.
ghost use Rattle.pad_core.specs.Causes.{AllSeenLaw, CausalLaw};
ghost use Rattle.pad_core.specs.Laws.{SameSetLaw};
ghost use Rattle.pad_core.specs.Listing.{ListingLaw};

/// The contents that a pad shows depend on the set of its operations alone: strong eventual consistency (Shapiro and
/// others 2011).
pub fn same_set_law()
    ensures { SameSetLaw }
{}

/// What an operation had seen stands before it in every log: causal delivery (Birman, Schiper and Stephenson 1991).
pub fn causal_law()
    ensures { CausalLaw }
{}

/// An operation that an author makes had seen all that the server had delivered.
pub fn all_seen_law()
    ensures { AllSeenLaw }
{}

/// A list of pads depends on no field of a pad that its reader may not read.
pub fn listing_law()
    ensures { ListingLaw }
{}
