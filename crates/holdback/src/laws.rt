//! Laws of held operations, each the contract of a function that does nothing.
ghost use Rattle.holdback.specs.Laws.{HeldLaw, TakenLaw, ReadyLaw};

/// Adding an operation keeps those that were held and adds exactly this one.
pub fn held_law()
    ensures { HeldLaw }
{}

/// The operations that are removed and those that stay are together those that were held.
pub fn taken_law()
    ensures { TakenLaw }
{}

/// The name of the first ready operation finds that operation.
pub fn ready_law()
    ensures { ReadyLaw }
{}
