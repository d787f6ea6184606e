//! Laws of the definitions, each the contract of a function that does nothing.
ghost use Rattle.wire_json.specs.Laws.{ReadAgainLaw};

/// An operation within the limits is read as it was written.
pub fn read_again_law()
    ensures { ReadAgainLaw }
{}
