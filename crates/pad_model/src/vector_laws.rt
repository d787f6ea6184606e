//! Laws of version vectors, each the contract of a function that does nothing.
ghost use Rattle.pad_model.specs.VectorLaws.{CountLaw, OthersLaw, ShapeLaw, CountsLaw};

/// Reading a count returns the one that was set.
pub fn count_law()
    ensures { CountLaw }
{}

/// Setting a count leaves every other count unchanged.
pub fn others_law()
    ensures { OthersLaw }
{}

/// Setting a count of a vector gives a vector.
pub fn shape_law()
    ensures { ShapeLaw }
{}

/// Vectors with the same counts are equal.
pub fn counts_law()
    ensures { CountsLaw }
{}
