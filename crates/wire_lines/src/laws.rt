//! A law of lines, as the contract of a function that does nothing.
ghost use Rattle.wire_lines.specs.Served.{LinesLaw};

/// Successive finds give the lines of the bytes.
pub fn lines_law()
    ensures { LinesLaw }
{}
