//! The remains of a pad's file after a crash. Each law is the contract of a function without parameters.
ghost use Rattle.store_format.specs.Laws.{CrashLaw, LinesLaw};
ghost use Rattle.store_format.specs.Writing.{WritingLaw};

/// The whole lines of a file that was cut off anywhere are those of its first texts, and the text of each line can be
/// read.
pub fn lines_law()
    ensures { LinesLaw }
{}

/// The remains of a pad's file after a crash are read as a restarted state that the pad had, and nothing that was
/// synced is lost.
pub fn crash_law()
    ensures { CrashLaw }
{}

/// Whatever is added and written, a file is the lines of the steps in their order, as `crash_law` asks.
pub fn writing_law()
    ensures { WritingLaw }
{}
