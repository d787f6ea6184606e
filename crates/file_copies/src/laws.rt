//! The contents of a copy of a file, whatever stretches were sent, repeated or lost, and its remains after a crash.
//! Each law is the contract of a function without parameters.
ghost use Rattle.file_copies.specs.Laws.{CopyCrashLaw, CopyLaw, LogLaw, StretchLaw};

/// Whole lines, each linked to the one before it, are the lines of some texts.
pub fn stretch_law()
    ensures { StretchLaw }
{}

/// Whatever stretches of a file a copy takes, it has the first lines of the file.
pub fn copy_law()
    ensures { CopyLaw }
{}

/// The remains of a copy after a crash are remains that a crash could leave of the file itself.
pub fn copy_crash_law()
    ensures { CopyCrashLaw }
{}

/// A copy that is completed from the log of its stretches equals the earlier copy, whatever a crash left after the
/// synced bytes.
pub fn log_law()
    ensures { LogLaw }
{}
