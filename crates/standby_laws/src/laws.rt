//! Laws of a main server and its standby. Each law is the contract of a function without parameters.
ghost use Rattle.standby_laws.specs.Laws.{CrashesLaw, LastingLaw, PromotionLaw, ReachLaw, StandbyLaw};

/// After any events, the copy has the first bytes of the main server's file, with every confirmed line.
pub fn standby_law()
    ensures { StandbyLaw }
{}

/// Whatever happens later, confirmed bytes stay confirmed, and the main server's file stays the same there.
pub fn lasting_law()
    ensures { LastingLaw }
{}

/// After any events, and after a crash of the standby or none, a server with any number that starts on the copy serves the
/// pad as it was, restarted, with every confirmed line.
pub fn promotion_law()
    ensures { PromotionLaw }
{}

/// Each crash is an event: after it, the files of either server are those with which the event lets it start again.
pub fn crashes_law()
    ensures { CrashesLaw }
{}

/// Events lead to each copy that the law of the standby permits, so the laws are about something.
pub fn reach_law()
    ensures { ReachLaw }
{}
