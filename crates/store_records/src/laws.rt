//! Laws of records and restarts. Each law is the contract of a function without parameters.
ghost use Rattle.store_records.specs.Laws.{DeparturesLaw, FrontsLaw, IdleLaw, LivesLaw, StepsLaw};

/// The records of a request lead from the restarted pad before it to the restarted pad after it.
pub fn steps_law()
    ensures { StepsLaw }
{}

/// The end of a visit leaves no record, and leaves a restarted pad unchanged.
pub fn departures_law()
    ensures { DeparturesLaw }
{}

/// The records that a pad left in all its lives are never refused, and lead to the restarted pad.
pub fn lives_law()
    ensures { LivesLaw }
{}

/// If the last records are lost, the remaining ones lead to the restarted pad as it was before the lost ones.
pub fn fronts_law()
    ensures { FrontsLaw }
{}

/// A request that may leave no records leaves none, whatever its answer.
pub fn idle_law()
    ensures { IdleLaw }
{}
