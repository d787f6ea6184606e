//! Laws of the definitions, each the contract of a function that does nothing.
ghost use Rattle.server_core.specs.LogIns.{AccountsLaw};
ghost use Rattle.server_core.specs.Names.{NamesLaw};

/// After any steps of any actors and any new accounts, the cells with a name are the first of the row, no two have the
/// same name, and a name once given stays. So a scan for a pad can stop at the first cell without a name.
pub fn names_law()
    ensures { NamesLaw }
{}

/// New accounts affect only log-ins and display names: every other step has the same result under any accounts, and
/// leaves the same actors and pads. So sessions go on, even those of accounts that were removed.
pub fn accounts_law()
    ensures { AccountsLaw }
{}
