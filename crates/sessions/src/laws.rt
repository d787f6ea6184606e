//! Laws of users and their names, each the contract of a function that does nothing.
ghost use Rattle.sessions.specs.UserLaws.{OneAuthorLaw, OneUserLaw, TellsUserLaw};

/// Two users from whom one name is made are one user, and such a name tells its user.
pub fn user_names_law()
    ensures one { OneUserLaw }
    ensures tells { TellsUserLaw }
{}

/// By an accounts file, two users of a proxy who are one author are one user, whether they are persons or not.
pub fn one_author_law()
    ensures { OneAuthorLaw }
{}
