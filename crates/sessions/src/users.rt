//! The author that a user of a proxy is, by the accounts file, and the text shown for one who has no line.
ghost use Rattle.std.specs.Prelude.{◌≡◌, true, IfOk, IfSome};
ghost use Rattle.pad_model.specs.Checked.{is_name};
ghost use Rattle.sessions.specs.Users.{author_or_stranger, for_users, is_given, made_author, shown_for, shown_user};
ghost use Rattle.sessions.specs.UserNames.{name_for, user_for};

use crate::accounts::Accounts;
use crate::line::{display_text, name_text};
use crate::user_name::{letters_for, user_for};
use crate::word::Word;
use guests::is_guest;
use pad_model::Name;
use std::alloc::{AllocError, Global};

/// The reason a user of a proxy is not an author.
#[derive(Debug, Drop)]
pub enum Stranger {
    /// No person has it as its ID.
    NoLine,
    /// No author can have the name that is made from it: it is empty, too long, or a guest's.
    NoName,
    /// The accounts file gives the name that is made from it to somebody.
    Taken(Name),
}

impl Accounts {
    /// The author who a user of a proxy is: the person with this ID, or if any user is an author, the one with the name that
    /// is made from it.
    #[tactic(auto, unfolding(crate::specs::Users::author_or_stranger))]
    pub fn author_or_stranger(
        &self,
        alloc: Global,
        user: &[u8],
    ) -> Result<Result<Name, Stranger>, AllocError>
        ensures value { IfOk result (λ found. found ≡ author_or_stranger user.now self.now) }
        ensures named { IfOk result (λ found. IfOk found (λ name. is_name name ≡ true)) }
    {
        match self.author_of(user) {
            Some(name) if name.is_well_formed() => Ok(Ok(name.clone()?)),
            Some(_) => Ok(Err(Stranger::NoLine)),
            None => self.made_author(alloc, user),
        }
    }

    // The author with the name that is made from a user, if any user is an author. Nobody from a proxy can be taken for a guest.
    fn made_author(&self, alloc: Global, user: &[u8]) -> Result<Result<Name, Stranger>, AllocError>
        ensures value { IfOk result (λ found. found ≡ made_author (name_for user.now) self.now) }
        ensures named { IfOk result (λ found. IfOk found (λ name. is_name name ≡ true)) }
    {
        if !self.takes_any_user() {
            return Ok(Err(Stranger::NoLine));
        }
        let Some(name) = name_of(alloc, user)? else {
            return Ok(Err(Stranger::NoName));
        };
        if self.gives(&name) {
            Ok(Err(Stranger::Taken(name)))
        } else {
            Ok(Ok(name))
        }
    }

    // Returns true if the accounts file gives this name to somebody.
    fn gives(&self, name: &Name) -> bool
        ensures { result ≡ is_given name.now self.now }
    {
        self.has_author(name.as_str()) || self.display_of(name).is_some()
    }

    /// The text shown for a name: the display name of the person with it, or the user from whom it is made.
    pub fn shown_for(&self, alloc: Global, name: &Name) -> Result<Option<Word>, AllocError>
        ensures { IfOk result (λ shown. shown ≡ shown_for name.now self.now) }
    {
        if let Some(display) = self.display_of(name) {
            return Ok(Some(Word::from_str(alloc, display)?));
        }
        if !self.takes_any_user() || self.has_author(name.as_str()) {
            return Ok(None);
        }
        shown_user(alloc, name.as_str())
    }
}

// The name that is made from a user, if an author can have it, and it is no guest's.
#[tactic(auto, unfolding(crate::specs::Users::is_for_users))]
fn name_of(alloc: Global, user: &[u8]) -> Result<Option<Name>, AllocError>
    ensures value { IfOk result (λ name. name ≡ for_users (name_for user.now)) }
    ensures named { IfOk result (λ name. IfSome name (λ n. is_name n ≡ true)) }
{
    let letters = letters_for(alloc, user)?;
    let Ok(text) = name_text(letters.as_slice()) else {
        return Ok(None);
    };
    let name = Name::from_str(alloc, text)?;
    if is_guest(&name) {
        Ok(None)
    } else {
        Ok(Some(name))
    }
}

// The user from whom a name is made, if it can be shown and its name does not say the same.
fn shown_user(alloc: Global, name: &str) -> Result<Option<Word>, AllocError>
    ensures { IfOk result (λ shown. shown ≡ shown_user name.now (user_for name.now)) }
{
    let Some(user) = user_for(alloc, name.as_bytes())? else {
        return Ok(None);
    };
    match display_text(user.as_slice()) {
        Ok(display) if display != name => Ok(Some(Word::from_str(alloc, display)?)),
        _ => Ok(None),
    }
}
