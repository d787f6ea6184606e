//! The command that the program runs, by its command line.
ghost use Rattle.std.specs.Prelude.{◌≡◌};
ghost use Rattle.pad_accounts.specs.Modes.{added_by, done_with, form_of, kind_of, misuse_of, mode_of, needless, only_of, with_deed, wrong_form};
ghost use Rattle.pad_accounts.specs.Modes as modes;

use crate::args::AccountsArguments;
use crate::link::LinkForm;
use crate::new_author::SecretKind;
use crate::origin::is_origin;
use pad_model::is_well_formed_name;
use thiserror::Error;

/// A command of the program.
#[derive(Clone, Copy)]
pub enum AccountsDeed {
    Add,
    Remove,
    List,
    Link,
    Person,
}

/// A command with its arguments.
#[derive(Drop)]
pub enum AccountsMode<'a> {
    /// Adds the authors that are named.
    Add {
        file: &'a str,
        names: Vec<&'a str>,
        kind: SecretKind,
        form: LinkForm<'a>,
    },
    /// Adds the authors on the lines of a list.
    AddList {
        file: &'a str,
        list: &'a str,
        kind: SecretKind,
        form: LinkForm<'a>,
    },
    /// Removes an author, and the line of the person.
    Remove {
        file: &'a str,
        name: &'a str,
    },
    /// Prints the authors, the numbers of the peers, and the persons.
    List {
        file: &'a str,
    },
    /// Prints the link of an author.
    Link {
        file: &'a str,
        name: &'a str,
        form: LinkForm<'a>,
    },
    /// Sets the line of a person: the name, the ID and the words of the display name.
    Person {
        file: &'a str,
        words: Vec<&'a str>,
    },
}

/// An error in a command line that clap accepts.
#[derive(Clone, Copy, Debug, Error)]
pub enum AccountsMisuse<'a> {
    #[error("the command is add, remove, list, link or person")]
    NoCommand,
    #[error("add needs a name, or --from <LIST>")]
    NoNames,
    #[error("add takes names or --from <LIST>, and not both")]
    NamesAndList,
    #[error("remove takes one name")]
    RemoveOne,
    #[error("list takes no name")]
    ListNone,
    #[error("link takes one name")]
    LinkOne,
    #[error("person takes a name, an ID, or - for none, and a display name")]
    PersonWords,
    #[error("--from <LIST> is for add")]
    From,
    #[error("--hash is for add")]
    Hash,
    #[error("--at <URL> is for add and link")]
    At,
    #[error("--pad <PAD> is for add and link")]
    Pad,
    #[error("--at: {0:?} is not an origin; write http:// or https:// with a host, and a port if the address has one, as https://pads.example")]
    NotAnOrigin(&'a str),
    #[error("--pad: {0:?} is not a pad's name; a name has 1 to 32 characters of a-z, 0-9 and -")]
    NotAPad(&'a str),
}

impl<'a> AccountsArguments<'a> {
    /// The command with its arguments. Each option has to belong to the command.
    pub fn mode(self) -> Result<AccountsMode<'a>, AccountsMisuse<'a>>
        ensures { result ≡ mode_of self.entry }
    {
        match (self.command, self.file) {
            (Some(command), Some(file)) => self.mode_with(file, deed_of(command)),
            _ => Err(AccountsMisuse::NoCommand),
        }
    }

    // A command of the program.
    fn mode_with(
        self,
        file: &'a str,
        deed: Option<AccountsDeed>,
    ) -> Result<AccountsMode<'a>, AccountsMisuse<'a>>
        ensures { result ≡ with_deed self.entry file.entry deed }
    {
        let Some(deed) = deed else {
            return Err(AccountsMisuse::NoCommand);
        };
        match self.misuse(deed) {
            Some(misuse) => Err(misuse),
            None => self.done(file, deed),
        }
    }

    // The mode of a command with its options.
    fn done(self, file: &'a str, deed: AccountsDeed) -> Result<AccountsMode<'a>, AccountsMisuse<'a>>
        ensures { result ≡ done_with self.entry file.entry deed }
    {
        let form = self.form();
        match deed {
            AccountsDeed::Add => self.added(file, form),
            AccountsDeed::Remove => match self.only_name() {
                Some(name) => Ok(AccountsMode::Remove { file, name }),
                None => Err(AccountsMisuse::RemoveOne),
            },
            AccountsDeed::List if self.names.is_empty() => Ok(AccountsMode::List { file }),
            AccountsDeed::List => Err(AccountsMisuse::ListNone),
            AccountsDeed::Link => match self.only_name() {
                Some(name) => Ok(AccountsMode::Link { file, name, form }),
                None => Err(AccountsMisuse::LinkOne),
            },
            AccountsDeed::Person if self.names.len() >= 3 => Ok(AccountsMode::Person {
                file,
                words: self.names,
            }),
            AccountsDeed::Person => Err(AccountsMisuse::PersonWords),
        }
    }

    // The name, if there is exactly one.
    fn only_name(&self) -> Option<&'a str>
        ensures { result ≡ only_of self.now.names.items }
    {
        if self.names.len() == 1 {
            self.names.first().copied()
        } else {
            None
        }
    }

    // An addition of the names, or of those on a list.
    fn added(
        self,
        file: &'a str,
        form: LinkForm<'a>,
    ) -> Result<AccountsMode<'a>, AccountsMisuse<'a>>
        ensures { result ≡ added_by self.entry file.entry form.entry }
    {
        let kind = self.kind();
        match self.from {
            Some(list) if self.names.is_empty() => Ok(AccountsMode::AddList {
                file,
                list,
                kind,
                form,
            }),
            Some(_) => Err(AccountsMisuse::NamesAndList),
            None if self.names.is_empty() => Err(AccountsMisuse::NoNames),
            None => Ok(AccountsMode::Add {
                file,
                names: self.names,
                kind,
                form,
            }),
        }
    }

    // The form in which the accounts file has the tokens.
    fn kind(&self) -> SecretKind
        ensures { result ≡ kind_of self.now }
    {
        if self.hash {
            SecretKind::Hash
        } else {
            SecretKind::Token
        }
    }

    // The target of the links.
    fn form(&self) -> LinkForm<'a>
        ensures { result ≡ form_of self.now }
    {
        LinkForm {
            at: self.at,
            pad: self.pad,
        }
    }

    // The error in the options of a command, if any.
    fn misuse(&self, deed: AccountsDeed) -> Option<AccountsMisuse<'a>>
        ensures { result ≡ misuse_of deed self.now }
    {
        match deed {
            AccountsDeed::Add => self.needless(false, false),
            AccountsDeed::Link => self.needless(true, false),
            AccountsDeed::Remove | AccountsDeed::List | AccountsDeed::Person => {
                self.needless(true, true)
            }
        }
    }

    // The first option that is given although the command has none, or whose value is wrong.
    fn needless(&self, no_from: bool, no_form: bool) -> Option<AccountsMisuse<'a>>
        ensures { result ≡ needless no_from no_form self.now }
    {
        if no_from && self.from.is_some() {
            Some(AccountsMisuse::From)
        } else if no_from && self.hash {
            Some(AccountsMisuse::Hash)
        } else if no_form && self.at.is_some() {
            Some(AccountsMisuse::At)
        } else if no_form && self.pad.is_some() {
            Some(AccountsMisuse::Pad)
        } else {
            wrong_form(self.at, self.pad)
        }
    }
}

// The error in the values of `--at` and `--pad`, if any.
fn wrong_form<'a>(at: Option<&'a str>, pad: Option<&'a str>) -> Option<AccountsMisuse<'a>>
    ensures { result ≡ wrong_form at.entry pad.entry }
{
    match (at, pad) {
        (Some(at), _) if !is_origin(at) => Some(AccountsMisuse::NotAnOrigin(at)),
        (_, Some(pad)) if !is_well_formed_name(pad) => Some(AccountsMisuse::NotAPad(pad)),
        _ => None,
    }
}

// The command with this name.
fn deed_of(command: &str) -> Option<AccountsDeed>
    ensures { result ≡ modes.deed_of command.now }
{
    match command {
        "add" => Some(AccountsDeed::Add),
        "remove" => Some(AccountsDeed::Remove),
        "list" => Some(AccountsDeed::List),
        "link" => Some(AccountsDeed::Link),
        "person" => Some(AccountsDeed::Person),
        _ => None,
    }
}
