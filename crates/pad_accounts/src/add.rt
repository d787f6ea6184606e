//! Adds authors with new tokens.
ghost use Rattle.std.specs.Prelude.{◌≡◌, Ok, IfOk, true, []};
ghost use Rattle.sessions.specs.Accounts.{accounts_of};
ghost use Rattle.pad_accounts.specs.Added.{Adds, each_logs_in, names_of_new, names_to_add, with_links};

use crate::account_file::AccountFile;
use crate::checked::{check, logs_in};
use crate::failure::AccountsFailure;
use crate::lines::with_authors;
use crate::link::{LinkForm, push_link};
use crate::names::{ListedName, wrong_name};
use crate::new_author::{NewAuthor, SecretKind};
use crate::token::{TOKEN_LENGTH, token_of};
use sessions::{Accounts, AccountsError};
use std::alloc::Global;
use std::fs::File;
use std::io;
use std::io::Read;

/// The file from which random bytes are read.
const RANDOM: &str = "/dev/urandom";

/// The result of an addition.
#[derive(Drop)]
pub struct Addition {
    /// The new text of the accounts file.
    pub text: Vec<u8>,
    /// The lines with the links of the new authors.
    pub links: Vec<u8>,
}

/// Adds authors to an accounts file, which is made if it is not there, and returns the lines with their links. If one
/// name cannot be added, nothing is written.
pub fn add<'a>(
    rt: &HostRuntime,
    path: &'a str,
    names: &[ListedName<'a>],
    kind: SecretKind,
    form: LinkForm<'a>,
) -> Result<Vec<u8>, AccountsFailure<'a>> {
    let held = AccountFile::open(rt, path)?;
    let text = held.read_or_begin(rt)?;
    check(rt.alloc(), path, text.as_slice())?;
    let added = prepare_addition(rt, text.as_slice(), names, kind, form)?;
    held.replace(rt, added.text.as_slice())?;
    Ok(added.links)
}

/// Adds these authors to this text, each with a new token.
fn prepare_addition<'a>(
    rt: &HostRuntime,
    text: &[u8],
    names: &[ListedName<'a>],
    kind: SecretKind,
    form: LinkForm<'a>,
) -> Result<Addition, AccountsFailure<'a>> {
    if let Some(wrong) = wrong_name(text, names) {
        return Err(AccountsFailure::WrongName(wrong));
    }
    let new = with_tokens(rt, names)?;
    extend(rt.alloc(), text, new.as_slice(), kind, form)
}

/// These authors, each with a new token.
fn with_tokens<'a>(
    rt: &HostRuntime,
    names: &[ListedName<'a>],
) -> Result<Vec<NewAuthor<'a>>, AccountsFailure<'static>>
    ensures { IfOk result (λ new. names_of_new new.items ≡ names_to_add names.now) }
{
    let alloc = rt.alloc();
    let mut source = match File::open(rt, RANDOM) {
        Ok(source) => source,
        Err(cause) => return Err(AccountsFailure::NoRandom(cause)),
    };
    let mut new = Vec::new(alloc);
    for named in names {
        let random = match random_bytes(&mut source) {
            Ok(random) => random,
            Err(cause) => return Err(AccountsFailure::NoRandom(cause)),
        };
        new.push(NewAuthor {
            name: named.name,
            token: token_of(alloc, random.as_slice())?,
        })?;
    }
    Ok(new)
}

/// As many random bytes as a token has characters. Fewer are an error.
fn random_bytes(source: &mut File) -> io::Result<[u8; TOKEN_LENGTH]> {
    let mut bytes = [0; TOKEN_LENGTH];
    source.read_exact(&mut bytes)?;
    Ok(bytes)
}

/// The text with these authors, and their links. With the result, each of them logs in.
pub fn extend(
    alloc: Global,
    text: &[u8],
    new: &[NewAuthor<'_>],
    kind: SecretKind,
    form: LinkForm<'_>,
) -> Result<Addition, AccountsFailure<'static>>
    ensures { IfOk result (Adds text.now new.now kind form.entry) }
{
    let text = with_authors(alloc, text, new, kind)?;
    let accounts = check_more(alloc, text.as_slice())?;
    let links = links_of(alloc, &accounts, new, form)?;
    Ok(Addition { text, links })
}

/// The accounts of the text that is to be written, as a server reads them.
fn check_more(alloc: Global, more: &[u8]) -> Result<Accounts, AccountsFailure<'static>>
    ensures { IfOk result (λ accounts. accounts_of more.now ≡ Ok accounts) }
{
    match Accounts::read(alloc, more) {
        Ok(accounts) => Ok(accounts),
        Err(AccountsError::BadLine { mistake, .. }) => Err(AccountsFailure::WouldBeWrong(mistake)),
        Err(AccountsError::Memory) => Err(AccountsFailure::Memory),
    }
}

/// A line with the link of each author, if all of them log in by these accounts.
fn links_of(
    alloc: Global,
    accounts: &Accounts,
    new: &[NewAuthor<'_>],
    form: LinkForm<'_>,
) -> Result<Vec<u8>, AccountsFailure<'static>>
    ensures links { IfOk result (λ links. links.items ≡ with_links [] form.entry new.now) }
    ensures log_in { IfOk result (λ _. each_logs_in accounts.now new.now ≡ true) }
{
    let mut links = Vec::new(alloc);
    for author in new {
        let token = author.token.as_slice();
        if !logs_in(accounts, author.name, token) {
            return Err(AccountsFailure::NoLogin);
        }
        push_link(&mut links, form, author.name, token)?;
    }
    Ok(links)
}
