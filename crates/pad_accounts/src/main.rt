//! Adds authors to an accounts file, removes them, lists them, prints the links with which they log in, and says who they are.
#![tactic(auto)]

mod account_file;
mod add;
mod args;
mod checked;
mod failure;
mod lines;
mod link;
mod listed;
mod mode;
mod names;
mod new_author;
mod options;
mod origin;
mod person;
mod remove;
mod token;

use account_file::{read_accounts_file, read_list};
use add::add;
use args::parse;
use checked::check;
use command_line::report;
use failure::AccountsFailure;
use lines::token_of;
use link::{LinkForm, push_link};
use listed::listed;
use mode::AccountsMode;
use names::{ListedName, has_author, names_in, words_as_names};
use new_author::SecretKind;
use person::introduce;
use remove::remove;
use std::alloc::Global;
use std::io;
use std::io::Write;
use std::process::ExitCode;

fn main(rt: HostRuntime) -> ExitCode {
    let alloc = rt.alloc();
    let words = match words_of(&rt, alloc) {
        Ok(words) => words,
        Err(cause) => return end(&rt, AccountsFailure::of_arguments(cause)),
    };
    let asked = match parse(alloc, words.as_slice()) {
        Ok(asked) => asked,
        Err(error) => return report(&rt, "pad_accounts", &error),
    };
    let mode = match asked.mode() {
        Ok(mode) => mode,
        Err(misuse) => {
            let _told = eprintln!(rt; "pad_accounts: {misuse}");
            return ExitCode::from(2);
        }
    };
    let list = match list_of(&rt, &mode) {
        Ok(list) => list,
        Err(failure) => return end(&rt, failure),
    };
    match run(&rt, mode, list.as_slice()) {
        Ok(()) => ExitCode::SUCCESS,
        Err(failure) => end(&rt, failure),
    }
}

/// The words of the command line.
fn words_of(rt: &HostRuntime, alloc: Global) -> io::Result<Vec<String>> {
    Ok(std::env::args(rt)?.collect(alloc)?)
}

/// Prints why the program ends, and returns the exit status, which reports it even if standard error is closed.
fn end(rt: &HostRuntime, failure: AccountsFailure<'_>) -> ExitCode {
    let _told = eprintln!(rt; "pad_accounts: {failure}");
    failure.status()
}

/// The bytes of the list that `--from` names; none without it.
fn list_of<'a>(rt: &HostRuntime, mode: &AccountsMode<'a>) -> Result<Vec<u8>, AccountsFailure<'a>> {
    match mode {
        AccountsMode::AddList { list, .. } => read_list(rt, list),
        _ => Ok(Vec::new(rt.alloc())),
    }
}

/// Does what the command line asks for. `list` is the content of the file that `--from` names.
fn run<'a>(
    rt: &HostRuntime,
    mode: AccountsMode<'a>,
    list: &'a [u8],
) -> Result<(), AccountsFailure<'a>> {
    let alloc = rt.alloc();
    match mode {
        AccountsMode::Add {
            file,
            names,
            kind,
            form,
        } => {
            let names = words_as_names(alloc, names.as_slice())?;
            add_all(rt, file, names.as_slice(), kind, form)
        }
        AccountsMode::AddList {
            file,
            list: path,
            kind,
            form,
        } => {
            let names = names_in(alloc, list)?;
            if names.is_empty() {
                return Err(AccountsFailure::EmptyList { path });
            }
            add_all(rt, file, names.as_slice(), kind, form)
        }
        AccountsMode::Remove { file, name } => remove(rt, file, name),
        AccountsMode::List { file } => list_all(rt, file),
        AccountsMode::Link { file, name, form } => print_link(rt, file, name, form),
        AccountsMode::Person { file, words } => introduce(rt, file, words.as_slice()),
    }
}

/// Adds these authors, and prints a link for each.
fn add_all<'a>(
    rt: &HostRuntime,
    path: &'a str,
    names: &[ListedName<'a>],
    kind: SecretKind,
    form: LinkForm<'a>,
) -> Result<(), AccountsFailure<'a>> {
    let links = add(rt, path, names, kind, form)?;
    print(rt, links.as_slice())
}

/// Prints the authors, the numbers of the peers, and the persons.
fn list_all<'a>(rt: &HostRuntime, path: &'a str) -> Result<(), AccountsFailure<'a>> {
    let text = read_accounts_file(rt, path)?;
    check(rt.alloc(), path, text.as_slice())?;
    let shown = listed(rt.alloc(), text.as_slice())?;
    print(rt, shown.as_slice())
}

/// Prints the link of an author.
fn print_link<'a>(
    rt: &HostRuntime,
    path: &'a str,
    name: &'a str,
    form: LinkForm<'a>,
) -> Result<(), AccountsFailure<'a>> {
    let text = read_accounts_file(rt, path)?;
    check(rt.alloc(), path, text.as_slice())?;
    let Some(token) = token_of(text.as_slice(), name.as_bytes()) else {
        return Err(match has_author(text.as_slice(), name.as_bytes()) {
            true => AccountsFailure::OnlyHash { path, name },
            false => AccountsFailure::NoAuthor { path, name },
        });
    };
    let mut shown = Vec::new(rt.alloc());
    push_link(&mut shown, form, name.as_bytes(), token)?;
    print(rt, shown.as_slice())
}

/// Writes to standard output.
fn print(rt: &HostRuntime, bytes: &[u8]) -> Result<(), AccountsFailure<'static>> {
    let mut out = io::writer(rt);
    match out.write_all(bytes) {
        Ok(()) => match out.flush() {
            Ok(()) => Ok(()),
            Err(cause) => Err(AccountsFailure::of_output(cause)),
        },
        Err(cause) => Err(AccountsFailure::of_output(cause)),
    }
}
