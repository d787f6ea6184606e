//! The names that are to be added, and the faults that they can have.
ghost use Rattle.std.specs.Prelude.{◌≡◌, [], map, is_some, IfOk};
ghost use Rattle.pad_model.specs.Checked.{is_name};
ghost use Rattle.pad_accounts.specs.Lines.{raw_lines, rest_in};
ghost use Rattle.pad_accounts.specs.Names.{fault_of, first_fault, has_author, is_passed_over, names_from, seen, was_named};
ghost use Rattle.pad_accounts.specs.Names as spec;

use crate::lines::{cut_line, rest_of, without_end};
use pad_model::is_well_formed_name;
use std::alloc::{AllocError, Global};

/// A name that is to be added, with the number of its line if it is from a list.
#[derive(Clone, Copy)]
pub struct ListedName<'a> {
    pub name: &'a [u8],
    pub line: Option<u64>,
}

/// The fault of a name that is to be added.
#[derive(Clone, Copy)]
pub enum NameFault {
    /// It is not 1 to 32 characters of a-z, 0-9 and -.
    NotAName,
    /// It was named before.
    Twice,
    /// The accounts file has it.
    Taken,
}

/// A name that cannot be added.
#[derive(Clone, Copy)]
pub struct WrongName<'a> {
    pub named: ListedName<'a>,
    pub fault: NameFault,
}

/// The names on a command line.
pub fn words_as_names<'a>(
    alloc: Global,
    words: &[&'a str],
) -> Result<Vec<ListedName<'a>>, AllocError>
    ensures { IfOk result (λ names. map seen names.items ≡ map spec.of_word words.now) }
{
    let mut names = Vec::new(alloc);
    for word in words {
        names.push(ListedName {
            name: word.as_bytes(),
            line: None,
        })?;
    }
    Ok(names)
}

/// The names of a list, one a line. Empty lines, and those that begin with #, are passed over.
pub fn names_in(alloc: Global, list: &[u8]) -> Result<Vec<ListedName<'_>>, AllocError>
    ensures { IfOk result (λ names. map seen names.items ≡ names_from 1 (raw_lines list.now)) }
{
    let mut names = Vec::new(alloc);
    let mut rest = list;
    let mut number = 0;
    while !rest.is_empty() {
        let (line, after) = cut_line(rest);
        number += 1;
        let name = without_end(line);
        if !is_passed_over(name) {
            names.push(ListedName {
                name,
                line: Some(number),
            })?;
        }
        rest = after;
    }
    Ok(names)
}

/// Returns true if a line of a list is empty or begins with #.
fn is_passed_over(line: &[u8]) -> bool
    ensures { result ≡ is_passed_over line.now }
{
    matches!(line, [] | [b'#', ..])
}

/// The first of these names that cannot be added to the accounts file with this text.
pub fn wrong_name<'a>(text: &[u8], names: &[ListedName<'a>]) -> Option<WrongName<'a>>
    ensures { result ≡ first_fault (raw_lines text.now) [] names.now }
{
    for i in 0..names.len() {
        if let Some(fault) = fault_in(text, &names[..i], names[i].name) {
            return Some(WrongName {
                named: names[i],
                fault,
            });
        }
    }
    None
}

/// The fault of a name that follows these, if any.
fn fault_in(text: &[u8], before: &[ListedName<'_>], name: &[u8]) -> Option<NameFault>
    ensures { result ≡ fault_of (raw_lines text.now) before.now name.now }
{
    if !is_well_formed(name) {
        Some(NameFault::NotAName)
    } else if was_named(before, name) {
        Some(NameFault::Twice)
    } else if has_author(text, name) {
        Some(NameFault::Taken)
    } else {
        None
    }
}

/// Returns true if one of these names is this one.
fn was_named(names: &[ListedName<'_>], name: &[u8]) -> bool
    ensures { result ≡ was_named name.now names.now }
{
    names.iter().any(|other| other.name == name)
}

/// Returns true if an accounts file with this text has the token or the hash of an author of this name.
pub fn has_author(text: &[u8], name: &[u8]) -> bool
    ensures { result ≡ has_author name.now (raw_lines text.now) }
{
    has_line(b"author ", text, name) || has_line(b"hash ", text, name)
}

/// Returns true if a line begins with this word and this name.
pub fn has_line(kind: &[u8], text: &[u8], name: &[u8]) -> bool
    ensures { result ≡ is_some (rest_in kind.now name.now (raw_lines text.now)) }
{
    match rest_of(kind, text, name) {
        Some(_rest) => true,
        None => false,
    }
}

/// Returns true if bytes are a name.
fn is_well_formed(name: &[u8]) -> bool
    ensures { result ≡ is_name name.now }
{
    match str::from_utf8(name) {
        Ok(name) => is_well_formed_name(name),
        Err(_) => false,
    }
}
