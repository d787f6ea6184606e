//! The lines of an accounts file, each with its line feed, and which of them is an author's.
ghost use Rattle.std.specs.Prelude.{◌≡◌, ◌<◌, ◌∷◌, ◌++◌, [], ◌==◌, codes, length, string_bytes, IfOk, OnOk, option_map};
ghost use Rattle.std.specs.List.{position};
ghost use Rattle.sessions.specs.Secrets.{hash_of};
ghost use Rattle.pad_accounts.specs.Lines.{is_line_of, is_out, line_end, raw_lines, rest_in, rest_on, stripped, token_in, with_author, with_authors, without};
ghost use Rattle.pad_accounts.specs.Lines as lines;

use crate::new_author::{NewAuthor, SecretKind};
use sha2::{Digest, Sha256};
use std::alloc::{AllocError, Global};

/// The first line with its line feed, and the bytes after it.
pub fn cut_line(bytes: &[u8]) -> (&[u8], &[u8])
    requires { 0 < length bytes.now }
    ensures lines { raw_lines bytes.now ≡ result.0.now ∷ raw_lines result.1.now }
    ensures shorter { length result.1.now < length bytes.now }
{
    match place_of(b'\n', bytes) {
        Some(end) => (&bytes[..end + 1], &bytes[end + 1..]),
        None => (bytes, &[]),
    }
}

/// The index of the first byte with this value.
fn place_of(byte: u8, bytes: &[u8]) -> Option<usize>
    ensures { result ≡ position (λ b. b == byte) bytes.now }
{
    bytes.iter().position(|b| *b == byte)
}

/// A line without its line feed, and without a carriage return in front of it.
pub fn without_end(line: &[u8]) -> &[u8]
    ensures { result.now ≡ lines.without_end line.now }
{
    match before_end(b"\n", line) {
        Some(rest) => before_end(b"\r", rest).unwrap_or(rest),
        None => line,
    }
}

/// The text before an end, if it has this end.
fn before_end<'t>(end: &[u8], text: &'t [u8]) -> Option<&'t [u8]>
    ensures { option_map (λ rest. rest.now) result ≡ lines.before_end end.now text.now }
{
    text.strip_suffix(end)
}

/// The text after a prefix, if it has this prefix.
pub fn strip<'t>(prefix: &[u8], text: &'t [u8]) -> Option<&'t [u8]>
    ensures { option_map (λ rest. rest.now) result ≡ stripped prefix.now text.now }
{
    text.strip_prefix(prefix)
}

/// The bytes in front of the first space.
pub fn first_word(text: &[u8]) -> &[u8]
    ensures { result.now ≡ lines.first_word text.now }
{
    match place_of(b' ', text) {
        Some(end) => &text[..end],
        None => text,
    }
}

/// The rest of a line after a first word with its space, a name and a space.
fn rest_on<'t>(kind: &[u8], line: &'t [u8], name: &[u8]) -> Option<&'t [u8]>
    ensures { option_map (λ rest. rest.now) result ≡ rest_on kind.now name.now line.now }
{
    let rest = strip(kind, line)?;
    let rest = strip(name, rest)?;
    strip(b" ", rest)
}

/// The rest of the first line that begins with them.
pub fn rest_of<'t>(kind: &[u8], text: &'t [u8], name: &[u8]) -> Option<&'t [u8]>
    ensures { option_map (λ rest. rest.now) result ≡ rest_in kind.now name.now (raw_lines text.now) }
{
    let mut rest = text;
    while !rest.is_empty() {
        let (line, after) = cut_line(rest);
        if let Some(found) = rest_on(kind, line, name) {
            return Some(without_end(found));
        }
        rest = after;
    }
    None
}

/// The token of an author, if a line has it.
pub fn token_of<'t>(text: &'t [u8], name: &[u8]) -> Option<&'t [u8]>
    ensures { option_map (λ token. token.now) result ≡ token_in name.now (raw_lines text.now) }
{
    rest_of(b"author ", text, name)
}

/// The lines of a name that are taken out.
#[derive(Clone, Copy)]
pub enum Taken {
    /// Those of the token, of the hash, and of the person.
    AllLines,
    /// That of the person.
    PersonLine,
}

/// Returns true if a line is taken out.
fn is_out(taken: Taken, line: &[u8], name: &[u8]) -> bool
    ensures { result ≡ is_out taken name.now line.now }
{
    match taken {
        Taken::AllLines => is_line_of(line, name),
        Taken::PersonLine => rest_on(b"person ", line, name).is_some(),
    }
}

/// Returns true if a line is an author's: that of a token, of a hash, or of a person.
fn is_line_of(line: &[u8], name: &[u8]) -> bool
    ensures { result ≡ is_line_of name.now line.now }
{
    rest_on(b"author ", line, name).is_some()
        || rest_on(b"hash ", line, name).is_some()
        || rest_on(b"person ", line, name).is_some()
}

/// The text without these lines of a name. Every other line stays unchanged.
pub fn without(alloc: Global, text: &[u8], name: &[u8], taken: Taken) -> Result<Vec<u8>, AllocError>
    ensures { IfOk result (λ kept. kept.items ≡ without taken name.now (raw_lines text.now)) }
{
    let mut kept = Vec::new(alloc);
    let mut rest = text;
    while !rest.is_empty() {
        let (line, after) = cut_line(rest);
        if !is_out(taken, line, name) {
            kept.extend_from_slice(line)?;
        }
        rest = after;
    }
    Ok(kept)
}

/// The text, followed by a line for each of these authors, in their order.
pub fn with_authors(
    alloc: Global,
    text: &[u8],
    new: &[NewAuthor<'_>],
    kind: SecretKind,
) -> Result<Vec<u8>, AllocError>
    ensures { IfOk result (λ more. more.items ≡ with_authors kind text.now new.now) }
{
    let mut more = Vec::new(alloc);
    more.extend_from_slice(text)?;
    more.extend_from_slice(line_end(text))?;
    for author in new {
        push_author(alloc, &mut more, author, kind)?;
    }
    Ok(more)
}

/// The line feed that a text lacks, if its last line has none.
pub fn line_end(text: &[u8]) -> &'static [u8]
    ensures { result.now ≡ line_end text.now }
{
    if text.is_empty() || before_end(b"\n", text).is_some() {
        b""
    } else {
        b"\n"
    }
}

/// Adds an author's line.
fn push_author(
    alloc: Global,
    text: &mut Vec<u8>,
    author: &NewAuthor<'_>,
    kind: SecretKind,
) -> Result<(), AllocError>
    ensures { OnOk result (text.new.items ≡ with_author kind text.old.items author.now) }
{
    match kind {
        SecretKind::Token => push_line(text, b"author ", author.name, author.token.as_slice()),
        SecretKind::Hash => {
            let hash = hash_of(alloc, author.token.as_slice())?;
            push_line(text, b"hash ", author.name, hash.as_str().as_bytes())
        }
    }
}

/// Adds a line of three words, the first of which comes with its space.
fn push_line(text: &mut Vec<u8>, kind: &[u8], name: &[u8], secret: &[u8]) -> Result<(), AllocError>
    ensures { OnOk result (text.new.items
        ≡ text.old.items ++ kind.now ++ name.now ++ codes " " ++ secret.now ++ (10 ∷ [])) }
{
    text.extend_from_slice(kind)?;
    text.extend_from_slice(name)?;
    text.extend_from_slice(b" ")?;
    text.extend_from_slice(secret)?;
    text.extend_from_slice(b"\n")
}

/// The hash of a token: its SHA-256, in lower-case hex.
fn hash_of(alloc: Global, token: &[u8]) -> Result<String, AllocError>
    ensures { IfOk result (λ hash. string_bytes hash ≡ hash_of token.now) }
{
    hex::encode(alloc, Sha256::digest(token))
}
