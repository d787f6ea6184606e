//! The lines of an accounts file.
ghost use Rattle.std.specs.Prelude.{◌≡◌, ◌<◌, ◌∷◌, true, false, ◌==◌, nat_le, min, length, MatchOption, MatchResult};
ghost use Rattle.std.specs.List.{list_all, list_any, position};
ghost use Rattle.std.specs.Str.Lines.{lines, strip_carriage_return};
ghost use Rattle.pad_model.specs.Checked.{is_name};
ghost use Rattle.std.specs.Str.{chars, is_utf8};
ghost use Rattle.sessions.specs.AccountsFile.{words, is_empty, is_shown, is_word, is_address, are_digits, is_number, decimal};
ghost use Rattle.sessions.specs.AccountsFile.{is_hash, is_hash_digit, is_plain, is_display};
ghost use Rattle.sessions.specs.AccountsFile.{name_mistake, number_mistake, token_mistake, address_mistake};
ghost use Rattle.sessions.specs.AccountsFile.{hash_mistake, id_mistake, display_mistake};
ghost use Rattle.sessions.specs.AccountsFile.{author_said, hash_said, peer_said, person_said, said_of_person, said_by, meaning};
ghost use Rattle.sessions.specs.Said.{said_or_mistake, words_behind};
ghost use Rattle.sessions.specs.declared.line.TheConstants.{MAX_TOKEN};

use crate::mistake::Mistake;
use pad_model::{MAX_NAME, MAX_REPLICA, is_well_formed_name};

/// The most bytes of a token.
pub const MAX_TOKEN: u64 = 64;

/// The most bytes of an address.
pub const MAX_ADDRESS: u64 = 255;

/// The most bytes of an ID.
pub const MAX_ID: u64 = 255;

/// The most characters of a display name.
pub const MAX_DISPLAY: u64 = 60;

/// The meaning of a line.
pub enum AccountLine<'a> {
    Skip,
    Author {
        name: &'a str,
        token: &'a str,
    },
    Hash {
        name: &'a str,
        hash: &'a str,
    },
    Peer {
        number: u16,
        token: &'a str,
        address: &'a str,
    },
    Person {
        name: &'a str,
        id: &'a [u8],
        display: &'a str,
    },
}

/// The first line, without its line end, and the bytes after it.
pub fn cut_line(bytes: &[u8]) -> (&[u8], &[u8])
    requires { 0 < length bytes.now }
    ensures lines { lines bytes.now ≡ result.0.now ∷ lines result.1.now }
    ensures shorter { length result.1.now < length bytes.now }
{
    match place_of(b'\n', bytes) {
        Some(end) => (without_return(&bytes[..end]), &bytes[end + 1..]),
        None => (bytes, &[]),
    }
}

/// The index of the first byte with this value.
fn place_of(byte: u8, bytes: &[u8]) -> Option<usize>
    ensures { result ≡ position (λ b. b == byte) bytes.now }
{
    bytes.iter().position(|b| *b == byte)
}

fn without_return(line: &[u8]) -> &[u8]
    ensures { result.now ≡ strip_carriage_return line.now }
{
    if line.is_empty() {
        return line;
    }
    let last = line.len() - 1;
    if line[last] == b'\r' {
        &line[..last]
    } else {
        line
    }
}

/// Reads a line; returns its meaning or its mistake.
pub fn read_line(line: &[u8]) -> Result<AccountLine<'_>, Mistake>
    ensures { said_or_mistake result ≡ meaning line.now }
{
    match line {
        [] | [b'#', ..] => Ok(AccountLine::Skip),
        _ if line.contains(&b'\t') => Err(Mistake::Tab),
        _ if has_empty_word(line) => Err(Mistake::ExtraSpace),
        _ => read_words(line),
    }
}

/// Returns true if the line has a space at its start, at its end or after another space.
fn has_empty_word(line: &[u8]) -> bool
    ensures { result ≡ list_any is_empty (words line.now) }
{
    let mut rest = Some(line);
    while let Some(text) = rest {
        let (word, after) = cut_word(text);
        if word.is_empty() {
            return true;
        }
        rest = after;
    }
    false
}

/// Reads the words of a line: the first one determines the form of the others.
fn read_words(line: &[u8]) -> Result<AccountLine<'_>, Mistake>
    ensures { said_or_mistake result ≡ said_by (words line.now) }
{
    let (kind, rest) = cut_word(line);
    if kind == b"author".as_slice() {
        author_line(rest)
    } else if kind == b"hash".as_slice() {
        hash_line(rest)
    } else if kind == b"peer".as_slice() {
        peer_line(rest)
    } else if kind == b"person".as_slice() {
        person_line(rest)
    } else {
        Err(Mistake::UnknownWord)
    }
}

/// The first word, and what follows the space after it, if there is one.
fn cut_word(text: &[u8]) -> (&[u8], Option<&[u8]>)
    ensures { words text.now ≡ result.0.now ∷ words_behind result.1 }
{
    match place_of(b' ', text) {
        Some(end) => (&text[..end], Some(&text[end + 1..])),
        None => (text, None),
    }
}

/// Reads `author NAME TOKEN`, from what follows its first word.
fn author_line(rest: Option<&[u8]>) -> Result<AccountLine<'_>, Mistake>
    ensures { said_or_mistake result ≡ author_said (words_behind rest.entry) }
{
    let (name, rest) = cut_word(rest.ok_or(Mistake::NoName)?);
    let (token, rest) = cut_word(rest.ok_or(Mistake::NoToken)?);
    if rest.is_some() {
        return Err(Mistake::ExtraWord);
    }
    Ok(AccountLine::Author {
        name: name_text(name)?,
        token: token_text(token)?,
    })
}

/// Reads `hash NAME SHA256`, from what follows its first word.
fn hash_line(rest: Option<&[u8]>) -> Result<AccountLine<'_>, Mistake>
    ensures { said_or_mistake result ≡ hash_said (words_behind rest.entry) }
{
    let (name, rest) = cut_word(rest.ok_or(Mistake::NoHashName)?);
    let (hash, rest) = cut_word(rest.ok_or(Mistake::NoHash)?);
    if rest.is_some() {
        return Err(Mistake::ExtraWord);
    }
    Ok(AccountLine::Hash {
        name: name_text(name)?,
        hash: hash_text(hash)?,
    })
}

/// Reads `peer NUMBER TOKEN HOST:PORT`, from what follows its first word.
fn peer_line(rest: Option<&[u8]>) -> Result<AccountLine<'_>, Mistake>
    ensures { said_or_mistake result ≡ peer_said (words_behind rest.entry) }
{
    let (number, rest) = cut_word(rest.ok_or(Mistake::NoNumber)?);
    let (token, rest) = cut_word(rest.ok_or(Mistake::NoToken)?);
    let (address, rest) = cut_word(rest.ok_or(Mistake::NoAddress)?);
    if rest.is_some() {
        return Err(Mistake::ExtraWord);
    }
    Ok(AccountLine::Peer {
        number: number_of(number)?,
        token: token_text(token)?,
        address: address_text(address)?,
    })
}

/// Reads `person NAME ID DISPLAY NAME`, from what follows its first word. The display name is the rest of the line.
fn person_line(rest: Option<&[u8]>) -> Result<AccountLine<'_>, Mistake>
    ensures { said_or_mistake result ≡ person_said (words_behind rest.entry) }
{
    let (name, rest) = cut_word(rest.ok_or(Mistake::NoPerson)?);
    let (id, rest) = cut_word(rest.ok_or(Mistake::NoId)?);
    let display = rest.ok_or(Mistake::NoDisplay)?;
    person_of(name, id, display)
}

/// Checks the name, the ID and the display name of a person; returns its line.
fn person_of<'a>(
    name: &'a [u8],
    id: &'a [u8],
    display: &'a [u8],
) -> Result<AccountLine<'a>, Mistake>
    ensures { said_or_mistake result ≡ said_of_person name.now id.now display.now }
{
    Ok(AccountLine::Person {
        name: name_text(name)?,
        id: id_bytes(id)?,
        display: display_text(display)?,
    })
}

pub(crate) fn name_text(word: &[u8]) -> Result<&str, Mistake>
    ensures { MatchResult result (λ name. (name.now ≡ word.now) × (is_name word.now ≡ true))
        (λ mistake. (is_name word.now ≡ false) × (mistake ≡ name_mistake word.now)) }
{
    match word_text(word, MAX_NAME) {
        Some(name) if is_well_formed_name(name) => Ok(name),
        _ if word.len() as u64 <= MAX_NAME => Err(Mistake::NameByte),
        _ => Err(Mistake::LongName),
    }
}

fn token_text(word: &[u8]) -> Result<&str, Mistake>
    ensures { MatchResult result (λ token. (token.now ≡ word.now)
        × (is_word MAX_TOKEN word.now ≡ true))
        (λ mistake. (is_word MAX_TOKEN word.now ≡ false) × (mistake ≡ token_mistake word.now)) }
{
    match word_text(word, MAX_TOKEN) {
        Some(token) => Ok(token),
        None if word.len() as u64 <= MAX_TOKEN => Err(Mistake::TokenByte),
        None => Err(Mistake::LongToken),
    }
}

fn hash_text(word: &[u8]) -> Result<&str, Mistake>
    ensures { MatchResult result (λ hash. (hash.now ≡ word.now) × (is_hash word.now ≡ true))
        (λ mistake. (is_hash word.now ≡ false) × (mistake ≡ hash_mistake word.now)) }
{
    if word.len() != 64 {
        return Err(Mistake::HashLength);
    }
    if !has_hash_digits(word) {
        return Err(Mistake::HashDigit);
    }
    utf8_text(word).ok_or(Mistake::HashDigit)
}

fn has_hash_digits(word: &[u8]) -> bool
    ensures { result ≡ list_all is_hash_digit word.now }
{
    word.iter().all(|byte| (b'0' <= *byte && *byte <= b'9') || (b'a' <= *byte && *byte <= b'f'))
}

fn id_bytes(word: &[u8]) -> Result<&[u8], Mistake>
    ensures { MatchResult result (λ id. (id.now ≡ word.now) × (is_word MAX_ID word.now ≡ true))
        (λ mistake. (is_word MAX_ID word.now ≡ false) × (mistake ≡ id_mistake word.now)) }
{
    if is_word(MAX_ID, word) {
        Ok(word)
    } else if word.len() as u64 <= MAX_ID {
        Err(Mistake::IdByte)
    } else {
        Err(Mistake::LongId)
    }
}

pub(crate) fn display_text(bytes: &[u8]) -> Result<&str, Mistake>
    ensures { MatchResult result (λ text. (text.now ≡ bytes.now) × (is_display bytes.now ≡ true))
        (λ mistake. (is_display bytes.now ≡ false) × (mistake ≡ display_mistake bytes.now)) }
{
    let Some(text) = utf8_text(bytes) else {
        return Err(Mistake::DisplayBytes);
    };
    if !is_plain(text) {
        return Err(Mistake::DisplayControl);
    }
    if !is_short(text) {
        return Err(Mistake::LongDisplay);
    }
    Ok(text)
}

fn utf8_text(bytes: &[u8]) -> Option<&str>
    ensures { MatchOption result (is_utf8 bytes.now ≡ false)
        (λ text. (text.now ≡ bytes.now) × (is_utf8 bytes.now ≡ true)) }
{
    match str::from_utf8(bytes) {
        Ok(text) => Some(text),
        Err(_) => None,
    }
}

fn is_plain(text: &str) -> bool
    ensures { result ≡ is_plain text.now }
{
    text.chars().all(|character| !character.is_control())
}

fn is_short(text: &str) -> bool
    ensures { result ≡ nat_le (length (chars text.now)) MAX_DISPLAY }
{
    text.chars().count() as u64 <= MAX_DISPLAY
}

fn address_text(word: &[u8]) -> Result<&str, Mistake>
    ensures { MatchResult result (λ text. (text.now ≡ word.now) × (is_address word.now ≡ true))
        (λ mistake. (is_address word.now ≡ false) × (mistake ≡ address_mistake word.now)) }
{
    match word_text(word, MAX_ADDRESS) {
        Some(text) if has_colon(word) => Ok(text),
        _ if word.len() as u64 > MAX_ADDRESS => Err(Mistake::LongAddress),
        _ if are_shown(word) => Err(Mistake::NoColon),
        _ => Err(Mistake::AddressByte),
    }
}

fn has_colon(word: &[u8]) -> bool
    ensures { result ≡ list_any (λ b. b == 58) word.now }
{
    word.iter().any(|byte| *byte == b':')
}

fn word_text(word: &[u8], most: u64) -> Option<&str>
    ensures { MatchOption result (is_word most word.now ≡ false)
        (λ text. (text.now ≡ word.now) × (is_word most word.now ≡ true)) }
{
    if !is_word(most, word) {
        return None;
    }
    match str::from_utf8(word) {
        Ok(text) => Some(text),
        Err(_) => None,
    }
}

fn is_word(most: u64, word: &[u8]) -> bool
    ensures { result ≡ is_word most word.now }
{
    !word.is_empty() && word.len() as u64 <= most && are_shown(word)
}

fn are_shown(word: &[u8]) -> bool
    ensures { result ≡ list_all is_shown word.now }
{
    word.iter().all(|byte| 0x21 <= *byte && *byte <= 0x7E)
}

fn number_of(word: &[u8]) -> Result<u16, Mistake>
    ensures { MatchResult result (λ number. (number ≡ decimal word.now)
        × (is_number word.now ≡ true)) (λ mistake. (is_number word.now ≡ false)
        × (mistake ≡ number_mistake word.now)) }
{
    if !are_digits(word) {
        return Err(Mistake::NotDigits);
    }
    if word.first() == Some(&b'0') {
        return Err(Mistake::LeadingZero);
    }
    let number = decimal_up_to_limit(word);
    if 1 <= number && number <= u32::from(MAX_REPLICA) {
        Ok(number as u16)
    } else {
        Err(Mistake::LargeNumber)
    }
}

fn are_digits(word: &[u8]) -> bool
    ensures { result ≡ are_digits word.now }
{
    word.iter().all(|byte| b'0' <= *byte && *byte <= b'9')
}

/// The value of the digits, or `MAX_REPLICA` + 1 if it is greater.
fn decimal_up_to_limit(digits: &[u8]) -> u32
    ensures { result ≡ min (decimal digits.now) 65536 }
{
    let mut number = 0;
    for digit in digits {
        number = (number * 10 + u32::from(digit.saturating_sub(b'0'))).min(65_536);
    }
    number
}
