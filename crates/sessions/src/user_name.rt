//! The name of an author who has no line in the accounts file: it is made from what a proxy calls the user, so that no two
//! users have one name, and each name tells its user.
ghost use Rattle.std.specs.Prelude.{◌≡◌, ◌<◌, ◌+◌, ◌*◌, ◌%◌, ◌++◌, IfOk, OnOk, option_map};
ghost use Rattle.sessions.specs.UserNames.{bytes_in, byte_behind, digit_of, is_plain, letters_of, name_for, number_of, read, unread, user_for, with_byte};

use std::alloc::{AllocError, Global};
use std::marker::Model;

/// The state of an escape while the letters of a name are read.
#[derive(Clone, Copy, Debug, PartialEq, Eq)]
pub enum Escape {
    /// No escape is open.
    Without,
    /// A `-` was read.
    Dash,
    /// `-x` was read, and its first digit comes.
    First,
    /// `-x` and this digit were read.
    Second(u8),
}

/// The letters that are made from a user.
pub(crate) fn letters_for(alloc: Global, user: &[u8]) -> Result<Vec<u8>, AllocError>
    ensures { IfOk result (λ letters. letters.items ≡ name_for user.now) }
{
    let mut letters = Vec::new(alloc);
    for byte in user {
        push_letters(&mut letters, *byte)?;
    }
    Ok(letters)
}

// Appends the letters that stand for a byte.
fn push_letters(letters: &mut Vec<u8>, byte: u8) -> Result<(), AllocError>
    ensures { OnOk result (letters.new.items ≡ letters.old.items ++ letters_of byte) }
{
    if is_plain(byte) {
        return letters.extend_from_slice(&[byte]);
    }
    match byte {
        b'-' => letters.extend_from_slice(b"--"),
        b'.' => letters.extend_from_slice(b"-p"),
        b'@' => letters.extend_from_slice(b"-t"),
        b'_' => letters.extend_from_slice(b"-u"),
        b'+' => letters.extend_from_slice(b"-s"),
        _ => {
            let (first, second) = (digit_of(byte / 16), digit_of(byte % 16));
            letters.extend_from_slice(&[b'-', b'x', first, second])
        }
    }
}

// Returns true if a byte stands for itself.
fn is_plain(byte: u8) -> bool
    ensures { result ≡ is_plain byte }
{
    matches!(byte, b'a'..=b'z' | b'0'..=b'9')
}

// A digit of base 16.
fn digit_of(number: u8) -> u8
    requires { number < 16 }
    ensures { result ≡ digit_of number }
{
    if number < 10 {
        number + 48
    } else {
        number + 87
    }
}

/// The user so far, of the letters of a name, and how far an escape is.
#[derive(Drop)]
struct Reading {
    user: Vec<u8>,
    escape: Escape,
}

impl Model for Reading {
    ghost use Rattle.sessions.specs.UserNames.{Reading};

    ghost Value = { Reading };

    ghost view = { λ r. record { user = r.user.items; escape = r.escape } };
}

impl Reading {
    fn new(alloc: Global) -> Reading
        ensures { result ≡ unread }
    {
        Reading {
            user: Vec::new(alloc),
            escape: Escape::Without,
        }
    }

    // Reads one more letter.
    fn read(&mut self, letter: u8) -> Result<(), AllocError>
        ensures { OnOk result (self.new ≡ read self.old letter) }
    {
        match self.escape {
            Escape::Without if letter == b'-' => self.escape = Escape::Dash,
            Escape::Without => self.push(letter)?,
            Escape::Dash if letter == b'x' => self.escape = Escape::First,
            Escape::Dash => self.push(byte_behind(letter))?,
            Escape::First => self.escape = Escape::Second(letter),
            Escape::Second(first) => self.push(byte_of(first, letter))?,
        }
        Ok(())
    }

    // Appends a byte, after which no escape is open.
    fn push(&mut self, byte: u8) -> Result<(), AllocError>
        ensures { OnOk result (self.new ≡ with_byte self.old byte) }
    {
        self.user.push(byte)?;
        self.escape = Escape::Without;
        Ok(())
    }
}

// The byte for which a - and this letter stand.
fn byte_behind(letter: u8) -> u8
    ensures { result ≡ byte_behind letter }
{
    match letter {
        b'p' => b'.',
        b't' => b'@',
        b'u' => b'_',
        b's' => b'+',
        _ => letter,
    }
}

// The byte with these two digits of base 16.
fn byte_of(first: u8, second: u8) -> u8
    ensures { result ≡ (number_of first * 16 + number_of second) % 256 }
{
    let number = u32::from(number_of(first)) * 16 + u32::from(number_of(second));
    (number % 256) as u8
}

// The number that a digit of base 16 stands for.
fn number_of(digit: u8) -> u8
    ensures { result ≡ number_of digit }
{
    if digit < 97 {
        digit.saturating_sub(48)
    } else {
        digit - 87
    }
}

// The bytes that the letters of a name lead to.
fn bytes_in(alloc: Global, name: &[u8]) -> Result<Vec<u8>, AllocError>
    ensures { IfOk result (λ bytes. bytes.items ≡ bytes_in name.now) }
{
    let mut reading = Reading::new(alloc);
    for letter in name {
        reading.read(*letter)?;
    }
    Ok(reading.user)
}

/// The user whose name this is, if it is the name that is made from one.
pub(crate) fn user_for(alloc: Global, name: &[u8]) -> Result<Option<Vec<u8>>, AllocError>
    ensures { IfOk result (λ user. option_map (λ u. u.items) user ≡ user_for name.now) }
{
    let user = bytes_in(alloc, name)?;
    let letters = letters_for(alloc, user.as_slice())?;
    if letters.as_slice() == name {
        Ok(Some(user))
    } else {
        Ok(None)
    }
}
