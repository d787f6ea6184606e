//! The names that are made from secrets: the one of a link, and the one of a guest.
ghost use Rattle.std.specs.Prelude.{◌≡◌, IfOk, ◌==◌, bytes_eq, map, true};
ghost use Rattle.std.specs.List.{position};
ghost use Rattle.pad_model.specs.Checked.{is_name};
ghost use Rattle.guests.specs.Guests.{guest_name, letter, letters, link_name, secret_of};

use crate::name::{GUEST_NAME, LINK_NAME};
use pad_model::Name;
use sha2::{Digest, Sha256};
use std::alloc::{AllocError, Global};

/// The letters that are made from a text.
const LETTERS: usize = 13;

/// The name of the link with this secret.
pub fn link_name(alloc: Global, secret: &str) -> Result<Name, AllocError>
    ensures { IfOk result (λ n. n ≡ link_name secret.now) }
{
    name_of(alloc, &link_bytes(secret.as_bytes()))
}

/// The name of the guest with this token, which is the secret of its link, a point and a secret of its own.
pub fn guest_name(alloc: Global, token: &str) -> Result<Name, AllocError>
    ensures { IfOk result (λ n. n ≡ guest_name token.now) }
{
    name_of(alloc, &guest_bytes(token.as_bytes()))
}

/// Returns true if this is the name of the guest with this token. It allocates no memory. The token alone makes the name, so the
/// time of the comparison tells nobody more than the token does.
pub fn opens(name: &str, token: &str) -> bool
    ensures { result ≡ bytes_eq name.now (guest_name token.now) }
{
    name.as_bytes() == guest_bytes(token.as_bytes()).as_slice()
}

#[tactic(auto, unfolding(crate::specs::Guests::guest_name))]
fn guest_bytes(token: &[u8]) -> [u8; GUEST_NAME]
    ensures { result ≡ guest_name token.now }
{
    let mut name = [0; GUEST_NAME];
    name[..LINK_NAME].copy_from_slice(&link_bytes(secret_of(token)));
    name[LINK_NAME..].copy_from_slice(&letters(token));
    name
}

#[tactic(auto, unfolding(crate::specs::Guests::link_name))]
fn link_bytes(secret: &[u8]) -> [u8; LINK_NAME]
    ensures { result ≡ link_name secret.now }
{
    let mut name = [0; LINK_NAME];
    name[..6].copy_from_slice(b"guest-");
    name[6..].copy_from_slice(&letters(secret));
    name
}

/// The secret of the link in a guest's token: the bytes before the first point.
fn secret_of(token: &[u8]) -> &[u8]
    ensures { result.now ≡ secret_of token.now }
{
    match place_of_point(token) {
        Some(end) => &token[..end],
        None => token,
    }
}

/// The index of the first point.
fn place_of_point(token: &[u8]) -> Option<usize>
    ensures { result ≡ position (λ b. b == 46) token.now }
{
    token.iter().position(|byte| *byte == b'.')
}

#[tactic(auto, unfolding(crate::specs::Guests::letters))]
fn letters(text: &[u8]) -> [u8; LETTERS]
    ensures { result ≡ letters text.now }
{
    let mut sum = Sha256::digest(text);
    spell(&mut sum);
    let mut first = [0; LETTERS];
    first.copy_from_slice(&sum[..LETTERS]);
    first
}

/// Puts the letter for each byte in its place.
fn spell(bytes: &mut [u8])
    ensures { bytes.new ≡ map letter bytes.old }
{
    for byte in bytes.iter_mut() {
        let after = letter(*byte);
        *byte = after;
    }
}

/// The letter for a byte: its last five bits in base 32.
fn letter(byte: u8) -> u8
    ensures { result ≡ letter byte }
{
    let bits = byte % 32;
    if bits < 26 { bits + 97 } else { bits + 24 }
}

fn name_of(alloc: Global, bytes: &[u8]) -> Result<Name, AllocError>
    requires { is_name bytes.now ≡ true }
    ensures { IfOk result (λ n. n ≡ bytes.now) }
{
    match str::from_utf8(bytes) {
        Ok(name) => Name::from_str(alloc, name),
        Err(_) => unreachable!(),
    }
}
