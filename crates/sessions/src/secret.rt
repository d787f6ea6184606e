//! The secret of an author: a token, or only its hash.
ghost use Rattle.std.specs.Prelude.{◌≡◌};
ghost use Rattle.sessions.specs.Secrets.{hash_of, opens};

use crate::word::Word;
use sha2::{Digest, Sha256};

/// The digits of a hash.
pub const HASH_DIGITS: usize = 64;

/// The secret by which an author proves its identity.
#[derive(Drop)]
pub enum Secret {
    /// The token.
    Token(Word),
    /// The SHA-256 of the token, in lower-case hex.
    Hash(Word),
}

impl Secret {
    /// Returns true if this is the token, or the token has this hash. `Word::is` says what its time reveals.
    pub fn opens(&self, token: &str) -> bool
        ensures { result ≡ opens token.now self.now }
    {
        match self {
            Secret::Token(own) => own.is(token),
            Secret::Hash(hash) => hash.is_bytes(&hash_of(token)),
        }
    }
}

/// The hash of a token: its SHA-256, in lower-case hex.
fn hash_of(token: &str) -> [u8; HASH_DIGITS]
    ensures { result ≡ hash_of token.now }
{
    let mut digits = [0; HASH_DIGITS];
    let sum = Sha256::digest(token.as_bytes());
    let _written = hex::encode_to_slice(&sum, &mut digits);
    digits
}
