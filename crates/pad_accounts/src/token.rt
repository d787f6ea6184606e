//! Tokens of authors, from random bytes.
ghost use Rattle.std.specs.Prelude.{◌≡◌, ◌%◌, IfOk, map};
ghost use Rattle.pad_accounts.specs.Tokens.{token_of};
ghost use Rattle.pad_accounts.specs.Tokens as tokens;

use std::alloc::{AllocError, Global};

/// The characters of a token, of which no two look alike: neither i nor l is there beside 1, nor o beside 0.
const SYMBOLS: [u8; 32] = *b"0123456789abcdefghjkmnpqrstvwxyz";

/// The number of characters of a token. Each is one of 32, so a token has 120 random bits.
pub const TOKEN_LENGTH: usize = 24;

/// The token of random bytes: a character for each.
pub fn token_of(alloc: Global, random: &[u8]) -> Result<Vec<u8>, AllocError>
    ensures { IfOk result (λ token. token.items ≡ token_of random.now) }
{
    random.iter().map(|byte| symbol_of(*byte)).collect(alloc)
}

/// The character of a random byte, by its five lowest bits.
fn symbol_of(byte: u8) -> u8
    ensures { result ≡ tokens.symbol_of byte }
{
    SYMBOLS[usize::from(byte % 32)]
}
