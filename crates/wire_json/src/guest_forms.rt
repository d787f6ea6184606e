//! The forms of what guests send: secrets, tokens and display names.
ghost use Rattle.std.specs.Prelude.{◌≡◌};
ghost use Rattle.std.specs.List.{list_all};
ghost use Rattle.wire_json.specs.Guests.{is_digit, is_plain, is_secret, is_token};

use pad_model::Text;

/// The digits of a secret, which are enough for 16 random bytes.
const SECRET: usize = 22;

/// The characters of a guest's token.
const TOKEN: usize = 45;

/// Returns true if this is a secret: 22 digits of base64url.
pub fn is_secret(text: &[u8]) -> bool
    ensures { result ≡ is_secret text.now }
{
    text.len() == SECRET && are_digits(text)
}

/// Returns true if this is a guest's token: the secret of its link, a point, and a secret of its own.
pub fn is_token(text: &[u8]) -> bool
    ensures { result ≡ is_token text.now }
{
    text.len() == TOKEN
        && is_secret(&text[..SECRET])
        && text[SECRET] == b'.'
        && is_secret(&text[SECRET + 1..])
}

fn are_digits(text: &[u8]) -> bool
    ensures { result ≡ list_all is_digit text.now }
{
    text.iter().all(|byte| is_digit(*byte))
}

fn is_digit(byte: u8) -> bool
    ensures { result ≡ is_digit byte }
{
    matches!(byte, b'A'..=b'Z' | b'a'..=b'z' | b'0'..=b'9' | b'-' | b'_')
}

/// Returns true if a display name has no control character.
pub fn is_plain(display: &Text) -> bool
    ensures { result ≡ is_plain display.now }
{
    display.as_slice().iter().all(|c| !c.is_control())
}
