//! The link with which an author logs in.
ghost use Rattle.std.specs.Prelude.{◌≡◌, ◌<◌, ◌++◌, OnOk};
ghost use Rattle.pad_accounts.specs.Links.{digit_of, escaped, is_plain, origin_of, with_link, with_pad, with_token};

use std::alloc::AllocError;

/// The origin of a server without `--at`.
const DEFAULT_AT: &str = "http://127.0.0.1:8080";

/// The target of a link.
#[derive(Clone, Copy)]
pub struct LinkForm<'a> {
    /// The origin of the page. None: `DEFAULT_AT`.
    pub at: Option<&'a str>,
    /// The pad that is opened after the log-in.
    pub pad: Option<&'a str>,
}

/// Adds the line with the link of an author.
pub fn push_link(
    text: &mut Vec<u8>,
    form: LinkForm<'_>,
    name: &[u8],
    token: &[u8],
) -> Result<(), AllocError>
    ensures { OnOk result (text.new.items
        ≡ with_link text.old.items form.entry name.now token.now) }
{
    text.extend_from_slice(origin_of(form.at).as_bytes())?;
    text.extend_from_slice(b"/#in=")?;
    text.extend_from_slice(name)?;
    text.extend_from_slice(b".")?;
    push_token(text, token)?;
    push_pad(text, form.pad)?;
    text.extend_from_slice(b"\n")
}

/// The origin that is named, or else the one of a server on this machine.
fn origin_of(at: Option<&str>) -> &str
    ensures { result.now ≡ origin_of at.entry }
{
    at.unwrap_or(DEFAULT_AT)
}

/// Adds a token as an address has it.
fn push_token(text: &mut Vec<u8>, token: &[u8]) -> Result<(), AllocError>
    ensures { OnOk result (text.new.items ≡ with_token text.old.items token.now) }
{
    for byte in token {
        push_byte(text, *byte)?;
    }
    Ok(())
}

/// Adds a byte as an address has it: letters, digits and -._~ as they are, others by two digits.
fn push_byte(text: &mut Vec<u8>, byte: u8) -> Result<(), AllocError>
    ensures { OnOk result (text.new.items ≡ text.old.items ++ escaped byte) }
{
    if is_plain(byte) {
        text.extend_from_slice(&[byte])
    } else {
        text.extend_from_slice(&[b'%', digit_of(byte / 16), digit_of(byte % 16)])
    }
}

fn is_plain(byte: u8) -> bool
    ensures { result ≡ is_plain byte }
{
    byte.is_ascii_alphanumeric() || matches!(byte, b'-' | b'.' | b'_' | b'~')
}

/// The digit of a number below 16.
fn digit_of(number: u8) -> u8
    requires { number < 16 }
    ensures { result ≡ digit_of number }
{
    if number < 10 {
        b'0' + number
    } else {
        b'A' + (number - 10)
    }
}

/// Adds the part of a link that names a pad.
fn push_pad(text: &mut Vec<u8>, pad: Option<&str>) -> Result<(), AllocError>
    ensures { OnOk result (text.new.items ≡ with_pad text.old.items pad.entry) }
{
    match pad {
        Some(pad) => {
            text.extend_from_slice(b"&pad=")?;
            text.extend_from_slice(pad.as_bytes())
        }
        None => Ok(()),
    }
}
