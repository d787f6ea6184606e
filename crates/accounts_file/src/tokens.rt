//! Tokens that are short enough to be guessed.
use log::warn;
use server_log::ServerLog;
use std::str;
use std::time::Clock;

/// The number of characters from which on a token is not warned of.
pub const LONG_ENOUGH: usize = 12;

/// Warns of the tokens of a valid accounts file that are so short that they can be guessed, in one message.
pub fn warn_of_tokens<R: Clock + Eprint>(rt: &R, path: &str, bytes: &[u8]) {
    let mut short = bytes
        .split(|byte| *byte == b'\n')
        .filter_map(|line| name_with_short_token(line));
    if let Some(first) = short.next() {
        let more = short.count();
        warn!(ServerLog(rt); "the accounts file {path}: the token of {first} and of {more} more has fewer than {LONG_ENOUGH} characters, and can be guessed");
    }
}

// The name, or the number of a peer, in a line whose token is short.
fn name_with_short_token(line: &[u8]) -> Option<&str> {
    let line = str::from_utf8(line).ok()?;
    let mut words = line.split(' ');
    let (kind, name, token) = (words.next()?, words.next()?, words.next()?);
    let is_account = kind == "author" || kind == "peer";
    if is_account && token.trim_end().len() < LONG_ENOUGH {
        Some(name)
    } else {
        None
    }
}
