//! The words for rights, kinds and states on the wire.
ghost use Rattle.std.specs.Prelude.{◌≡◌};
ghost use Rattle.wire_json.specs.Words.{right_word, kind_word, state_word, state_of_word, granted_by, invited_by, kind_of_word};

use pad_core::{Kind, Pushed};
use rights::Right;

pub fn right_word(right: Right) -> &'static str
    ensures { result.now ≡ right_word right }
{
    match right {
        Right::Read => "read",
        Right::Comment => "comment",
        Right::Write => "write",
        Right::Own => "own",
    }
}

/// The right that a word grants; `none` revokes it.
pub fn granted_by(word: &str) -> Option<Option<Right>>
    ensures { result ≡ granted_by word.now }
{
    match word {
        "none" => Some(None),
        "read" => Some(Some(Right::Read)),
        "comment" => Some(Some(Right::Comment)),
        "write" => Some(Some(Right::Write)),
        "own" => Some(Some(Right::Own)),
        _ => None,
    }
}

/// The right that a word gives to a link.
pub fn invited_by(word: &str) -> Option<Right>
    ensures { result ≡ invited_by word.now }
{
    match word {
        "read" => Some(Right::Read),
        "comment" => Some(Right::Comment),
        "write" => Some(Right::Write),
        _ => None,
    }
}

pub fn kind_word(kind: Kind) -> &'static str
    ensures { result.now ≡ kind_word kind }
{
    match kind {
        Kind::Insert => "insert",
        Kind::Delete => "delete",
        Kind::Comment => "comment",
        Kind::Resolve => "resolve",
        Kind::Edit => "edit",
    }
}

pub fn kind_of_word(word: &str) -> Option<Kind>
    ensures { result ≡ kind_of_word word.now }
{
    match word {
        "insert" => Some(Kind::Insert),
        "delete" => Some(Kind::Delete),
        "comment" => Some(Kind::Comment),
        "resolve" => Some(Kind::Resolve),
        "edit" => Some(Kind::Edit),
        _ => None,
    }
}

pub fn state_word(state: Pushed) -> &'static str
    ensures { result.now ≡ state_word state }
{
    match state {
        Pushed::Repeat => "repeat",
        Pushed::Held => "held",
        Pushed::Delivered => "delivered",
    }
}

/// Returns the outcome of a pushed operation, by a peer's word.
pub fn state_of_word(word: &str) -> Option<Pushed>
    ensures { result ≡ state_of_word word.now }
{
    match word {
        "repeat" => Some(Pushed::Repeat),
        "held" => Some(Pushed::Held),
        "delivered" => Some(Pushed::Delivered),
        _ => None,
    }
}
