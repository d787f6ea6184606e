//! Stretches of text, and the difference between two texts.
ghost use Rattle.std.specs.Prelude.{◌≡◌, ◌++◌, IfOk, drop, take};
ghost use Rattle.pad_model.specs.Pieces.{old_len};
ghost use Rattle.pad_store.specs.Marks.{shown_piece};
ghost use Rattle.pad_store.specs.Marks as marks_spec;

use pad_model::{Piece, Text};
use serde_json::Value;
use std::alloc::{AllocError, Global};

/// The marks before and after deleted characters, and before and after inserted ones.
#[derive(Drop)]
pub struct Marks {
    pub before_gone: Text,
    pub behind_gone: Text,
    pub before_come: Text,
    pub behind_come: Text,
}

/// Splits a text after its first `count` characters, or at its end if it has fewer.
pub fn split(text: &[char], count: u64) -> (&[char], &[char])
    ensures front { result.0.now ≡ take count text.now }
    ensures behind { result.1.now ≡ drop count text.now }
{
    if count >= text.len() as u64 {
        return text.split_at(text.len());
    }
    text.split_at(count as usize)
}

/// A text as a JSON string.
pub fn quoted(alloc: Global, text: &[char]) -> Result<String, AllocError> {
    let text: String = text.iter().copied().collect(alloc)?;
    Value::String(text).to_string(alloc)
}

/// The older text with the text that was deleted and inserted, each between its marks.
pub fn marked(
    alloc: Global,
    marks: &Marks,
    pieces: &[Piece],
    text: &[char],
) -> Result<Text, AllocError>
    ensures { IfOk result (λ shown. shown ≡ marks_spec.marked marks.now pieces.now text.now) }
{
    let mut shown = Text::new(alloc);
    let mut rest = text;
    for piece in pieces {
        rest = add_piece(&mut shown, marks, piece, rest)?;
    }
    Ok(shown)
}

// Adds the text that a piece shows, and returns the rest of the older text.
fn add_piece<'a>(
    shown: &mut Text,
    marks: &Marks,
    piece: &Piece,
    text: &'a [char],
) -> Result<&'a [char], AllocError>
    ensures { IfOk result (λ rest. (shown.new
        ≡ shown.old ++ shown_piece marks.now piece.now text.now)
        × (rest.now ≡ drop (old_len piece.now) text.now)) }
{
    match piece {
        Piece::Keep(count) => {
            let (own, rest) = split(text, *count);
            shown.extend(own)?;
            Ok(rest)
        }
        Piece::Drop(count) => {
            let (own, rest) = split(text, *count);
            shown.extend(marks.before_gone.as_slice())?;
            shown.extend(own)?;
            shown.extend(marks.behind_gone.as_slice())?;
            Ok(rest)
        }
        Piece::Insert { text: more, .. } => {
            shown.extend(marks.before_come.as_slice())?;
            shown.extend(more.as_slice())?;
            shown.extend(marks.behind_come.as_slice())?;
            Ok(text)
        }
    }
}

/// The words that were deleted and inserted, each as a JSON string after a sign.
pub fn words(alloc: Global, pieces: &[Piece], text: &[char]) -> Result<String, AllocError> {
    let mut out = String::new(alloc);
    let mut rest = text;
    for piece in pieces {
        match piece {
            Piece::Keep(count) => rest = split(rest, *count).1,
            Piece::Drop(count) => {
                let (own, behind) = split(rest, *count);
                put_words(alloc, &mut out, " -", own)?;
                rest = behind;
            }
            Piece::Insert { text: more, .. } => {
                put_words(alloc, &mut out, " +", more.as_slice())?;
            }
        }
    }
    Ok(out)
}

/// Adds words as a JSON string after a sign.
pub fn put_words(
    alloc: Global,
    out: &mut String,
    sign: &str,
    words: &[char],
) -> Result<(), AllocError> {
    out.push_str(sign)?;
    out.push_str(quoted(alloc, words)?.as_str())?;
    Ok(())
}
