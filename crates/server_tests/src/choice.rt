//! An author's next action, by dice.
use dice::Dice;
use std::alloc::{AllocError, Global};

/// The action that an author chooses.
#[derive(Clone, Copy, PartialEq)]
pub enum Choice {
    Type,
    Erase,
    Edit,
    Note,
    Resolve,
}

impl Choice {
    pub fn pick(dice: &mut Dice) -> Choice {
        match dice.roll(20) {
            0..=6 => Choice::Type,
            7..=11 => Choice::Erase,
            12..=13 => Choice::Edit,
            14..=16 => Choice::Note,
            _ => Choice::Resolve,
        }
    }

    /// The request line, on a revision of this length, or on a comment with this name.
    pub fn line(
        self,
        alloc: Global,
        dice: &mut Dice,
        rev: u64,
        length: u64,
        noted: &str,
    ) -> Result<String, AllocError> {
        let at = dice.roll(length.saturating_add(1));
        let len = dice.roll(5).saturating_add(1);
        let text = some_text(dice);
        match self {
            Choice::Type => {
                format!(in alloc;
                    r#"{{"do":"insert","pad":"p","rev":{rev},"at":{at},"text":"{text}"}}"#
                )
            }
            Choice::Erase => {
                format!(in alloc;
                    r#"{{"do":"delete","pad":"p","rev":{rev},"at":{at},"len":{len}}}"#
                )
            }
            Choice::Edit => edit_line(alloc, dice, rev, length),
            Choice::Note => {
                format!(in alloc;
                    r#"{{"do":"comment","pad":"p","rev":{rev},"at":{at},"len":{len},"text":"{text}"}}"#
                )
            }
            Choice::Resolve => {
                format!(in alloc; r#"{{"do":"resolve","pad":"p","comment":{noted}}}"#)
            }
        }
    }
}

/// A text of one or two characters.
fn some_text(dice: &mut Dice) -> &'static str {
    match dice.roll(4) {
        0 => "x",
        1 => "é",
        2 => "😀",
        _ => "rs",
    }
}

/// An edit of two insertions, and a deletion that may go past the end.
fn edit_line(alloc: Global, dice: &mut Dice, rev: u64, length: u64) -> Result<String, AllocError> {
    let sides = length.saturating_add(1);
    let first = dice.roll(sides);
    let text = some_text(dice);
    let second = dice.roll(length);
    let len = dice.roll(4).saturating_add(1);
    let third = dice.roll(sides);
    let other = some_text(dice);
    format!(in alloc;
        r#"{{"do":"edit","pad":"p","rev":{rev},"parts":[{{"at":{first},"text":"{text}"}},{{"at":{second},"len":{len}}},{{"at":{third},"text":"{other}"}}]}}"#
    )
}
