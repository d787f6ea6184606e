//! The text of a file's pad.
ghost use Rattle.std.specs.Prelude.{IfOk, IfErr, string_bytes};
ghost use Rattle.pad_store.specs.Reading.{IsFault, IsNoDamage, Shows, ShowsOf};

use crate::inspected_pad::InspectedPad;
use crate::revision_choice::RevisionChoice;
use crate::trouble::Trouble;
use std::alloc::Global;

/// The output of `show`: the text of the revision that is asked for, of the pad that the bytes of its file lead to.
pub fn show(alloc: Global, bytes: &[u8], asked: RevisionChoice) -> Result<String, Trouble>
    ensures shown { IfOk result (λ text. Shows bytes.now asked (string_bytes text)) }
    ensures fault { IfErr result (λ trouble. IsFault bytes.now trouble) }
{
    match InspectedPad::read(alloc, bytes) {
        Ok(mut book) => text_at(alloc, &mut book, asked),
        Err(trouble) => Err(trouble),
    }
}

// The text of the revision that is asked for, of a file's pad.
fn text_at(alloc: Global, book: &mut InspectedPad, asked: RevisionChoice) -> Result<String, Trouble>
    ensures shown { IfOk result (λ text. ShowsOf book.old.pad.log book.old.pad.made.times asked (string_bytes text)) }
    ensures fault { IfErr result IsNoDamage }
{
    let rev = book.number_of(alloc, asked)?;
    let text = book.text(alloc, Some(rev))?;
    match text.to_string(alloc) {
        Ok(text) => Ok(text),
        Err(_) => Err(Trouble::Memory),
    }
}
