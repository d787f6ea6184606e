//! The interface between a pad and the sequence of its characters.
ghost use Rattle.std.specs.Prelude.{◌≡◌, ℕ, ◌+◌, ◌≤◌, ◌<◌, ◌↔◌, List, [], IsTrue, IfOk, Some, None, MatchOption, MatchResult, slice_get, option_map, length};
ghost use Rattle.std.specs.List.{AllByRecursion, list_all};
ghost use Rattle.pad_model.specs.Answers.{Answers};
ghost use Rattle.pad_model.specs.Cell.{Cell, IsBy, IsInOrder, cells_at, cell_stamp_at, character_of, clock_of, last_of, before_at, through_at, is_before, runs_at};
ghost use Rattle.pad_model.specs.Cell as cell;
ghost use Rattle.pad_model.specs.Checked.{is_run, is_span, is_edit, are_parts};
ghost use Rattle.pad_model.specs.Legal.{has_stamp};
ghost use Rattle.pad_model.specs.Parts.{part_fits};
ghost use Rattle.pad_model.specs.Parts as parts_spec;
ghost use Rattle.pad_model.specs.Pieces as pieces_spec;
ghost use Rattle.pad_model.specs.Views.{IsViewOf};

use crate::items::Items;
use crate::op::{Part, Run, Span};
use crate::piece::Piece;
use crate::refusal::Refusal;
use crate::stamp::Stamp;
use crate::text::Text;
use crate::who::{Author, AuthorRun};
use std::alloc::Global;

/// A character of a sequence, with its author by reference.
#[derive(Clone, Copy, Debug)]
pub struct CellView<'a> {
    pub stamp: Stamp,
    /// The character after which it was inserted; None is the start of the text.
    pub parent: Option<Stamp>,
    pub character: char,
    pub author: &'a Author,
    /// The revision that inserted it.
    pub born: u64,
    /// The first revision that erased it.
    pub died: Option<u64>,
}

/// The characters of a pad, erased ones included, in the preorder of their tree of insertions.
///
/// A revision is a number that the caller counts up. Readers accept any revision, and see the characters that were
/// inserted at or before it and not erased by then.
pub trait Sequence: Drop {
    /// The cells, independent of how they are stored.
    ghost cells: { Self → List Cell };

    /// The sequence without characters.
    fn empty(alloc: Global) -> Result<Self, Refusal>
        ensures { MatchResult result (λ s. cells s ≡ []) (λ e. e ≡ Refusal.Memory) };

    /// Puts a run at its place in the preorder.
    fn insert_run(
        &mut self,
        alloc: Global,
        run: &Run,
        author: &Author,
        rev: u64,
    ) -> Result<(), Refusal>
        requires checked { IsTrue (is_run author.now.origin run.now) }
        requires latest { AllByRecursion (IsBy rev) (cells self.old) }
        ensures { Answers (cells self.old) (cell.insert_run rev run.now author.now (cells self.old))
            result (cells self.new) };

    /// Erases the characters of the spans that are not yet erased, and returns their number.
    fn delete_spans(&mut self, spans: &[Span], rev: u64) -> Result<u64, Refusal>
        requires checked { IsTrue (list_all is_span spans.now) }
        requires latest { AllByRecursion (IsBy rev) (cells self.old) }
        ensures { Answers (cells self.old) (cell.delete_spans rev spans.now (cells self.old)) result
            (cells self.new) };

    /// Makes the insertions and deletions of one operation, and returns the number of visible characters that they
    /// hide.
    ///
    /// Each part is checked against the cells before the operation. Either all parts are made or none.
    fn apply(
        &mut self,
        alloc: Global,
        parts: &[Part],
        author: &Author,
        rev: u64,
    ) -> Result<u64, Refusal>
        requires checked { IsTrue (are_parts author.now.origin parts.now) }
        requires edits { IsTrue (list_all is_edit parts.now) }
        requires latest { AllByRecursion (IsBy rev) (cells self.old) }
        ensures { Answers (cells self.old) (parts_spec.apply rev parts.now author.now (cells self.old))
            result (cells self.new) };

    /// Returns true if each part of an operation of this origin fits the cells, as `apply` requires.
    fn fits(&self, parts: &[Part], origin: u16) -> bool
        requires checked { IsTrue (are_parts origin parts.now) }
        ensures { result ≡ list_all (part_fits character_of (cells self.now)) parts.now };

    /// The number of visible characters.
    fn len_at(&self, rev: u64) -> u64
        ensures { result ≡ length (cells_at rev (cells self.now)) };

    /// The stamp of the visible character at a position, from 0.
    fn stamp_at(&self, rev: u64, place: u64) -> Option<Stamp>
        ensures { result ≡ cell_stamp_at rev (cells self.now) place };

    /// The visible character at a position, from 0.
    fn shown_cell(&self, rev: u64, place: u64) -> Option<CellView<'_>>
        ensures { IsViewOf result (slice_get (cells_at rev (cells self.now)) place) };

    fn text_at(&self, alloc: Global, rev: u64) -> Result<Text, Refusal>
        ensures { MatchResult result (λ text. text ≡ cell.text_at rev (cells self.now))
            (λ e. e ≡ Refusal.Memory) };

    /// The authors of the visible characters, in the fewest runs.
    fn authors_at(&self, alloc: Global, rev: u64) -> Result<Items<AuthorRun>, Refusal>
        ensures { MatchResult result (λ runs. runs ≡ runs_at rev (cells self.now))
            (λ e. e ≡ Refusal.Memory) };

    /// The changes that turn the text of one revision into that of another, in the fewest pieces.
    fn changes(&self, alloc: Global, rev: u64, to: u64) -> Result<Items<Piece>, Refusal>
        ensures { MatchResult result (λ pieces. pieces ≡ pieces_spec.changes rev to (cells self.now))
            (λ e. e ≡ Refusal.Memory) };

    /// The stamps of the `len` visible characters from a position on, in the fewest spans.
    fn spans_at(&self, alloc: Global, rev: u64, at: u64, len: u64) -> Result<Items<Span>, Refusal>
        requires { at + len ≤ length (cells_at rev (cells self.now)) }
        ensures { MatchResult result (λ spans. spans ≡ cell.spans_at rev (cells self.now) at len)
            (λ e. e ≡ Refusal.Memory) };

    /// The number of visible characters before a character; None if there is no such character.
    fn before(&self, stamp: Stamp, rev: u64) -> Option<u64>
        ensures { result ≡ before_at rev (cells self.now) stamp };

    /// The number of visible characters up to and including a character; None if there is no such character.
    fn through(&self, stamp: Stamp, rev: u64) -> Option<u64>
        ensures { result ≡ through_at rev (cells self.now) stamp };

    /// Returns true if `a` is `b` or comes before it, erased or not; None if one of them is missing.
    fn stands_before(&self, a: Stamp, b: Stamp) -> Option<bool>
        ensures { result ≡ is_before (cells self.now) a b };

    /// Returns true if the sequence has a character, erased or not.
    fn has(&self, stamp: Stamp) -> bool
        ensures { result ≡ has_stamp character_of (cells self.now) stamp };

    /// The greatest counter of any character, or 0.
    fn clock(&self) -> u64
        ensures { result ≡ clock_of (cells self.now) };

    /// The greatest counter of a replica's characters, or 0.
    fn last_of(&self, replica: u16) -> u64
        ensures { result ≡ last_of replica (cells self.now) };

    /// The number of characters, erased ones included.
    fn cell_count(&self) -> u64
        ensures value { result ≡ length (cells self.now) }
        ensures order { IsInOrder (cells self.now) };

    /// The cell at a position of the preorder, from 0.
    fn cell_at(&self, place: u64) -> Option<CellView<'_>>
        ensures { IsViewOf result (slice_get (cells self.now) place) };
}
