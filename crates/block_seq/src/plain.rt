//! The plain sequence: a vector of cells in preorder, read and searched from its start.
//!
//! It does the least that its contract asks, and stays as the model that tests compare every faster sequence with.
ghost use Rattle.std.specs.Prelude.{◌<◌, Some, length};
ghost use Rattle.pad_model.specs.Views.{IsViewOf};
ghost use Rattle.block_seq.specs.Plain.{cell_of};

use crate::authors::place_author;
use crate::erase::{count_hidden, erase, has_spans};
use crate::measure::{count_before, count_through, stands_before};
use crate::parts::{count_inserted, each_fits, erase_parts, put_runs};
use crate::pieces::plain_pieces;
use crate::place::{PlainCell, has, may_join};
use crate::put::put_run;
use crate::readers::{
    count_shown, greatest_counter, greatest_counter_of, shown_authors, shown_cell, shown_stamps,
    shown_text,
};
use crate::stretches::{runs_of, spans_of};
use pad_model::{
    Author, AuthorRun, CellView, Items, MAX_CHARACTERS, Part, Piece, Refusal, Run, Sequence, Span,
    Stamp, Text,
};
use std::alloc::{AllocError, Global};
use std::marker::Model;

/// A vector of cells.
#[derive(Debug, Drop)]
pub struct PlainSeq {
    cells: Vec<PlainCell>,
    authors: Vec<Author>,
}

impl Model for PlainSeq {
    ghost use Rattle.std.specs.Prelude.{List};
    ghost use Rattle.pad_model.specs.Cell.{Cell};

    ghost Value = { List Cell };

    ghost use Rattle.block_seq.specs.Plain.{cells_of, IsPlain};

    ghost view = { λ s. cells_of s.authors.items s.cells.items };

    ghost invariant = { λ s. IsPlain s.authors.items s.cells.items };
}

/// A cell as it is lent to a caller.
fn lend<'a>(authors: &'a [Author], cell: &PlainCell) -> CellView<'a>
    requires { cell.now.author < length authors.now }
    ensures { IsViewOf (Some result) (Some (cell_of authors.now cell.now)) }
{
    CellView {
        stamp: cell.stamp,
        parent: cell.parent,
        character: cell.character,
        author: &authors[cell.author],
        born: cell.born,
        died: cell.died,
    }
}

impl Sequence for PlainSeq {
    ghost cells = { λ s. s };

    fn empty(alloc: Global) -> Result<PlainSeq, Refusal> {
        Ok(PlainSeq {
            cells: Vec::new(alloc),
            authors: Vec::new(alloc),
        })
    }

    fn insert_run(
        &mut self,
        alloc: Global,
        run: &Run,
        author: &Author,
        rev: u64,
    ) -> Result<(), Refusal> {
        if !may_join(self.cells.as_slice(), run.first, run.after) {
            return Err(Refusal::PeerFault);
        }
        if MAX_CHARACTERS < self.cells.len() as u64 + run.text.len() as u64 {
            return Err(Refusal::PadFull);
        }
        let author = place_author(&mut self.authors, author)?;
        self.cells.reserve(run.text.len())?;
        put_run(&mut self.cells, run, author, rev);
        Ok(())
    }

    fn delete_spans(&mut self, spans: &[Span], rev: u64) -> Result<u64, Refusal> {
        if !has_spans(self.cells.as_slice(), spans) {
            return Err(Refusal::PeerFault);
        }
        let hidden = count_hidden(self.cells.as_slice(), spans);
        erase(self.cells.as_mut_slice(), spans, rev);
        Ok(hidden as u64)
    }

    fn apply(
        &mut self,
        alloc: Global,
        parts: &[Part],
        author: &Author,
        rev: u64,
    ) -> Result<u64, Refusal> {
        if !each_fits(self.cells.as_slice(), parts) {
            return Err(Refusal::PeerFault);
        }
        let more = count_inserted(parts);
        if MAX_CHARACTERS < self.cells.len() as u64 + more as u64 {
            return Err(Refusal::PadFull);
        }
        let author = place_author(&mut self.authors, author)?;
        self.cells.reserve(more)?;
        let hidden = erase_parts(self.cells.as_mut_slice(), parts, rev);
        put_runs(&mut self.cells, parts, author, rev);
        Ok(hidden as u64)
    }

    fn fits(&self, parts: &[Part], _origin: u16) -> bool {
        each_fits(self.cells.as_slice(), parts)
    }

    fn len_at(&self, rev: u64) -> u64 {
        count_shown(self.cells.as_slice(), rev) as u64
    }

    fn stamp_at(&self, rev: u64, place: u64) -> Option<Stamp> {
        let cell = shown_cell(self.cells.as_slice(), rev, place)?;
        Some(cell.stamp)
    }

    fn shown_cell(&self, rev: u64, place: u64) -> Option<CellView<'_>> {
        let cell = shown_cell(self.cells.as_slice(), rev, place)?;
        Some(lend(self.authors.as_slice(), &cell))
    }

    fn text_at(&self, alloc: Global, rev: u64) -> Result<Text, Refusal> {
        Ok(Text::from_vec(shown_text(alloc, self.cells.as_slice(), rev)?))
    }

    fn authors_at(&self, alloc: Global, rev: u64) -> Result<Items<AuthorRun>, Refusal> {
        let cells = self.cells.as_slice();
        let authors = shown_authors(alloc, cells, self.authors.as_slice(), rev)?;
        Ok(Items::from_vec(runs_of(alloc, authors.as_slice())?))
    }

    fn changes(&self, alloc: Global, rev: u64, to: u64) -> Result<Items<Piece>, Refusal> {
        let cells = self.cells.as_slice();
        let authors = self.authors.as_slice();
        Ok(Items::from_vec(plain_pieces(alloc, cells, authors, rev, to)?))
    }

    fn spans_at(&self, alloc: Global, rev: u64, at: u64, len: u64) -> Result<Items<Span>, Refusal> {
        let stamps = shown_stamps(alloc, self.cells.as_slice(), rev, at, len)?;
        Ok(Items::from_vec(spans_of(alloc, stamps.as_slice())?))
    }

    fn before(&self, stamp: Stamp, rev: u64) -> Option<u64> {
        let cells = self.cells.as_slice();
        if !has(cells, stamp) {
            return None;
        }
        Some(count_before(cells, rev, stamp))
    }

    fn through(&self, stamp: Stamp, rev: u64) -> Option<u64> {
        let cells = self.cells.as_slice();
        if !has(cells, stamp) {
            return None;
        }
        Some(count_through(cells, rev, stamp))
    }

    fn stands_before(&self, a: Stamp, b: Stamp) -> Option<bool> {
        let cells = self.cells.as_slice();
        if !has(cells, a) {
            return None;
        }
        if !has(cells, b) {
            return None;
        }
        Some(stands_before(cells, a, b))
    }

    fn has(&self, stamp: Stamp) -> bool {
        has(self.cells.as_slice(), stamp)
    }

    fn clock(&self) -> u64 {
        greatest_counter(self.cells.as_slice())
    }

    fn last_of(&self, replica: u16) -> u64 {
        greatest_counter_of(self.cells.as_slice(), replica)
    }

    fn cell_count(&self) -> u64 {
        self.cells.len() as u64
    }

    fn cell_at(&self, place: u64) -> Option<CellView<'_>> {
        let cell = self.cells.get(place as usize)?;
        Some(lend(self.authors.as_slice(), cell))
    }
}
