//! The sequence of blocks: a balanced tree of them, an index of their stamps, and one text that they only add to.
ghost use Rattle.std.specs.Prelude.{◌≡◌, ◌+◌, ◌*◌, ◌≤◌, [], IsTrue, MatchResult, Ok, count_by, length, map, sum_by};
ghost use Rattle.std.specs.List.{AllByRecursion, list_all};
ghost use Rattle.pad_model.specs.Answers.{Answers};
ghost use Rattle.pad_model.specs.Cell.{IsBy, character_of, is_hidden_by, with_run, without_spans};
ghost use Rattle.pad_model.specs.Cell as cell;
ghost use Rattle.pad_model.specs.Checked.{are_parts, is_edit, is_run, is_span};
ghost use Rattle.pad_model.specs.Log.{run_may_join};
ghost use Rattle.pad_model.specs.Log as log;
ghost use Rattle.pad_model.specs.Parts.{AllJoin, with_all};
ghost use Rattle.pad_model.specs.Parts as parts_spec;
ghost use Rattle.pad_model.specs.declared.limits.TheConstants.{MAX_CHARACTERS};
ghost use Rattle.block_seq.specs.RowParts.{count_changes};

use crate::authors::place_author;
use crate::parts::count_inserted;
use crate::row_authors::{follow_hidden, follow_shown};
use crate::row_erase::{cut_spans, has_spans};
use crate::row_kills::kill_named;
use crate::row_lists::{find_cell, read_authors};
use crate::row_parts::{count_text, list_runs, list_spans, parts_fit};
use crate::row_past::{PastRow, count_front, count_visible, find_shown, find_visible, read_spans};
use crate::row_pieces::list_pieces;
use crate::row_readers::{is_at_most, read_text};
use crate::row_slides::count_kills;
use crate::row_view::KeptRow;
use crate::run_place::{cut_parents, has_character, run_fits};
use crate::run_put::{Batch, put_runs};
use authorship::RunTree;
use blocks::{Block, Spot, find_block};
use ident_index::IdentIndex;
use pad_model::{
    Author, AuthorRun, CellView, Items, MAX_CHARACTERS, Part, Piece, Refusal, Run, Sequence, Span,
    Stamp, Text,
};
use std::alloc::Global;
use std::marker::Model;
use text_history::Slide;
use weight_tree::WeightTree;

/// A text in blocks.
#[derive(Drop)]
pub struct BlockSeq {
    /// The authors of the visible characters. This field is first: after the tree, no proof of `Send` is found.
    runs: RunTree,
    pub(crate) tree: WeightTree<Block>,
    pub(crate) index: IdentIndex,
    pub(crate) text: Vec<char>,
    pub(crate) authors: Vec<Author>,
    /// The stretches of characters that came and went, in that order.
    slides: Vec<Slide>,
    /// The last revision that changed something.
    latest: u64,
    /// The greatest counter of any character, or 0.
    clock: u64,
}

impl Model for BlockSeq {
    ghost use Rattle.block_seq.specs.Rows.{CellsInBlocks, cells_in};

    ghost Value = { CellsInBlocks };

    ghost use Rattle.block_seq.specs.RowAuthors.{IsAuthoredRow};

    ghost view = { λ s. cells_in s.authors.items s.text.items s.tree.items };

    ghost invariant = { λ s. IsAuthoredRow s.latest s.clock s.authors.items s.text.items
        s.slides.items s.index s.tree.items s.runs.places };
}

impl BlockSeq {
    /// Erases the characters of the spans and puts runs at their places, or changes nothing.
    fn change(
        &mut self,
        alloc: Global,
        spans: &[Span],
        runs: &[&Run],
        author: &Author,
        rev: u64,
    ) -> Result<u64, Refusal>
        requires spans { IsTrue (list_all is_span spans.now) }
        requires there { IsTrue (log.has_spans character_of self.old.cells spans.now) }
        requires runs { IsTrue (list_all (λ run. is_run author.now.origin run.now) runs.now) }
        requires fit { IsTrue (list_all (λ run. run_may_join character_of self.old.cells
            run.now.first run.now.after) runs.now) }
        requires join { AllJoin rev author.now self.old.cells (map (λ run. run.now) runs.now) }
        requires room { length self.old.cells + sum_by (λ run. length run.now.text) runs.now
            ≤ MAX_CHARACTERS }
        requires latest { AllByRecursion (IsBy rev) self.old.cells }
        ensures answers { Answers self.old.cells (
          Ok (count_by (is_hidden_by spans.now) self.old.cells),
          with_all rev author.now (without_spans rev spans.now self.old.cells)
              (map (λ run. run.now) runs.now),
        ) result self.new.cells }
        ensures blocks { self.new.blocks
            ≤ self.old.blocks + 2 * (length runs.now + length spans.now) }
    {
        self.runs.reserve(alloc, runs.len() as u64)?;
        cut_spans(alloc, &mut self.tree, &mut self.index, spans)?;
        cut_parents(alloc, &mut self.tree, &mut self.index, runs)?;
        let author = place_author(&mut self.authors, author)?;
        self.text.reserve(count_text(runs))?;
        let kills = count_kills(&self.tree, spans);
        self.slides.reserve(kills + 2 * runs.len())?;
        let known = self.slides.len();
        let batch = Batch {
            authors: self.authors.as_slice(),
            author,
            rev,
            clock: self.clock,
        };
        let clock = put_runs(
            &mut self.tree,
            &mut self.index,
            &mut self.text,
            &mut self.slides,
            runs,
            &batch,
        )?;
        follow_shown(&mut self.runs, self.slides.as_slice(), known, author);
        let known = self.slides.len();
        let hidden = kill_named(&mut self.tree, &self.index, &mut self.slides, spans, rev);
        follow_hidden(&mut self.runs, self.slides.as_slice(), known);
        self.clock = clock;
        self.latest = self.latest.max(rev);
        Ok(hidden)
    }

    /// Puts a run at its place in the preorder, or changes nothing.
    fn put(&mut self, alloc: Global, run: &Run, author: &Author, rev: u64) -> Result<(), Refusal>
        requires run { IsTrue (is_run author.now.origin run.now) }
        requires fits { IsTrue (run_may_join character_of self.old.cells run.now.first
            run.now.after) }
        requires room { length self.old.cells + length run.now.text ≤ MAX_CHARACTERS }
        requires latest { AllByRecursion (IsBy rev) self.old.cells }
        ensures answers { Answers self.old.cells
            (Ok tt, with_run rev run.now author.now self.old.cells) result self.new.cells }
        ensures blocks { self.new.blocks ≤ self.old.blocks + 2 }
    {
        self.change(alloc, &[], &[run], author, rev)?;
        Ok(())
    }

    /// Erases the characters of the spans.
    fn erase(&mut self, alloc: Global, spans: &[Span], rev: u64) -> Result<u64, Refusal>
        requires checked { IsTrue (list_all is_span spans.now) }
        requires there { IsTrue (log.has_spans character_of self.old.cells spans.now) }
        requires latest { AllByRecursion (IsBy rev) self.old.cells }
        ensures answers { Answers self.old.cells (
          Ok (count_by (is_hidden_by spans.now) self.old.cells),
          without_spans rev spans.now self.old.cells,
        ) result self.new.cells }
        ensures blocks { self.new.blocks ≤ self.old.blocks + 2 * length spans.now }
    {
        cut_spans(alloc, &mut self.tree, &mut self.index, spans)?;
        let kills = count_kills(&self.tree, spans);
        self.slides.reserve(kills)?;
        let known = self.slides.len();
        let hidden = kill_named(&mut self.tree, &self.index, &mut self.slides, spans, rev);
        follow_hidden(&mut self.runs, self.slides.as_slice(), known);
        self.latest = self.latest.max(rev);
        Ok(hidden)
    }
}

impl Sequence for BlockSeq {
    ghost cells = { λ s. s.cells };

    fn empty(alloc: Global) -> Result<BlockSeq, Refusal> {
        Ok(BlockSeq {
            tree: WeightTree::new(),
            index: IdentIndex::new(alloc),
            text: Vec::new(alloc),
            authors: Vec::new(alloc),
            slides: Vec::new(alloc),
            latest: 0,
            clock: 0,
            runs: RunTree::new(alloc),
        })
    }

    fn insert_run(
        &mut self,
        alloc: Global,
        run: &Run,
        author: &Author,
        rev: u64,
    ) -> Result<(), Refusal>
        requires checked { IsTrue (is_run author.now.origin run.now) }
        requires latest { AllByRecursion (IsBy rev) self.old.cells }
        ensures answers { Answers self.old.cells
            (cell.insert_run rev run.now author.now self.old.cells) result self.new.cells }
        ensures blocks { self.new.blocks ≤ self.old.blocks + 2 }
    {
        if !run_fits(&self.tree, &self.index, run.first, run.after) {
            return Err(Refusal::PeerFault);
        }
        if MAX_CHARACTERS < self.text.len() as u64 + run.text.len() as u64 {
            return Err(Refusal::PadFull);
        }
        self.put(alloc, run, author, rev)
    }

    fn delete_spans(&mut self, spans: &[Span], rev: u64) -> Result<u64, Refusal>
        requires checked { IsTrue (list_all is_span spans.now) }
        requires latest { AllByRecursion (IsBy rev) self.old.cells }
        ensures answers { Answers self.old.cells (cell.delete_spans rev spans.now self.old.cells) result
            self.new.cells }
        ensures blocks { self.new.blocks ≤ self.old.blocks + 2 * length spans.now }
    {
        if !has_spans(&self.tree, &self.index, spans) {
            return Err(Refusal::PeerFault);
        }
        let alloc = *self.text.allocator();
        self.erase(alloc, spans, rev)
    }

    fn apply(
        &mut self,
        alloc: Global,
        parts: &[Part],
        author: &Author,
        rev: u64,
    ) -> Result<u64, Refusal>
        requires checked { IsTrue (are_parts author.now.origin parts.now) }
        requires edits { IsTrue (list_all is_edit parts.now) }
        requires latest { AllByRecursion (IsBy rev) self.old.cells }
        ensures answers { Answers self.old.cells
            (parts_spec.apply rev parts.now author.now self.old.cells) result self.new.cells }
        ensures blocks { self.new.blocks ≤ self.old.blocks + 2 * count_changes parts.now }
    {
        if !parts_fit(&self.tree, &self.index, parts) {
            return Err(Refusal::PeerFault);
        }
        let more = count_inserted(parts);
        if MAX_CHARACTERS < self.text.len() as u64 + more as u64 {
            return Err(Refusal::PadFull);
        }
        let spans = list_spans(alloc, parts)?;
        let runs = list_runs(alloc, parts)?;
        if runs.is_empty() {
            return self.erase(alloc, spans.as_slice(), rev);
        }
        self.change(alloc, spans.as_slice(), runs.as_slice(), author, rev)
    }

    fn fits(&self, parts: &[Part], _origin: u16) -> bool {
        let _text = &self.text;
        parts_fit(&self.tree, &self.index, parts)
    }

    fn len_at(&self, rev: u64) -> u64 {
        let _text = &self.text;
        count_visible(&self.tree, self.slides.as_slice(), rev)
    }

    fn stamp_at(&self, rev: u64, place: u64) -> Option<Stamp> {
        let _text = &self.text;
        find_visible(&self.tree, self.slides.as_slice(), rev, place)
    }

    fn shown_cell(&self, rev: u64, place: u64) -> Option<CellView<'_>> {
        let row = PastRow {
            tree: &self.tree,
            index: &self.index,
            slides: self.slides.as_slice(),
            latest: self.latest,
        };
        find_shown(
            row,
            self.text.as_slice(),
            self.authors.as_slice(),
            rev,
            place,
        )
    }

    fn text_at(&self, alloc: Global, rev: u64) -> Result<Text, Refusal> {
        let text = self.text.as_slice();
        Ok(Text::from_vec(read_text(alloc, &self.tree, text, self.authors.len(), rev)?))
    }

    fn authors_at(&self, alloc: Global, rev: u64) -> Result<Items<AuthorRun>, Refusal> {
        let authors = self.authors.as_slice();
        if self.latest <= rev {
            return Ok(Items::from_vec(self.runs.author_runs(alloc, authors)?));
        }
        Ok(Items::from_vec(read_authors(alloc, &self.tree, authors, self.text.len(), rev)?))
    }

    fn changes(&self, alloc: Global, rev: u64, to: u64) -> Result<Items<Piece>, Refusal> {
        let row = KeptRow {
            tree: &self.tree,
            index: &self.index,
            text: self.text.as_slice(),
            authors: self.authors.as_slice(),
        };
        Ok(Items::from_vec(list_pieces(alloc, row, self.slides.as_slice(), rev, to)?))
    }

    fn spans_at(&self, alloc: Global, rev: u64, at: u64, len: u64) -> Result<Items<Span>, Refusal> {
        let row = PastRow {
            tree: &self.tree,
            index: &self.index,
            slides: self.slides.as_slice(),
            latest: self.latest,
        };
        Ok(Items::from_vec(read_spans(alloc, row, rev, at, len)?))
    }

    fn before(&self, stamp: Stamp, rev: u64) -> Option<u64> {
        let spot = find_block(&self.tree, &self.index, stamp)?;
        let row = PastRow {
            tree: &self.tree,
            index: &self.index,
            slides: self.slides.as_slice(),
            latest: self.latest,
        };
        Some(count_front(row, spot, rev))
    }

    fn through(&self, stamp: Stamp, rev: u64) -> Option<u64> {
        let spot = find_block(&self.tree, &self.index, stamp)?;
        let offset = spot.offset + 1;
        let row = PastRow {
            tree: &self.tree,
            index: &self.index,
            slides: self.slides.as_slice(),
            latest: self.latest,
        };
        Some(count_front(row, Spot { offset, ..spot }, rev))
    }

    fn stands_before(&self, a: Stamp, b: Stamp) -> Option<bool> {
        let first = find_block(&self.tree, &self.index, a)?;
        let last = find_block(&self.tree, &self.index, b)?;
        let _text = &self.text;
        Some(is_at_most(first, last))
    }

    fn has(&self, stamp: Stamp) -> bool {
        has_character(&self.tree, &self.index, stamp)
    }

    fn clock(&self) -> u64 {
        let _text = &self.text;
        self.clock
    }

    fn last_of(&self, replica: u16) -> u64 {
        let _kept = &self.tree;
        self.index.last_of(replica)
    }

    fn cell_count(&self) -> u64 {
        let _kept = &self.tree;
        self.text.len() as u64
    }

    fn cell_at(&self, place: u64) -> Option<CellView<'_>> {
        find_cell(
            &self.tree,
            self.text.as_slice(),
            self.authors.as_slice(),
            place,
        )
    }
}
