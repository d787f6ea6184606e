//! The operations that were delivered, and what they show.
ghost use Rattle.std.specs.Prelude.{◌≡◌, ℕ, ◌+◌, ◌≤◌, [], ◌∷◌, ◌++◌, length, take, drop, filter, slice_get, option_map, count_by, Option, None, Ok, IsTrue, IfErr, MatchResult};
ghost use Rattle.pad_model.specs.Answers.{Answers};
ghost use Rattle.pad_model.specs.Cell.{cells_at};
ghost use Rattle.pad_model.specs.Checked.{is_checked};
ghost use Rattle.pad_model.specs.History.{cells_of, clock_of_characters};
ghost use Rattle.pad_model.specs.Log.{is_comment};
ghost use Rattle.pad_model.specs.OldWire.{op_in_v1};
ghost use Rattle.pad_model.specs.Operation.{characters_in, erased_by};
ghost use Rattle.pad_model.specs.Pieces as pieces_spec;
ghost use Rattle.pad_model.specs.Seen.{count_in};
ghost use Rattle.pad_model.specs.Views.{IsViewOf};
ghost use Rattle.pad_model.specs.Visible.{caret_of, hidden_by, runs_of, spans_of, stamp_at, text_of, visible};
ghost use Rattle.holdback.specs.Held.{is_ready};
ghost use Rattle.op_log.specs.Found.{IsNextMissing};
ghost use Rattle.op_log.specs.Log.{is_missing, is_note};
ghost use Rattle.op_log.specs.Log as log_spec;
ghost use Rattle.pad_core.specs.Comments.{comments_of};
ghost use Rattle.pad_core.specs.Counts.{characters_at, vector_of};
ghost use Rattle.pad_core.specs.Delivered.{IsDelivered, delivery_refusal};
ghost use Rattle.pad_core.specs.Notes as notes;

use crate::enter::count_and_enter;
use crate::judge::{count_inserted, is_comment, is_valid};
use comments::{CommentBook, Shown};
use op_log::{FoundOp, OpLog};
use pad_model::{
    AuthorRun, CellView, Items, MAX_CHARACTERS, MAX_COMMENTS, MAX_OPERATIONS, Op, OpName, Piece,
    Refusal, Seen, Sequence, Span, Stamp, Text,
};
use std::alloc::Global;
use std::marker::Model;

/// The delivered operations of a pad in order of delivery, with the characters, counts and comments that follow from them.
#[derive(Drop)]
pub struct Ledger<S: Sequence> {
    log: OpLog,
    seen: Seen,
    comments: CommentBook,
    sequence: S,
}

impl<S: Sequence> Model for Ledger<S> {
    ghost use Rattle.std.specs.Prelude.{List};
    ghost use Rattle.pad_model.specs.declared.op.Op.{Op};
    ghost use Rattle.pad_core.specs.Delivered.{IsLedger};

    ghost Value = { List Op };

    ghost view = { λ l. l.log.operations };

    ghost invariant = { λ l. IsLedger l.log.operations l.seen l.comments (S.cells l.sequence) };
}

impl<S: Sequence> Ledger<S> {
    /// A ledger to which no operation was delivered yet.
    pub fn new(alloc: Global) -> Result<Ledger<S>, Refusal>
        ensures { MatchResult result (λ ledger. ledger ≡ []) (λ e. e ≡ Refusal.Memory) }
    {
        let sequence = S::empty(alloc)?;
        Ok(Ledger {
            log: OpLog::new(alloc),
            seen: Seen::new(alloc),
            comments: CommentBook::new(alloc),
            sequence,
        })
    }

    /// The number of operations, which is the present revision.
    pub fn len(&self) -> u64
        ensures value { result ≡ length self.now }
        ensures sound { IsDelivered self.now }
    {
        self.log.len()
    }

    /// The number of operations of each origin.
    pub fn seen(&self) -> &Seen
        ensures { result.now ≡ vector_of self.now }
    {
        &self.seen
    }

    /// The number of characters, erased ones included.
    pub fn cell_count(&self) -> u64
        ensures { result ≡ length (characters_in self.now).inserted }
    {
        self.sequence.cell_count()
    }

    /// The greatest counter of a character, or 0.
    pub fn clock(&self) -> u64
        ensures { result ≡ clock_of_characters (characters_in self.now).inserted }
    {
        self.sequence.clock()
    }

    /// The number of characters that a revision shows.
    pub fn len_at(&self, rev: u64) -> u64
        ensures { result ≡ length (visible (characters_at rev self.now)) }
    {
        self.sequence.len_at(rev)
    }

    /// The stamp of the character that a revision shows at a place, from 0.
    pub fn stamp_at(&self, rev: u64, place: u64) -> Option<Stamp>
        ensures { result ≡ stamp_at (characters_at rev self.now) place }
    {
        self.sequence.stamp_at(rev, place)
    }

    /// The character that a revision shows at a place, from 0.
    pub fn shown_cell(&self, rev: u64, place: u64) -> Option<CellView<'_>>
        ensures { IsViewOf result (slice_get (cells_at rev (cells_of self.now)) place) }
    {
        self.sequence.shown_cell(rev, place)
    }

    /// The stamps of the `len` characters that a revision shows from a place on.
    pub fn spans_at(
        &self,
        alloc: Global,
        rev: u64,
        at: u64,
        len: u64,
    ) -> Result<Items<Span>, Refusal>
        requires { at + len ≤ length (visible (characters_at rev self.now)) }
        ensures { MatchResult result (λ spans. spans ≡ spans_of (characters_at rev self.now) at len)
            (λ e. e ≡ Refusal.Memory) }
    {
        self.sequence.spans_at(alloc, rev, at, len)
    }

    /// The text of a revision.
    pub fn text_at(&self, alloc: Global, rev: u64) -> Result<Text, Refusal>
        ensures { MatchResult result (λ text. text ≡ text_of (characters_at rev self.now))
            (λ e. e ≡ Refusal.Memory) }
    {
        self.sequence.text_at(alloc, rev)
    }

    /// Returns the authors of the text of a revision, in runs.
    pub fn runs_at(&self, alloc: Global, rev: u64) -> Result<Items<AuthorRun>, Refusal>
        ensures { MatchResult result (λ runs. runs ≡ runs_of (characters_at rev self.now))
            (λ e. e ≡ Refusal.Memory) }
    {
        self.sequence.authors_at(alloc, rev)
    }

    /// The changes that lead from the text of one revision to that of another, in the fewest pieces.
    pub fn changes(&self, alloc: Global, rev: u64, to: u64) -> Result<Items<Piece>, Refusal>
        ensures { MatchResult result (λ pieces. pieces ≡ pieces_spec.changes rev to (cells_of self.now))
            (λ e. e ≡ Refusal.Memory) }
    {
        self.sequence.changes(alloc, rev, to)
    }

    /// The number of visible characters before a caret that follows this character.
    pub fn caret_place(&self, caret: Option<Stamp>) -> u64
        ensures { result ≡ caret_of (characters_in self.now) caret }
    {
        let Some(stamp) = caret else {
            return 0;
        };
        let now = self.log.len();
        match self.sequence.through(stamp, now) {
            Some(place) => place,
            None => self.sequence.len_at(now),
        }
    }

    /// The comments of a revision, by name.
    pub fn comments_at(&self, alloc: Global, rev: u64) -> Result<Items<Shown>, Refusal>
        ensures { MatchResult result (λ rows. rows ≡ comments_of (take rev self.now))
            (λ e. e ≡ Refusal.Memory) }
    {
        self.comments.list_at(alloc, &self.sequence, rev)
    }

    /// Returns true if a name is a comment's.
    pub fn has_comment(&self, name: OpName) -> bool
        ensures { result ≡ notes.has_comment name self.now }
    {
        self.comments.has(name)
    }

    /// The number of comments.
    pub fn comment_count(&self) -> u64
        ensures { result ≡ count_by is_comment self.now }
    {
        self.comments.len()
    }

    /// The operations that made the revisions `from` to `from + count - 1`, as far as there are any.
    pub fn entries(&self, alloc: Global, from: u64, count: u64) -> Result<Items<Op>, Refusal>
        requires { 1 ≤ from }
        ensures { MatchResult result (λ row. row ≡ log_spec.entries self.now from count)
            (λ e. e ≡ Refusal.Memory) }
    {
        self.log.entries(alloc, from, count)
    }

    /// The number of these that comment or resolve. It needs no memory.
    pub fn count_notes(&self, from: u64, count: u64) -> u64
        requires { 1 ≤ from }
        ensures { result ≡ count_by is_note (log_spec.entries self.now from count) }
    {
        self.log.count_notes(from, count)
    }

    /// The operations that made the revisions after this one.
    pub fn since(&self, alloc: Global, revision: u64) -> Result<Items<Op>, Refusal>
        ensures { MatchResult result (λ row. row ≡ drop revision self.now)
            (λ e. e ≡ Refusal.Memory) }
    {
        self.log.since(alloc, revision)
    }

    /// The name of the operation at a place, from 0. It needs no memory.
    pub fn name_at(&self, place: u64) -> Option<OpName>
        ensures { result ≡ option_map (λ op. op.name) (slice_get self.now place) }
    {
        self.log.name_at(place)
    }

    /// Returns true if the first version of the wire can express the first operation that `seen` does not cover; None
    /// if there is none. It needs no memory.
    pub fn first_missing_in_v1(&self, seen: &Seen) -> Option<bool>
        ensures { result ≡ option_map op_in_v1
            (slice_get (filter (is_missing seen.now) self.now) 0) }
    {
        self.log.first_missing_in_v1(seen)
    }

    /// The first operation from a place on that `seen` does not cover.
    pub fn next_missing(
        &self,
        alloc: Global,
        seen: &Seen,
        from: u64,
    ) -> Result<Option<FoundOp>, Refusal>
        ensures { MatchResult result (IsNextMissing seen.now self.now from)
            (λ e. e ≡ Refusal.Memory) }
    {
        self.log.next_missing(alloc, seen, from)
    }

    /// The first `max` operations that `seen` does not cover.
    pub fn missing(&self, alloc: Global, seen: &Seen, max: u64) -> Result<Items<Op>, Refusal>
        ensures { MatchResult result (λ row. row ≡ log_spec.missing self.now seen.now max)
            (λ e. e ≡ Refusal.Memory) }
    {
        self.log.missing(alloc, seen, max)
    }

    /// Returns the reason an operation cannot be delivered, or None: it does not fit the contents, or the pad has no
    /// room for it.
    pub fn refusal_of(&self, op: &Op) -> Option<Refusal>
        requires { IsTrue (is_checked op.now) }
        ensures { result ≡ delivery_refusal op.now self.now }
    {
        if !is_valid(&self.sequence, &self.comments, op) {
            return Some(Refusal::PeerFault);
        }
        if MAX_CHARACTERS < self.sequence.cell_count() + count_inserted(op) {
            return Some(Refusal::PadFull);
        }
        if MAX_OPERATIONS <= self.log.len() {
            return Some(Refusal::LogFull);
        }
        if is_comment(op) && MAX_COMMENTS <= self.comments.len() {
            return Some(Refusal::CommentsFull);
        }
        None
    }

    /// Delivers an operation that is ready, to which no refusal applies. Returns the number of visible characters that
    /// it hides.
    pub fn append(&mut self, alloc: Global, op: Op) -> Result<u64, Refusal>
        requires checked { IsTrue (is_checked op) }
        requires ready { IsTrue (is_ready (vector_of self.old) op) }
        requires allowed { delivery_refusal op self.old ≡ None }
        ensures { Answers self.old (
          Ok (hidden_by (erased_by op) (characters_in self.old)),
          self.old ++ op ∷ [],
        ) result self.new }
    {
        let hidden = count_and_enter(
            alloc,
            &mut self.log,
            &mut self.seen,
            &mut self.comments,
            &mut self.sequence,
            &op,
        )?;
        self.log.commit(&op);
        Ok(hidden)
    }
}
