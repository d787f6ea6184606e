//! A sequence of blocks and a plain one: each change is made on both, and both must tell the same.
ghost use Rattle.std.specs.Prelude.{◌≡◌, IsTrue};
ghost use Rattle.std.specs.List.{list_all};
ghost use Rattle.pad_model.specs.Checked.{fits_clock, is_run, is_span};

use crate::replica::stamp_of;
use block_seq::{BlockSeq, PlainSeq};
use dice::Dice;
use pad_model::{
    Author, AuthorRun, Items, MAX_COUNTER, MAX_TEXT, Name, Part, Refusal, Run, Sequence, Span,
    Stamp,
};
use std::alloc::Global;
use std::marker::Model;
use std::process::Abort;

/// Both sequences, and how many changes they took.
#[derive(Drop)]
pub struct SequencePair {
    plain: PlainSeq,
    rows: BlockSeq,
    rev: u64,
}

impl Model for SequencePair {
    ghost use Rattle.std.specs.Prelude.{ℕ, List};
    ghost use Rattle.std.specs.List.{AllByRecursion};
    ghost use Rattle.pad_model.specs.Cell.{Cell, IsBy};

    ghost Value = { List Cell };

    ghost view = { λ s. s.plain };

    ghost invariant = { λ s. AllByRecursion (IsBy s.rev) s.plain
        × AllByRecursion (IsBy s.rev) s.rows.cells };
}

impl SequencePair {
    pub fn new(alloc: Global) -> Result<SequencePair, Refusal> {
        Ok(SequencePair {
            plain: PlainSeq::empty(alloc)?,
            rows: BlockSeq::empty(alloc)?,
            rev: 0,
        })
    }

    pub fn rows(&self) -> &BlockSeq {
        &self.rows
    }

    pub fn plain(&self) -> &PlainSeq {
        &self.plain
    }

    pub fn rev(&self) -> u64 {
        self.rev
    }

    /// Puts a run into both. Whether both answer the same.
    fn insert(&mut self, alloc: Global, run: &Run, author: &Author) -> bool
        requires { IsTrue (is_run author.now.origin run.now) }
    {
        if self.rev == u64::MAX {
            return false;
        }
        let rev = self.rev + 1;
        let _plain = self.plain.cell_count();
        let _rows = self.rows.cell_count();
        let wanted = self.plain.insert_run(alloc, run, author, rev);
        let made = self.rows.insert_run(alloc, run, author, rev);
        self.rev = rev;
        made == wanted
    }

    /// Erases spans in both. Whether both answer the same.
    fn erase(&mut self, spans: &[Span]) -> bool
        requires { IsTrue (list_all is_span spans.now) }
    {
        if self.rev == u64::MAX {
            return false;
        }
        let rev = self.rev + 1;
        let wanted = self.plain.delete_spans(spans, rev);
        let made = self.rows.delete_spans(spans, rev);
        self.rev = rev;
        made == wanted
    }

    /// Makes a part on both. Whether both answer the same.
    pub fn take(&mut self, alloc: Global, part: &Part, author: &Author) -> bool {
        match part {
            Part::Insert(run) => is_run(author.origin, run) && self.insert(alloc, run, author),
            Part::Delete(spans) => are_spans(spans.as_slice()) && self.erase(spans.as_slice()),
            _ => false,
        }
    }

    /// Both have the same sizes and counters.
    pub fn counts_agree(&self, rt: &impl Abort) {
        let (came, want) = (self.rows.cell_count(), self.plain.cell_count());
        assert!(rt; came == want, "wanted {want} characters, came {came}");
        let (came, want) = (self.rows.clock(), self.plain.clock());
        assert!(rt; came == want, "wanted the clock {want}, came {came}");
        for replica in 0..=4 {
            let (came, want) = (self.rows.last_of(replica), self.plain.last_of(replica));
            assert!(rt;
                came == want,
                "last of {replica}: wanted {want}, came {came}"
            );
        }
    }

    /// Both show the same text at a revision.
    fn texts_agree(&self, rt: &impl Abort, alloc: Global, rev: u64) -> Result<(), Refusal> {
        let want = self.plain.text_at(alloc, rev)?;
        let came = self.rows.text_at(alloc, rev)?;
        assert!(rt;
            came == want,
            "revision {rev}: wanted {want:?}, came {came:?}"
        );
        let (came, want) = (self.rows.len_at(rev), self.plain.len_at(rev));
        assert!(rt;
            came == want,
            "revision {rev}: wanted {want} characters, came {came}"
        );
        Ok(())
    }

    /// Both have the same author runs at a revision.
    fn authors_agree(&self, rt: &impl Abort, alloc: Global, rev: u64) -> Result<(), Refusal> {
        let want = self.plain.authors_at(alloc, rev)?;
        let came = self.rows.authors_at(alloc, rev)?;
        assert!(rt;
            came == want,
            "revision {rev}: wanted the runs {want:?}, came {came:?}"
        );
        Ok(())
    }

    /// The sequence of blocks reports the same runs for a revision, by its blocks, as it reported from the runs that it
    /// kept then.
    pub fn runs_stayed(
        &self,
        rt: &impl Abort,
        alloc: Global,
        rev: u64,
        told: &Items<AuthorRun>,
    ) -> Result<(), Refusal> {
        let came = self.rows.authors_at(alloc, rev)?;
        assert!(rt;
            came == *told,
            "revision {rev}: wanted the runs {told:?}, came {came:?}"
        );
        Ok(())
    }

    /// Both tell the same changes from one revision to another.
    fn changes_agree(
        &self,
        rt: &impl Abort,
        alloc: Global,
        rev: u64,
        to: u64,
    ) -> Result<(), Refusal> {
        let want = self.plain.changes(alloc, rev, to)?;
        let came = self.rows.changes(alloc, rev, to)?;
        assert!(rt;
            came == want,
            "from {rev} to {to}: wanted {want:?}, came {came:?}"
        );
        Ok(())
    }

    /// Both say the same of a place and of a stamp at a revision.
    fn readers_agree(&self, rt: &impl Abort, rev: u64, place: u64, stamp: Stamp) {
        let (came, want) = (
            self.rows.stamp_at(rev, place),
            self.plain.stamp_at(rev, place),
        );
        assert!(rt;
            came == want,
            "stamp at {place} of {rev}: wanted {want:?}, came {came:?}"
        );
        let (came, want) = (self.rows.has(stamp), self.plain.has(stamp));
        assert!(rt; came == want, "has {stamp:?}: wanted {want}, came {came}");
        let (came, want) = (self.rows.before(stamp, rev), self.plain.before(stamp, rev));
        assert!(rt;
            came == want,
            "before {stamp:?} at {rev}: wanted {want:?}, came {came:?}"
        );
        let (came, want) = (
            self.rows.through(stamp, rev),
            self.plain.through(stamp, rev),
        );
        assert!(rt;
            came == want,
            "through {stamp:?} at {rev}: wanted {want:?}, came {came:?}"
        );
    }

    /// Both say the same of each place and of each character at a revision.
    pub fn all_agree(&self, rt: &impl Abort, rev: u64) {
        for place in 0..self.plain.cell_count() {
            let Some(cell) = self.plain.cell_at(place) else {
                panic!(rt; "no character at {place}");
            };
            self.readers_agree(rt, rev, place, cell.stamp);
        }
    }

    /// Both report the same now and at an older revision: of counts, texts, author runs, a place and a stamp that may
    /// be missing, and of the changes between two revisions, from either to the other.
    pub fn agree(&self, rt: &impl Abort, alloc: Global, dice: &mut Dice) -> Result<(), Refusal> {
        let old = dice.roll(self.rev.saturating_add(1));
        let other = dice.roll(self.rev.saturating_add(1));
        let replica = dice.roll(3).saturating_add(1) as u16;
        let counter = dice.roll(self.plain.clock().saturating_add(1));
        let stamp = stamp_of((counter.saturating_add(1), replica))?;
        let place = dice.roll(self.plain.len_at(self.rev).saturating_add(2));
        self.counts_agree(rt);
        self.readers_agree(rt, self.rev, place, stamp);
        self.readers_agree(rt, old, place, stamp);
        self.changes_agree(rt, alloc, old, other)?;
        self.changes_agree(rt, alloc, old, self.rev)?;
        self.authors_agree(rt, alloc, self.rev)?;
        self.authors_agree(rt, alloc, self.rev.saturating_add(1))?;
        self.authors_agree(rt, alloc, old)?;
        self.texts_agree(rt, alloc, self.rev)?;
        self.texts_agree(rt, alloc, old)
    }
}

pub fn is_run(origin: u16, run: &Run) -> bool
    ensures { result ≡ is_run origin run.now }
{
    let len = run.text.len() as u64;
    1 <= len && len <= MAX_TEXT && run.first.replica() == origin && fits_clock(run.first, len)
}

fn are_spans(spans: &[Span]) -> bool
    ensures { result ≡ list_all is_span spans.now }
{
    spans.iter().all(is_span)
}

fn is_span(span: &Span) -> bool
    ensures { result ≡ is_span span.now }
{
    span.len >= 1 && fits_clock(span.first, span.len)
}

fn fits_clock(first: Stamp, len: u64) -> bool
    ensures { result ≡ fits_clock first.counter len }
{
    first.counter().saturating_add(len) <= MAX_COUNTER + 1
}

pub fn author_of(alloc: Global, origin: u16) -> Result<Author, Refusal> {
    Ok(Author {
        name: Name::from_str(alloc, "ada")?,
        origin,
    })
}
