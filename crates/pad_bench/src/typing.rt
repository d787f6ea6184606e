//! Work on a sequence: edits of one author by calls, each at a revision that is some before the present.
ghost use Rattle.std.specs.Prelude.{◌≡◌, IsTrue};
ghost use Rattle.std.specs.List.{list_all};
ghost use Rattle.pad_model.specs.Checked.{fits_clock, is_run, is_span};

use crate::SEED;
use block_seq::{BlockSeq, PlainSeq};
use dice::Dice;
use pad_model::{Author, MAX_COUNTER, MAX_TEXT, Name, Refusal, Run, Sequence, Span, Stamp, Text};
use std::alloc::Global;
use std::marker::Model;

const REPLICA: u16 = 1;

/// The places of the edits of a trace.
#[derive(Clone, Copy, Debug)]
pub enum Trace {
    /// Each character at the end.
    Append,
    /// Each character after the one typed before it, in front of the last character of the text.
    Forward,
    /// Each character directly after the first one.
    Backward,
    /// Four characters at a random place; each eighth edit erases one instead.
    Random,
    /// Four characters at a random place of the revision that is this many before the present.
    Stale(u64),
}

/// A sequence, and the revision that it has come to.
#[derive(Drop)]
struct Desk<S: Sequence> {
    row: S,
    rev: u64,
}

impl<S: Sequence> Model for Desk<S> {
    ghost use Rattle.std.specs.Prelude.{List};
    ghost use Rattle.std.specs.List.{AllByRecursion};
    ghost use Rattle.pad_model.specs.Cell.{Cell, IsBy};

    ghost Value = { List Cell };

    ghost view = { λ s. S.cells s.row };

    ghost invariant = { λ s. AllByRecursion (IsBy s.rev) (S.cells s.row) };
}

impl<S: Sequence> Desk<S> {
    fn new(alloc: Global) -> Result<Desk<S>, Refusal> {
        Ok(Desk {
            row: S::empty(alloc)?,
            rev: 0,
        })
    }

    // The run that an author types at a place of a revision.
    fn run_at(&self, alloc: Global, seen: u64, at: u64, text: &str) -> Result<Run, Refusal> {
        let before = at.checked_sub(1);
        Ok(Run {
            first: Stamp::new(self.row.clock().saturating_add(1), REPLICA)?,
            after: before.and_then(|place| self.row.stamp_at(seen, place)),
            text: Text::from_str(alloc, text)?,
        })
    }

    fn put(&mut self, alloc: Global, run: &Run, author: &Author) -> Result<(), Refusal>
        requires { IsTrue (is_run author.now.origin run.now) }
    {
        if self.rev == u64::MAX {
            return Err(Refusal::PadFull);
        }
        let rev = self.rev + 1;
        let _row = self.row.cell_count();
        let made = self.row.insert_run(alloc, run, author, rev);
        self.rev = rev;
        made
    }

    fn erase(&mut self, spans: &[Span]) -> Result<u64, Refusal>
        requires { IsTrue (list_all is_span spans.now) }
    {
        if self.rev == u64::MAX {
            return Err(Refusal::PadFull);
        }
        let rev = self.rev + 1;
        let made = self.row.delete_spans(spans, rev);
        self.rev = rev;
        made
    }

    // Types a text at a place of a revision.
    fn type_at(
        &mut self,
        alloc: Global,
        author: &Author,
        seen: u64,
        at: u64,
        text: &str,
    ) -> Result<(), Refusal> {
        let run = self.run_at(alloc, seen, at, text)?;
        if !is_run(author.origin, &run) {
            return Err(Refusal::PeerFault);
        }
        self.put(alloc, &run, author)
    }

    // Erases the character at a place of the present.
    fn erase_at(&mut self, at: u64) -> Result<u64, Refusal> {
        let Some(first) = self.row.stamp_at(self.rev, at) else {
            return Ok(0);
        };
        let spans = [Span { first, len: 1 }];
        if !are_spans(&spans) {
            return Err(Refusal::PeerFault);
        }
        self.erase(&spans)
    }

    // Makes an edit of a trace.
    fn edit(
        &mut self,
        alloc: Global,
        author: &Author,
        dice: &mut Dice,
        trace: Trace,
        number: u64,
    ) -> Result<(), Refusal> {
        let now = self.rev;
        match trace {
            Trace::Append => self.type_at(alloc, author, now, number, "x"),
            Trace::Forward => self.type_at(alloc, author, now, number.saturating_sub(1), "x"),
            Trace::Backward => self.type_at(alloc, author, now, number.min(1), "x"),
            Trace::Random if number % 8 == 7 => {
                let at = dice.roll(self.row.len_at(now));
                self.erase_at(at).map(|_| ())
            }
            Trace::Random => {
                let at = dice.roll(self.row.len_at(now).saturating_add(1));
                self.type_at(alloc, author, now, at, "text")
            }
            Trace::Stale(behind) => {
                let seen = now.saturating_sub(behind);
                let at = dice.roll(self.row.len_at(seen).saturating_add(1));
                self.type_at(alloc, author, seen, at, "text")
            }
        }
    }

    // The number of characters that are shown.
    fn shown(&self) -> u64 {
        self.row.len_at(self.rev)
    }
}

impl Desk<BlockSeq> {
    // The numbers of blocks and of characters shown, and a check sum over the stamps, parents and labels of the blocks
    // in order.
    fn counts(&self, alloc: Global) -> Result<String, Refusal> {
        let mut check: u64 = 0;
        for block in self.row.kept().tree {
            let parent = block.parent.map_or(0, |stamp| stamp.counter());
            check = check
                .wrapping_mul(31)
                .wrapping_add(block.first.counter() ^ parent ^ block.label);
        }
        let (blocks, shown) = (self.row.blocks(), self.row.len_at(self.rev));
        Ok(format!(in alloc; "blocks {blocks}, shown {shown}, check {check}")?)
    }
}

fn is_run(origin: u16, run: &Run) -> bool
    ensures { result ≡ is_run origin run.now }
{
    let len = run.text.len() as u64;
    1 <= len && len <= MAX_TEXT && run.first.replica() == origin && fits_clock(run.first, len)
}

fn are_spans(spans: &[Span]) -> bool
    ensures { result ≡ list_all is_span spans.now }
{
    spans.iter().all(is_span)
}

fn is_span(span: &Span) -> bool
    ensures { result ≡ is_span span.now }
{
    span.len >= 1 && fits_clock(span.first, span.len)
}

fn fits_clock(first: Stamp, len: u64) -> bool
    ensures { result ≡ fits_clock first.counter len }
{
    first.counter().saturating_add(len) <= MAX_COUNTER + 1
}

// The author of all edits.
fn typist(alloc: Global) -> Result<Author, Refusal> {
    Ok(Author {
        name: Name::from_str(alloc, "ann")?,
        origin: REPLICA,
    })
}

// A sequence after that many edits of a trace.
fn edited<S: Sequence>(
    alloc: Global,
    author: &Author,
    trace: Trace,
    size: u32,
) -> Result<Desk<S>, Refusal> {
    let mut dice = Dice::new(SEED);
    let mut desk = Desk::new(alloc)?;
    for number in 0..u64::from(size) {
        desk.edit(alloc, author, &mut dice, trace, number)?;
    }
    Ok(desk)
}

/// Makes that many edits of a trace on an empty sequence of blocks, that many times.
pub fn edits(alloc: Global, trace: Trace, size: u32, times: u32) -> Result<String, Refusal> {
    let author = typist(alloc)?;
    let mut counts = String::new(alloc);
    for _ in 0..times {
        let desk: Desk<BlockSeq> = edited(alloc, &author, trace, size)?;
        counts = desk.counts(alloc)?;
    }
    Ok(counts)
}

/// Makes the same edits on an empty plain sequence, and returns the number of characters shown in the end.
pub fn plain_edits(alloc: Global, trace: Trace, size: u32, times: u32) -> Result<String, Refusal> {
    let author = typist(alloc)?;
    let mut shown: u64 = 0;
    for _ in 0..times {
        let desk: Desk<PlainSeq> = edited(alloc, &author, trace, size)?;
        shown = desk.shown();
    }
    Ok(format!(in alloc; "shown {shown}")?)
}
