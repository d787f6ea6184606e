//! One server's copy of a text: operations go in, and its revisions count up.
//!
//! The copy is kept twice, as blocks and plainly. Each operation is made on both, and both must give the same answer
//! and keep the same characters.
ghost use Rattle.std.specs.Prelude.{◌≡◌, IsTrue, IfOk};
ghost use Rattle.std.specs.List.{list_all};
ghost use Rattle.pad_model.specs.Checked.{are_parts, is_edit};

use crate::compared::have_same_cells;
use block_seq::{BlockSeq, PlainSeq};
use pad_model::{
    Author, Items, Name, Op, OpName, Part, Refusal, Run, Seen, Sequence, Span, Stamp, Text,
};
use std::alloc::Global;
use std::marker::Model;
use std::process::Abort;

/// A sequence of blocks and a plain one beside it, the number of operations that they took, and the number of
/// operations between two comparisons of their cells.
#[derive(Drop)]
pub struct Replica {
    sequence: BlockSeq,
    plain: PlainSeq,
    rev: u64,
    every: u64,
}

impl Model for Replica {
    ghost use Rattle.std.specs.Prelude.{ℕ};
    ghost use Rattle.std.specs.List.{AllByRecursion};
    ghost use Rattle.pad_model.specs.Cell.{IsBy};
    ghost use Rattle.block_seq.specs.Rows.{CellsInBlocks};

    ghost Value = { CellsInBlocks };

    ghost view = { λ s. s.sequence };

    ghost use Rattle.std.specs.Prelude.{◌+◌};

    ghost invariant = { λ s. AllByRecursion (IsBy (s.rev + 1)) s.sequence.cells
        × AllByRecursion (IsBy (s.rev + 1)) s.plain };
}

impl Replica {
    /// Creates two empty sequences, whose cells are compared after each operation.
    pub fn new(alloc: Global) -> Result<Replica, Refusal> {
        Replica::compared_every(alloc, 1)
    }

    /// Creates two empty sequences, whose cells are compared after every `every` operations.
    pub fn compared_every(alloc: Global, every: u64) -> Result<Replica, Refusal> {
        Ok(Replica {
            sequence: BlockSeq::empty(alloc)?,
            plain: PlainSeq::empty(alloc)?,
            rev: 0,
            every,
        })
    }

    pub fn sequence(&self) -> &BlockSeq
        ensures { result.now ≡ self.now }
    {
        &self.sequence
    }

    pub fn rev(&self) -> u64 {
        self.rev
    }

    /// Takes an operation that only edits the text. Returns the number of characters that it hides.
    pub fn deliver(&mut self, alloc: Global, op: &Op) -> Result<u64, Refusal> {
        op.check()?;
        if !op.is_edit() {
            return Err(Refusal::BadOp);
        }
        let author = author_of(op)?;
        self.make(alloc, op.parts.as_slice(), &author)
    }

    pub fn plain(&self) -> &PlainSeq {
        &self.plain
    }

    /// Makes the parts of an operation that is within its limits and only edits the text. `BadStamp`, which no sequence
    /// returns, means that the two differ.
    fn make(&mut self, alloc: Global, parts: &[Part], author: &Author) -> Result<u64, Refusal>
        requires checked { IsTrue (are_parts author.now.origin parts.now) }
        requires edits { IsTrue (list_all is_edit parts.now) }
    {
        if self.rev == u64::MAX {
            return Err(Refusal::BadOp);
        }
        let rev = self.rev + 1;
        let _rows = self.sequence.cell_count();
        let _plain = self.plain.cell_count();
        let wanted = self.plain.apply(alloc, parts, author, rev);
        let made = self.sequence.apply(alloc, parts, author, rev);
        if made != wanted || !are_alike(&self.sequence, &self.plain, self.rev, self.every) {
            return Err(Refusal::BadStamp);
        }
        let hidden = match made {
            Ok(hidden) => hidden,
            Err(refusal) => return Err(refusal),
        };
        self.rev = rev;
        Ok(hidden)
    }

    /// Takes an operation with these parts by the replica with this number.
    pub fn take(
        &mut self,
        alloc: Global,
        origin: u16,
        parts: &[PartSketch],
    ) -> Result<u64, Refusal> {
        let op = op_of(alloc, origin, parts)?;
        self.deliver(alloc, &op)
    }

    /// Returns the text of a revision.
    pub fn text(&self, alloc: Global, rev: u64) -> Result<String, Refusal> {
        let text = self.sequence.text_at(alloc, rev)?;
        Ok(text.to_string(alloc)?)
    }
}

/// Returns true if two sequences have the same cells. They are compared only if the revision is a multiple of `every`.
fn are_alike(rows: &BlockSeq, plain: &PlainSeq, rev: u64, every: u64) -> bool {
    match rev.checked_rem(every) {
        Some(0) | None => have_same_cells(rows, plain),
        Some(_) => true,
    }
}

fn author_of(op: &Op) -> Result<Author, Refusal>
    ensures { IfOk result (λ author. author.origin ≡ op.now.name.origin) }
{
    Ok(Author {
        name: op.author.clone()?,
        origin: op.name.origin,
    })
}

/// The counter and replica of a stamp.
pub type Named = (u64, u16);

/// A part by its numbers.
#[derive(Clone, Copy, Debug)]
pub enum PartSketch {
    /// The first stamp, the character before it, and the text.
    Typed(Named, Option<Named>, &'static str),
    /// The first stamps and lengths of spans.
    Erased(&'static [(Named, u64)]),
}

pub fn stamp_of(named: Named) -> Result<Stamp, Refusal> {
    Stamp::new(named.0, named.1)
}

pub fn part_of(alloc: Global, sketch: &PartSketch) -> Result<Part, Refusal> {
    match sketch {
        PartSketch::Typed(first, after, text) => {
            let after = match after {
                None => None,
                Some(named) => Some(stamp_of(*named)?),
            };
            Ok(Part::Insert(Run {
                first: stamp_of(*first)?,
                after,
                text: Text::from_str(alloc, text)?,
            }))
        }
        PartSketch::Erased(named) => {
            let mut spans = Items::new(alloc);
            for (first, len) in *named {
                spans.push(Span {
                    first: stamp_of(*first)?,
                    len: *len,
                })?;
            }
            Ok(Part::Delete(spans))
        }
    }
}

/// Returns the first operation of a replica, with these parts.
pub fn op_of(alloc: Global, origin: u16, sketches: &[PartSketch]) -> Result<Op, Refusal> {
    let mut parts = Items::new(alloc);
    for sketch in sketches {
        parts.push(part_of(alloc, sketch)?)?;
    }
    Ok(Op {
        name: OpName { origin, number: 1 },
        seen: Seen::new(alloc),
        author: Name::from_str(alloc, "ada")?,
        parts,
    })
}
