//! A million characters in one sequence: a hundred runs of ten thousand, each inserted at the start.
ghost use Rattle.std.specs.Prelude.{IsTrue};
ghost use Rattle.pad_model.specs.Checked.{is_run};

use crate::pair::{author_of, is_run};
use block_seq::BlockSeq;
use pad_model::{Author, MAX_TEXT, Refusal, Run, Sequence, Stamp, Text};
use std::alloc::Global;
use std::marker::Model;
use std::test::Fail;

const RUNS: u64 = 100;

/// A sequence of blocks, and the number of changes to it.
#[derive(Drop)]
struct Long {
    row: BlockSeq,
    rev: u64,
}

impl Model for Long {
    ghost use Rattle.std.specs.Prelude.{List};
    ghost use Rattle.std.specs.List.{AllByRecursion};
    ghost use Rattle.pad_model.specs.Cell.{Cell, IsBy};

    ghost Value = { List Cell };

    ghost view = { λ s. s.row.cells };

    ghost invariant = { λ s. AllByRecursion (IsBy s.rev) s.row.cells };
}

impl Long {
    fn new(alloc: Global) -> Result<Long, Refusal> {
        Ok(Long {
            row: BlockSeq::empty(alloc)?,
            rev: 0,
        })
    }

    fn put(&mut self, alloc: Global, run: &Run, author: &Author) -> Result<(), Refusal>
        requires { IsTrue (is_run author.now.origin run.now) }
    {
        if self.rev == u64::MAX {
            return Err(Refusal::PadFull);
        }
        let rev = self.rev + 1;
        let _row = self.row.cell_count();
        let made = self.row.insert_run(alloc, run, author, rev);
        self.rev = rev;
        made
    }

    /// Returns true if the character at a place of a revision is the one that the order of the runs gives: each run
    /// comes before the earlier ones.
    fn stands_at(&self, rev: u64, place: u64) -> bool {
        let (before, offset) = (place / MAX_TEXT, place % MAX_TEXT);
        let run = rev.saturating_sub(before).saturating_sub(1);
        let counter = run.saturating_mul(MAX_TEXT).saturating_add(offset + 1);
        let stamp = Stamp::new(counter, 1).ok();
        stamp.is_some_and(|stamp| {
            self.row.stamp_at(rev, place) == Some(stamp)
                && self.row.before(stamp, rev) == Some(place)
                && self.row.through(stamp, rev) == Some(place.saturating_add(1))
        })
    }
}

/// Returns a run of the greatest length, at the start.
fn run_from(alloc: Global, counter: u64) -> Result<Run, Refusal> {
    let mut text = Vec::new(alloc);
    for _ in 0..MAX_TEXT {
        text.push('x')?;
    }
    Ok(Run {
        first: Stamp::new(counter, 1)?,
        after: None,
        text: Text::from_vec(text),
    })
}

/// Returns a sequence with all runs.
fn all_typed(alloc: Global) -> Result<Long, Refusal> {
    let mut long = Long::new(alloc)?;
    let author = author_of(alloc, 1)?;
    for number in 0..RUNS {
        let run = run_from(alloc, number * MAX_TEXT + 1)?;
        if !is_run(author.origin, &run) {
            return Err(Refusal::PeerFault);
        }
        long.put(alloc, &run, &author)?;
    }
    Ok(long)
}

#[test]
fn a_million_characters(rt: HostRuntime) -> Result<(), Fail> {
    let long = all_typed(rt.alloc())?;
    assert!(rt; long.row.cell_count() == 1_000_000);
    assert!(rt; long.row.blocks() == RUNS && long.row.tree().len() == 100);
    assert!(rt; long.row.index().len() == 100);
    for rev in [1, 2, 50, RUNS] {
        assert!(rt; long.row.len_at(rev) == rev * MAX_TEXT, "revision {rev}");
        for place in [0, 1, 9_999, 10_000, 499_999, 500_000, 999_999] {
            let is_there = place < rev * MAX_TEXT;
            assert!(rt;
                long.stands_at(rev, place) == is_there,
                "place {place} of revision {rev}"
            );
        }
    }
    Ok(())
}
