//! Three hundred seeded changes, after each of which the runs are compared with a plain list of authors.
use crate::author_runs::{author_at, is_author, is_by, put, take};
use authorship::RunList;
use dice::Dice;
use pad_model::{AuthorRun, Refusal};
use std::alloc::{AllocError, Global};
use std::process::Abort;
use std::test::Fail;

const NAMES: [&str; 3] = ["ann", "bob", "cyd"];

/// For each character, the index of its author among the names.
#[derive(Drop)]
struct Plain {
    places: Vec<usize>,
}

impl Plain {
    fn put(&mut self, pos: usize, place: usize, n: u64) -> Result<(), AllocError> {
        for _ in 0..n {
            if pos <= self.places.len() {
                self.places.insert(pos, place)?;
            }
        }
        Ok(())
    }

    fn take(&mut self, pos: usize, n: u64) {
        for _ in 0..n {
            if pos < self.places.len() {
                self.places.remove(pos);
            }
        }
    }

    /// The name of the author of a character.
    fn name_at(&self, pos: usize) -> Option<&'static str> {
        let place = self.places.get(pos)?;
        NAMES.get(*place).copied()
    }

    /// Returns true if the characters from a place on are the run's.
    fn has_run(&self, pos: usize, run: &AuthorRun) -> bool {
        for ahead in 0..run.len {
            match self.name_at(pos.saturating_add(ahead as usize)) {
                Some(name) if is_author(&run.author, name) => {}
                _ => return false,
            }
        }
        true
    }

    /// The number of places at which another author begins.
    fn count_starts(&self) -> usize {
        let mut starts = 0usize;
        let mut last = None;
        for place in &self.places {
            if last != Some(*place) {
                starts = starts.saturating_add(1);
            }
            last = Some(*place);
        }
        starts
    }

    /// Returns true if a stretch that starts with another author's character has the same author on both sides.
    fn joins(&self, pos: usize, n: usize) -> bool {
        if pos == 0 || n == 0 {
            return false;
        }
        let before = self.places.get(pos - 1);
        before == self.places.get(pos.saturating_add(n)) && before != self.places.get(pos)
    }
}

/// Returns true if the runs have the authors of the plain list, and are as few as possible.
fn are_runs_of(rows: &[AuthorRun], plain: &Plain) -> bool {
    let mut pos = 0usize;
    for row in rows {
        if !plain.has_run(pos, row) {
            return false;
        }
        pos = pos.saturating_add(row.len as usize);
    }
    pos == plain.places.len() && rows.len() == plain.count_starts()
}

/// Returns true if a character has the plain list's author.
fn is_author_of(list: &RunList, plain: &Plain, pos: usize) -> bool {
    match plain.name_at(pos) {
        Some(name) => is_by(list, pos as u64, name),
        None => false,
    }
}

/// Asserts that each character has the plain list's author.
fn are_authors_of(rt: &impl Abort, list: &RunList, plain: &Plain, change: u64) {
    let (came, want) = (list.len(), plain.places.len());
    assert!(rt;
        came == want as u64,
        "change {change}: wanted {want} characters, came {came}"
    );
    for pos in 0..want {
        assert!(rt;
            is_author_of(list, plain, pos),
            "change {change}, character {pos}: wanted {:?}, came {:?}",
            plain.name_at(pos),
            author_at(list, pos as u64)
        );
    }
}

/// The number of changes of each kind.
#[derive(Clone, Copy, Debug)]
struct Cases {
    inserts: u64,
    deletes: u64,
    joins: u64,
}

impl Cases {
    fn are_many(&self) -> bool {
        self.inserts >= 150 && self.deletes >= 90 && self.joins >= 10
    }
}

/// A list of runs, and the plain list beside it.
#[derive(Drop)]
struct RunPair {
    list: RunList,
    plain: Plain,
    cases: Cases,
}

impl RunPair {
    fn new(alloc: Global) -> RunPair {
        RunPair {
            list: RunList::new(alloc),
            plain: Plain {
                places: Vec::new(alloc),
            },
            cases: Cases {
                inserts: 0,
                deletes: 0,
                joins: 0,
            },
        }
    }

    fn put(&mut self, alloc: Global, pos: u64, place: usize, n: u64) -> Result<bool, Refusal> {
        let Some(name) = NAMES.get(place) else {
            return Ok(false);
        };
        let made = put(&mut self.list, alloc, pos, name, n)?;
        self.plain.put(pos as usize, place, n)?;
        self.cases.inserts = self.cases.inserts.saturating_add(1);
        Ok(made)
    }

    fn take(&mut self, pos: u64, n: u64) -> bool {
        let joins = self.plain.joins(pos as usize, n as usize);
        self.cases.joins = self.cases.joins.saturating_add(u64::from(joins));
        self.cases.deletes = self.cases.deletes.saturating_add(1);
        self.plain.take(pos as usize, n);
        take(&mut self.list, pos, n)
    }

    /// Makes one change to both. Two of five are deletions, of an existing stretch.
    fn change(&mut self, alloc: Global, dice: &mut Dice) -> Result<bool, Refusal> {
        let len = self.plain.places.len() as u64;
        let pos = dice.roll(len.saturating_add(1));
        if dice.roll(5) < 2 {
            let n = dice.roll(5).min(len.saturating_sub(pos));
            return Ok(self.take(pos, n));
        }
        let place = dice.roll(3) as usize;
        self.put(alloc, pos, place, dice.roll(5))
    }

    /// Asserts that both have the same authors after a change.
    fn is_same(&self, rt: &impl Abort, alloc: Global, change: u64) -> Result<(), Refusal> {
        let rows = self.list.runs(alloc)?;
        assert!(rt;
            are_runs_of(rows.as_slice(), &self.plain),
            "change {change}: wanted the runs of {:?}, came {rows:?}",
            self.plain.places
        );
        are_authors_of(rt, &self.list, &self.plain, change);
        Ok(())
    }
}

const CHANGES: u64 = 300;

/// Makes all changes, and asserts after each that both are the same.
fn change_all(rt: &impl Abort, alloc: Global, pair: &mut RunPair) -> Result<(), Refusal> {
    let mut dice = Dice::new(27);
    for change in 0..CHANGES {
        let made = pair.change(alloc, &mut dice)?;
        assert!(rt;
            made,
            "change {change}: no such place of {}",
            pair.list.len()
        );
        pair.is_same(rt, alloc, change)?;
    }
    Ok(())
}

#[test]
fn three_authors_write_and_erase(rt: HostRuntime) -> Result<(), Fail> {
    let mut pair = RunPair::new(rt.alloc());
    change_all(&rt, rt.alloc(), &mut pair)?;
    let cases = pair.cases;
    assert!(rt; cases.are_many(), "too few of some kind: {cases:?}");
    assert!(rt; pair.list.len() >= 50, "{} characters", pair.list.len());
    Ok(())
}
