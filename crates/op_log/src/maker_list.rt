//! In which visit of a pad its operations were made, in four bytes each.
ghost use Rattle.std.specs.Prelude.{◌≡◌, ◌-◌, ◌≤◌, ◌++◌, List, [], length, replicate, slice_get, option_and_then, None, OnOk};
ghost use Rattle.std.specs.List.{last_or};
ghost use Rattle.pad_model.specs.declared.op.Op.{Op};
ghost use Rattle.op_log.specs.Makers.{last_maker, made_in, noted};

use std::alloc::{AllocError, Global};
use std::marker::Model;

/// For each operation of a pad the visit in which it was made, or 0 if it was not made in a visit here: it came from
/// another server, or from a file that does not say.
#[derive(Drop)]
pub struct MakerList {
    visits: Vec<u32>,
}

/// How many operations were made in a visit, and the place of the last of them, from 0.
#[derive(Clone, Copy, Debug, PartialEq)]
pub struct Tally {
    pub made: u64,
    pub last: Option<u64>,
}

impl Model for MakerList {
    ghost use Rattle.op_log.specs.Makers.{Makers};

    ghost Value = { Makers };

    ghost use Rattle.op_log.specs.Makers.{makers_shown, IsMakerList};

    ghost view = { makers_shown };

    ghost invariant = { IsMakerList };
}

impl MakerList {
    /// No operations yet. It takes no memory.
    pub fn new(alloc: Global) -> MakerList
        ensures { result.makers ≡ [] }
    {
        MakerList {
            visits: Vec::new(alloc),
        }
    }

    /// The number of operations.
    pub fn len(&self) -> u64
        ensures { result ≡ length self.now.makers }
    {
        self.visits.len() as u64
    }

    /// Makes room for this many operations in all.
    pub fn reserve(&mut self, count: u64) -> Result<(), AllocError>
        ensures makers { self.new.makers ≡ self.old.makers }
        ensures more { self.old.room ≤ self.new.room }
        ensures ok { OnOk result (count ≤ self.new.room) }
    {
        if count <= self.visits.capacity() as u64 {
            return Ok(());
        }
        let len = self.visits.len() as u64;
        // A sixteenth more, so that it is not moved for each operation.
        let more = (count - len).saturating_add(len / 16);
        self.visits.reserve_exact(more as usize)
    }

    /// Adds operations that were made in this visit, until there are so many.
    pub fn fill(&mut self, count: u64, visit: u64)
        requires { count ≤ self.old.room }
        ensures makers { self.new.makers ≡ self.old.makers
            ++ replicate (count - length self.old.makers) (noted visit) }
        ensures room { length self.new.makers ≤ self.new.room }
    {
        if count <= self.visits.len() as u64 {
            return;
        }
        let _filled = self.visits.resize(count as usize, noted(visit));
    }

    /// The visit in which the last operation was made, or 0.
    pub fn last(&self) -> u64
        ensures { result ≡ last_maker self.now.makers }
    {
        match self.visits.last() {
            Some(visit) => *visit as u64,
            None => 0,
        }
    }

    /// Counts the operations that were made in a visit, and finds the last of them. It needs no memory.
    pub fn tally(&self, visit: u64) -> Tally
        ensures made { (log : List Op) → length log ≡ length self.now.makers
            → result.made ≡ length (made_in visit log self.now.makers) }
        ensures last { (log : List Op) → length log ≡ length self.now.makers
            → option_and_then (slice_get log) result.last ≡ last_or None (made_in visit log self.now.makers) }
    {
        let mut tally = Tally {
            made: 0,
            last: None,
        };
        for (place, maker) in self.visits.iter().enumerate() {
            if *maker as u64 == visit {
                tally.made += 1;
                tally.last = Some(place as u64);
            }
        }
        tally
    }
}

/// The visit as it is noted: 0 if it needs more than four bytes.
fn noted(visit: u64) -> u32
    ensures { result ≡ noted visit }
{
    u32::try_from(visit).unwrap_or(0)
}
