//! When and in which visit the operations of a pad were made here.
ghost use Rattle.std.specs.Prelude.{◌≡◌, ◌-◌, ◌≤◌, List, length, max, slice_get, option_and_then, None, OnOk};
ghost use Rattle.std.specs.List.{last_or};
ghost use Rattle.pad_model.specs.declared.op.Op.{Op};
ghost use Rattle.op_log.specs.Made.{last_visit, more, nothing_made};
ghost use Rattle.op_log.specs.Makers.{made_in};
ghost use Rattle.op_log.specs.Times.{IsRising, last_time};

use crate::maker_list::{MakerList, Tally};
use crate::time_list::TimeList;
use std::alloc::{AllocError, Global};
use std::marker::Model;

/// The time of each operation of a pad and the visit in which it was made.
#[derive(Drop)]
pub struct MadeList {
    times: TimeList,
    makers: MakerList,
}

impl Model for MadeList {
    ghost use Rattle.op_log.specs.Made.{Makings};

    ghost Value = { Makings };

    ghost use Rattle.op_log.specs.Made.{makings_shown, IsMadeList};

    ghost view = { makings_shown };

    ghost invariant = { IsMadeList };
}

impl MadeList {
    /// No operations yet. It takes no memory.
    pub fn new(alloc: Global) -> MadeList
        ensures { result.made ≡ nothing_made }
    {
        MadeList {
            times: TimeList::new(alloc),
            makers: MakerList::new(alloc),
        }
    }

    /// The number of operations.
    pub fn len(&self) -> u64
        ensures len { result ≡ length self.now.made.times }
        ensures rising { IsRising self.now.made.times }
        ensures paired { length self.now.made.visits ≡ length self.now.made.times }
    {
        self.times.len()
    }

    /// The time of the last operation, or 0.
    pub fn last(&self) -> u64
        ensures { result ≡ last_time self.now.made.times }
    {
        self.times.last()
    }

    /// The visit in which the last operation was made, or 0.
    pub fn last_visit(&self) -> u64
        ensures { result ≡ last_visit self.now.made }
    {
        self.makers.last()
    }

    /// The times of the operations.
    pub fn times(&self) -> &TimeList
        ensures { result.now.times ≡ self.now.made.times }
    {
        &self.times
    }

    /// Makes room for this many operations in all.
    pub fn reserve(&mut self, count: u64) -> Result<(), AllocError>
        ensures made { self.new.made ≡ self.old.made }
        ensures more { self.old.room ≤ self.new.room }
        ensures ok { OnOk result (count ≤ self.new.room) }
    {
        self.times.reserve(count)?;
        self.makers.reserve(count)
    }

    /// Adds operations that were made in this visit, until there are so many: at this time, or at the last one if that is
    /// later.
    pub fn fill(&mut self, count: u64, now: u64, visit: u64)
        requires { count ≤ self.old.room }
        ensures made { self.new.made ≡ more
            (count - length self.old.made.times)
            (max now (last_time self.old.made.times))
            visit
            self.old.made }
        ensures room { length self.new.made.times ≤ self.new.room }
    {
        self.times.fill(count, now);
        self.makers.fill(count, visit);
    }

    /// Counts the operations that were made in a visit, and finds the last of them. It needs no memory.
    pub fn tally(&self, visit: u64) -> Tally
        ensures made { (log : List Op) → length log ≡ length self.now.made.visits
            → result.made ≡ length (made_in visit log self.now.made.visits) }
        ensures last { (log : List Op) → length log ≡ length self.now.made.visits
            → option_and_then (slice_get log) result.last ≡ last_or None (made_in visit log self.now.made.visits) }
    {
        self.makers.tally(visit)
    }
}
