//! The times of operations, in four bytes each.
ghost use Rattle.std.specs.Prelude.{◌≡◌, ◌+◌, ◌-◌, ◌≤◌, ◌<◌, ◌++◌, ◌∷◌, [], length, max, min, replicate, nat_lt, take, drop, slice_get, vec_len, OnOk};
ghost use Rattle.std.specs.Vec.{vec_capacity};
ghost use Rattle.op_log.specs.Times.{IsRising, base_at, base_after, begun, count_until, last_time};

use std::alloc::{AllocError, Global};
use std::marker::Model;

/// From a place on, times are counted from this one.
#[derive(Clone, Copy)]
struct Era {
    from: u64,
    base: u64,
}

/// Times in milliseconds since 1970, none below an earlier one. Each is kept as its difference from the time at which its
/// era began. A new era begins where that difference needs more than 32 bits, so after 49 days.
#[derive(Drop)]
pub struct TimeList {
    eras: Vec<Era>,
    base: u64,
    last: u64,
    past: Vec<u32>,
}

impl Model for TimeList {
    ghost use Rattle.op_log.specs.Times.{Times};

    ghost Value = { Times };

    ghost use Rattle.op_log.specs.Times.{times_shown, IsTimeList};

    ghost view = { times_shown };

    ghost invariant = { IsTimeList };
}

impl TimeList {
    /// No times yet. It takes no memory.
    pub fn new(alloc: Global) -> TimeList
        ensures { result.times ≡ [] }
    {
        TimeList {
            eras: Vec::new(alloc),
            base: 0,
            last: 0,
            past: Vec::new(alloc),
        }
    }

    /// The number of times.
    pub fn len(&self) -> u64
        ensures len { result ≡ length self.now.times }
        ensures rising { IsRising self.now.times }
    {
        self.past.len() as u64
    }

    /// The last time, or 0.
    pub fn last(&self) -> u64
        ensures { result ≡ last_time self.now.times }
    {
        self.last
    }

    /// Makes room for this many times in all.
    pub fn reserve(&mut self, count: u64) -> Result<(), AllocError>
        ensures times { self.new.times ≡ self.old.times }
        ensures more { self.old.room ≤ self.new.room }
        ensures ok { OnOk result (count ≤ self.new.room) }
    {
        self.eras.reserve_exact(1)?;
        if count <= self.past.capacity() as u64 {
            return Ok(());
        }
        let len = self.past.len() as u64;
        // A sixteenth more, so that it is not moved for each time.
        let more = (count - len).saturating_add(len / 16);
        self.past.reserve_exact(more as usize)
    }

    /// Adds this time, or the last one if that is later, until there are so many.
    pub fn fill(&mut self, count: u64, now: u64)
        requires { count ≤ self.old.room }
        ensures times { self.new.times ≡ self.old.times
            ++ replicate (count - length self.old.times) (max now (last_time self.old.times)) }
        ensures room { length self.new.times ≤ self.new.room }
    {
        if count <= self.past.len() as u64 {
            return;
        }
        let now = now.max(self.last);
        let place = self.past.len() as u64;
        let step = step_to(&mut self.eras, &mut self.base, place, now);
        let _filled = self.past.resize(count as usize, step);
        self.last = now;
    }

    /// The time at a place, from 0.
    pub fn get(&self, place: u64) -> Option<u64>
        ensures { result ≡ slice_get self.now.times place }
    {
        let step = self.past.get(place as usize)?;
        Some(era_base(&self.eras, place) + *step as u64)
    }

    /// The number of times before the first one that is later than a moment.
    pub fn count_until(&self, moment: u64) -> u64
        ensures { result ≡ count_until moment self.now.times }
    {
        let mut low = 0;
        let mut high = self.len();
        while low < high {
            let middle = low + (high - low) / 2;
            if self.is_until(middle, moment) {
                low = middle + 1;
            } else {
                high = middle;
            }
        }
        low
    }

    /// Returns true if there is a time at a place, and it comes before the first one that is later than a moment.
    fn is_until(&self, place: u64, moment: u64) -> bool
        requires { IsRising self.now.times }
        ensures { result ≡ nat_lt place (count_until moment self.now.times) }
    {
        match self.get(place) {
            Some(time) => time <= moment,
            None => false,
        }
    }
}

/// The base of the times from a place on: that of the last era that began there or before, or 0.
fn era_base(eras: &[Era], place: u64) -> u64
    ensures { result ≡ base_at eras.now place }
{
    eras.iter().fold(
        0,
        |base, era| if era.from <= place { era.base } else { base },
    )
}

/// The difference of a time that is added at a place, for which an era begins if it needs one.
fn step_to(eras: &mut Vec<Era>, base: &mut u64, place: u64, now: u64) -> u32
    requires low { base.old ≤ now }
    requires room { vec_len eras.old < vec_capacity eras.old }
    ensures eras { eras.new.items ≡ begun place base.old now eras.old.items }
    ensures base { base.new ≡ base_after base.old now }
    ensures step { base.new + result ≡ now }
    ensures len { vec_len eras.old ≤ vec_len eras.new }
{
    if now - *base > u32::MAX as u64 {
        eras.push_reserved(Era {
            from: place,
            base: now,
        });
        *base = now;
    }
    (now - *base) as u32
}
