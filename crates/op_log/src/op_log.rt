//! The log of a pad: its operations as bytes, with what finds them.
ghost use Rattle.std.specs.Prelude.{◌≡◌, ℕ, ◌+◌, ◌-◌, ◌≤◌, [], ◌∷◌, ◌++◌, length, take, drop, count_by, nat_le, ◌&&◌, option_map, Some, None, slice_get, IfOk, IfErr, OnOk, ◌<◌, vec_len, if◌then◌else◌};
ghost use Rattle.std.specs.Vec.{vec_capacity};
ghost use Rattle.pad_model.specs.declared.op.Op.{Op};
ghost use Rattle.std.specs.List.{filter, position};
ghost use Rattle.pad_model.specs.OldWire.{op_in_v1};
ghost use Rattle.pad_model.specs.declared.refusal.Refusal.{Refusal};
ghost use Rattle.op_log.specs.Found.{IsNextMissing};
ghost use Rattle.op_log.specs.Log.{entries, count_of, has_name, is_missing, is_note, is_unsayable, missing};
ghost use Rattle.op_log.specs.Index.{first_place, is_missing_in};

use crate::index::{count_between, earlier, enter, marks_of, reserve_marks, track_of};
use crate::op_store::OpStore;
use crate::track::{Mark, Track, next_above, place_of};
use pad_model::{Items, Op, OpName, Refusal, Seen, op_in_v1};
use std::alloc::Global;
use std::marker::Model;

/// The operations of a pad, in the order in which they were delivered. They are kept as bytes, and handed out as copies.
#[derive(Drop)]
pub struct OpLog {
    operations: OpStore,
    tracks: Vec<Track>,
    // Empty: the memory of the first mark of a new origin.
    fresh: Vec<Mark>,
    // The places of the operations that comment or resolve.
    notes: Vec<u64>,
    // The places of those that the first version of the wire cannot say.
    unsayable: Vec<u64>,
    // True if the operation that is ready fits all of these.
    has_room: bool,
}

/// An operation that was found, and the place after it.
#[derive(Debug, PartialEq, Drop)]
pub struct FoundOp {
    pub op: Op,
    pub behind: u64,
}

impl Model for OpLog {
    ghost use Rattle.op_log.specs.Log.{Log};

    ghost Value = { Log };

    ghost use Rattle.op_log.specs.Inside.{shown, IsSound};

    ghost view = { shown };

    ghost invariant = { IsSound };
}

impl OpLog {
    /// A log of no operations. It takes no memory yet.
    pub fn new(alloc: Global) -> OpLog
        ensures { result ≡ record { operations = []; ready = None } }
    {
        OpLog {
            operations: OpStore::new(alloc),
            tracks: Vec::new(alloc),
            fresh: Vec::new(alloc),
            notes: Vec::new(alloc),
            unsayable: Vec::new(alloc),
            has_room: false,
        }
    }

    /// Takes the memory that the next operation needs, and writes it after the others. It may be prepared again, or
    /// another in its place.
    pub fn prepare(&mut self, op: &Op) -> Result<(), Refusal>
        ensures operations { self.new.operations ≡ self.old.operations }
        ensures ok { OnOk result (self.new.ready ≡ Some op.now) }
        ensures memory { IfErr result (λ e. (e ≡ Refusal.Memory) × (self.new.ready ≡ None)) }
    {
        self.has_room = false;
        self.tracks.reserve(1)?;
        reserve_marks(&mut self.tracks)?;
        self.fresh.reserve(1)?;
        self.notes.reserve(1)?;
        self.unsayable.reserve(1)?;
        let alloc = *self.fresh.allocator();
        self.operations.prepare(alloc, op)?;
        self.has_room = true;
        Ok(())
    }

    /// Adds the operation that is ready at the end.
    pub fn commit(&mut self, op: &Op)
        requires { self.old.ready ≡ Some op.now }
        ensures operations { self.new.operations ≡ self.old.operations ++ op.now ∷ [] }
        ensures ready { self.new.ready ≡ None }
    {
        let place = self.operations.len();
        enter(&mut self.tracks, &mut self.fresh, place, op.name);
        enter_place(&mut self.notes, !op.is_edit(), place);
        enter_place(&mut self.unsayable, !op_in_v1(op), place);
        self.operations.commit();
        self.has_room = false;
    }

    /// The number of operations, which is the number of the last revision.
    pub fn len(&self) -> u64
        ensures { result ≡ length self.now.operations }
    {
        self.operations.len()
    }

    /// The operation at a place, from 0: the one that makes revision `place + 1`.
    pub fn get(&self, alloc: Global, place: u64) -> Result<Option<Op>, Refusal>
        ensures ok { IfOk result (λ op. op ≡ slice_get self.now.operations place) }
        ensures memory { IfErr result (λ e. e ≡ Refusal.Memory) }
    {
        self.operations.get(alloc, place)
    }

    /// The name of the operation at a place. It needs no memory.
    pub fn name_at(&self, place: u64) -> Option<OpName>
        ensures { result ≡ option_map (λ op. op.name) (slice_get self.now.operations place) }
    {
        self.operations.name_at(place)
    }

    /// The operations that make the revisions `from` to `from + count - 1`, as far as the log goes.
    pub fn entries(&self, alloc: Global, from: u64, count: u64) -> Result<Items<Op>, Refusal>
        requires { 1 ≤ from }
        ensures ok { IfOk result (λ row. row ≡ entries self.now.operations from count) }
        ensures memory { IfErr result (λ e. e ≡ Refusal.Memory) }
    {
        let start = from - 1;
        let end = self.len().min(start.saturating_add(count));
        self.range(alloc, start, end)
    }

    /// The operations that make the revisions after this one.
    pub fn since(&self, alloc: Global, revision: u64) -> Result<Items<Op>, Refusal>
        ensures ok { IfOk result (λ row. row ≡ drop revision self.now.operations) }
        ensures memory { IfErr result (λ e. e ≡ Refusal.Memory) }
    {
        self.range(alloc, revision, self.len())
    }

    fn range(&self, alloc: Global, start: u64, end: u64) -> Result<Items<Op>, Refusal>
        ensures ok { IfOk result (λ row. row
            ≡ take (end - start) (drop start self.now.operations)) }
        ensures memory { IfErr result (λ e. e ≡ Refusal.Memory) }
    {
        let mut answer = Items::new(alloc);
        for place in start..end {
            let Some(op) = self.get(alloc, place)? else {
                return Ok(answer);
            };
            answer.push(op)?;
        }
        Ok(answer)
    }

    /// The number of comments and resolutions among the operations that make the revisions `from` to `from + count - 1`. It
    /// needs no memory.
    pub fn count_notes(&self, from: u64, count: u64) -> u64
        requires { 1 ≤ from }
        ensures { result ≡ count_by is_note (entries self.now.operations from count) }
    {
        let start = from - 1;
        let end = self.len().min(start.saturating_add(count));
        count_between(&self.notes, start, end)
    }

    /// The first `max` operations that `seen` does not cover, in the order of the log. For each of them it looks at
    /// the operation that follows, and else once at every origin, and at no other operation as long as the numbers of
    /// an origin rise.
    pub fn missing(&self, alloc: Global, seen: &Seen, max: u64) -> Result<Items<Op>, Refusal>
        ensures ok { IfOk result (λ row. row ≡ missing self.now.operations seen.now max) }
        ensures memory { IfErr result (λ e. e ≡ Refusal.Memory) }
    {
        let mut answer = Items::new(alloc);
        let mut from = 0;
        for _n in 0..max {
            let Some(found) = self.next_missing(alloc, seen, from)? else {
                return Ok(answer);
            };
            answer.push(found.op)?;
            from = found.behind;
        }
        Ok(answer)
    }

    /// Returns true if the first version of the wire can express the first operation that `seen` does not cover, if there is
    /// one. It needs no memory.
    pub fn first_missing_in_v1(&self, seen: &Seen) -> Option<bool>
        ensures { result ≡ option_map op_in_v1
            (slice_get (filter (is_missing seen.now) self.now.operations) 0) }
    {
        let place = self.next_place(seen, 0)?;
        Some(self.is_in_v1(place))
    }

    fn is_in_v1(&self, place: u64) -> bool
        ensures { (op : Op) → slice_get self.now.operations place ≡ Some op → result ≡ op_in_v1 op }
    {
        let end = self.len().min(place.saturating_add(1));
        count_between(&self.unsayable, place, end) == 0
    }

    /// The first operation from a place on that `seen` does not cover.
    pub fn next_missing(
        &self,
        alloc: Global,
        seen: &Seen,
        from: u64,
    ) -> Result<Option<FoundOp>, Refusal>
        ensures ok { IfOk result (IsNextMissing seen.now self.now.operations from) }
        ensures memory { IfErr result (λ e. e ≡ Refusal.Memory) }
    {
        let len = self.len();
        if len <= from {
            return Ok(None);
        }
        let Some(place) = self.next_place(seen, from) else {
            return Ok(None);
        };
        let Some(op) = self.get(alloc, place)? else {
            return Ok(None);
        };
        let behind = place + 1;
        Ok(Some(FoundOp { op, behind }))
    }

    /// The place of the first operation from a place on that `seen` does not cover.
    fn next_place(&self, seen: &Seen, from: u64) -> Option<u64>
        ensures { result ≡ first_place (λ place op. nat_le from place && is_missing seen.now op) 0
            self.now.operations }
    {
        // A peer mostly lacks what follows on what it lacks.
        if self.is_missing_at(seen, from) {
            return Some(from);
        }
        self.search_missing(seen, from)
    }

    /// Returns true if there is an operation at a place and `seen` does not cover it.
    fn is_missing_at(&self, seen: &Seen, place: u64) -> bool
        ensures { result ≡ is_missing_in seen.now (slice_get self.now.operations place) }
    {
        match self.name_at(place) {
            Some(name) => seen.count(name.origin) < name.number,
            None => false,
        }
    }

    /// The same, by a look at each origin.
    fn search_missing(&self, seen: &Seen, from: u64) -> Option<u64>
        ensures { result ≡ first_place (λ place op. nat_le from place && is_missing seen.now op) 0
            self.now.operations }
    {
        let mut next = None;
        for track in &self.tracks {
            let place = next_above(track, from, seen.count(track.origin));
            next = earlier(next, place);
        }
        next
    }

    /// The number of operations of an origin.
    pub fn count(&self, origin: u16) -> u64
        ensures { result ≡ count_of self.now.operations origin }
    {
        marks_of(&self.tracks, origin).len() as u64
    }

    /// The place of the first operation with a name, from 0.
    pub fn find(&self, name: OpName) -> Option<u64>
        ensures { result ≡ position (has_name name) self.now.operations }
    {
        match track_of(&self.tracks, name.origin) {
            Some(at) => place_of(&self.tracks[at], name.number),
            None => None,
        }
    }
}

/// Adds a place to those of the operations that pass a test, where this one does.
fn enter_place(places: &mut Vec<u64>, passes: bool, place: u64)
    requires { vec_len places.old < vec_capacity places.old }
    ensures { places.new.items ≡ (if passes then places.old.items ++ place ∷ []
        else places.old.items) }
{
    if passes {
        places.push_reserved(place);
    }
}
