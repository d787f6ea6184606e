ghost use Rattle.std.specs.Prelude.{◌≡◌, ◌+◌, ◌<◌, ◌≤◌, OnOk, OnErr, IsSome, MatchOption};
ghost use Rattle.std.specs.Option.{IsSomeAnd};
ghost use Rattle.std.specs.FinMap as map;
ghost use Rattle.pad_model.specs.Stamp.{IsInLimits};
ghost use Rattle.pad_model.specs.Stamp as stamp_spec;
ghost use Rattle.pad_model.specs.declared.limits.TheConstants.{MAX_COUNTER};
ghost use Rattle.ident_index.specs.Index.{IsNew, IsCut, IsRelabelled, IsPlace, Holds, HoldsNone, IsSound};

use crate::place::{BlockEntry, Place};
use pad_model::{MAX_COUNTER, Stamp};
use std::alloc::{AllocError, Global};
use std::collections::BTreeMap;
use std::marker::Model;

// A first stamp. In this order the blocks of one replica are adjacent.
#[derive(Clone, Copy, PartialEq, Eq, PartialOrd, Ord)]
struct Key {
    replica: u16,
    counter: u64,
}

impl Key {
    fn new(first: Stamp) -> Key
        ensures value { result ≡ record { replica = first.replica; counter = first.counter } }
        ensures limits { IsInLimits first.counter first.replica }
    {
        Key {
            replica: first.replica(),
            counter: first.counter(),
        }
    }
}

/// The blocks of a text, by their first stamps: the length and the label of each.
///
/// Only `add` and `cut` allocate memory; no other call can fail.
#[derive(Drop)]
pub struct IdentIndex {
    entries: BTreeMap<Key, BlockEntry>,
}

impl Model for IdentIndex {
    ghost use Rattle.ident_index.specs.Index.{Index, index_code, IsSound};

    ghost Value = { Index };

    ghost coded = { index_code };

    ghost use Rattle.ident_index.specs.View.{index_of};

    ghost view = { λ a. index_of a.entries.entries };

    ghost invariant = { λ a. IsSound (index_of a.entries.entries) };
}

impl IdentIndex {
    /// An index without blocks. It allocates no memory.
    pub fn new(alloc: Global) -> IdentIndex
        ensures { result ≡ map.empty }
    {
        IdentIndex {
            entries: BTreeMap::new(alloc),
        }
    }

    /// The number of blocks.
    pub fn len(&self) -> usize
        ensures { result ≡ map.len self.now }
    {
        self.entries.len()
    }

    /// Does nothing at run time. Its contract gives a caller's proof that the index is sound.
    pub fn note_sound(&self)
        ensures { IsSound self.now }
    {
        let _ = &self.entries;
    }

    /// The block that begins with this stamp.
    pub fn get(&self, first: Stamp) -> Option<BlockEntry>
        ensures value { result ≡ map.get self.now first }
        ensures sound { IsSound self.now }
    {
        self.entries.get(&Key::new(first)).copied()
    }

    /// Adds a block of `len` characters with consecutive stamps, from `first` on.
    pub fn add(&mut self, first: Stamp, len: u64, label: u64) -> Result<(), AllocError>
        requires sized { 1 ≤ len }
        requires limit { first.counter + len ≤ MAX_COUNTER + 1 }
        requires fresh { IsNew self.old first len }
        ensures ok { OnOk result
            (self.new ≡ map.insert self.old first (record { len = len; label = label })) }
        ensures err { OnErr result (self.new ≡ self.old) }
    {
        self.entries
            .insert(Key::new(first), BlockEntry { len, label })?;
        Ok(())
    }

    /// Finds the block that holds a character. One look-up finds the last block of its replica that begins at or before
    /// it.
    pub fn locate(&self, stamp: Stamp) -> Option<Place>
        ensures place { MatchOption result (HoldsNone self.now stamp) (IsPlace self.now stamp) }
        ensures sound { IsSound self.now }
    {
        let (key, entry) = self.entries.range(..=Key::new(stamp)).next_back()?;
        if key.replica != stamp.replica() {
            return None;
        }
        let offset = stamp.counter() - key.counter;
        if offset >= entry.len {
            return None;
        }
        let Ok(first) = Stamp::new(key.counter, key.replica) else {
            return None;
        };
        Some(Place {
            first,
            offset,
            label: entry.label,
        })
    }

    /// The greatest counter of a replica's characters, or 0.
    pub fn last_of(&self, replica: u16) -> u64
        ensures bound { (first s : stamp_spec.Stamp) → s.replica ≡ replica → Holds self.now first s
            → s.counter ≤ result }
        ensures there { (1 ≤ result → (first : stamp_spec.Stamp)
            × Holds self.now first (record { counter = result; replica = replica })) }
        ensures sound { IsSound self.now }
    {
        let last = Key {
            replica,
            counter: MAX_COUNTER,
        };
        let Some((key, entry)) = self.entries.range(..=last).next_back() else {
            return 0;
        };
        if key.replica != replica {
            return 0;
        }
        key.counter + (entry.len - 1)
    }

    /// Cuts a block in two: the left part keeps its label, and the right part gets `label`.
    pub fn cut(&mut self, first: Stamp, offset: u64, label: u64) -> Result<(), AllocError>
        requires { IsSomeAnd (map.get self.old first) (λ e. (0 < offset) × (offset < e.len)) }
        ensures ok { OnOk result (IsCut self.old self.new first offset label) }
        ensures err { OnErr result (self.new ≡ self.old) }
    {
        let key = Key::new(first);
        let whole = self.entries[&key];
        let right = BlockEntry {
            len: whole.len - offset,
            label,
        };
        self.entries.insert(Key::new(first.plus(offset)), right)?;
        if let Some(left) = self.entries.get_mut(&key) {
            left.len = offset;
        }
        Ok(())
    }

    /// Changes the label of a block.
    pub fn relabel(&mut self, first: Stamp, label: u64)
        requires { IsSome (map.get self.old first) }
        ensures { IsRelabelled self.old self.new first label }
    {
        if let Some(entry) = self.entries.get_mut(&Key::new(first)) {
            entry.label = label;
        }
    }

    /// Removes a block, and returns whether it was there.
    pub fn remove(&mut self, first: Stamp) -> bool
        ensures was_there { result ≡ map.contains_key self.old first }
        ensures rest { self.new ≡ map.remove self.old first }
    {
        self.entries.remove(&Key::new(first)).is_some()
    }
}
