//! A hundred thousand seeded operations on an index and on a plain list of blocks, which give the same results.
ghost use Rattle.std.specs.Prelude.{◌+◌, ◌<◌, ◌≤◌, IfSome, vec_len};
ghost use Rattle.pad_model.specs.declared.limits.TheConstants.{MAX_COUNTER};

use crate::index::counts::lie_within;
use dice::Dice;
use ident_index::{BlockEntry, IdentIndex, Place};
use pad_model::{Refusal, Stamp};
use std::alloc::{AllocError, Global};
use std::process::Abort;
use std::test::Fail;

// Returns one of the fifteen hundred stamps that the run uses.
fn any_stamp(dice: &mut Dice) -> Result<Stamp, Refusal> {
    Stamp::new(1 + dice.roll(500), 1 + dice.roll(3) as u16)
}

#[derive(Clone, Copy, Debug)]
struct KnownBlock {
    first: Stamp,
    entry: BlockEntry,
}

impl KnownBlock {
    fn offset_of(&self, stamp: Stamp) -> Option<u64> {
        let offset = stamp.counter().checked_sub(self.first.counter())?;
        if stamp.replica() == self.first.replica() && offset < self.entry.len {
            Some(offset)
        } else {
            None
        }
    }

    fn place_of(&self, stamp: Stamp) -> Option<Place> {
        Some(Place {
            first: self.first,
            offset: self.offset_of(stamp)?,
            label: self.entry.label,
        })
    }

    fn overlaps(&self, other: &KnownBlock) -> bool {
        self.offset_of(other.first).is_some() || other.offset_of(self.first).is_some()
    }
}

// Adds a block if the index holds none of its stamps, and returns whether it did.
fn add_if_new(index: &mut IdentIndex, first: Stamp, entry: BlockEntry) -> Result<bool, AllocError>
    requires sized { 1 ≤ entry.len }
    requires limit { first.counter + entry.len ≤ MAX_COUNTER + 1 }
{
    for offset in 0..entry.len {
        if index.locate(first.plus(offset)).is_some() {
            return Ok(false);
        }
    }
    index.add(first, entry.len, entry.label)?;
    Ok(true)
}

// An index, and the list of blocks that it should have. Each method but `same` returns whether it found what it looked
// for.
#[derive(Drop)]
struct Both {
    index: IdentIndex,
    list: Vec<KnownBlock>,
}

impl Both {
    fn at(&self, first: Stamp) -> Option<usize>
        ensures { IfSome result (λ at. at < vec_len self.now.list) }
    {
        self.list.iter().position(|block| block.first == first)
    }

    fn add(&mut self, rt: &impl Abort, block: KnownBlock) -> Result<bool, Fail> {
        let KnownBlock { first, entry } = block;
        assert!(rt; 1 <= entry.len && entry.len <= 8 && first.counter() <= 500);
        let is_new = add_if_new(&mut self.index, first, entry)?;
        let want = !self.list.iter().any(|other| other.overlaps(&block));
        assert!(rt;
            is_new == want,
            "add {block:?}: wanted {want}, came {is_new}"
        );
        if is_new {
            self.list.push(block)?;
        }
        Ok(is_new)
    }

    fn locate(&self, rt: &impl Abort, stamp: Stamp) -> bool {
        let want = self.list.iter().find_map(|block| block.place_of(stamp));
        let came = self.index.locate(stamp);
        assert!(rt;
            came == want,
            "locate {stamp:?}: wanted {want:?}, came {came:?}"
        );
        want.is_some()
    }

    fn get(&self, rt: &impl Abort, first: Stamp) -> bool {
        let block = self.list.iter().find(|block| block.first == first);
        let want = block.map(|block| block.entry);
        let came = self.index.get(first);
        assert!(rt;
            came == want,
            "get {first:?}: wanted {want:?}, came {came:?}"
        );
        want.is_some()
    }

    fn cut(
        &mut self,
        rt: &impl Abort,
        first: Stamp,
        offset: u64,
        label: u64,
    ) -> Result<bool, Fail> {
        let Some(at) = self.at(first) else {
            return Ok(false);
        };
        let whole = self.list[at].entry;
        if offset == 0 || whole.len <= offset {
            return Ok(false);
        }
        match self.index.get(first) {
            Some(entry) if 0 < offset && offset < entry.len => self
                .index
                .cut(first, offset, label)?,
            came => panic!(rt; "cut {first:?} at {offset}: wanted {whole:?}, came {came:?}"),
        }
        self.list[at].entry.len = offset;
        self.list.push(KnownBlock {
            first: Stamp::new(first.counter().wrapping_add(offset), first.replica())?,
            entry: BlockEntry {
                len: whole.len - offset,
                label,
            },
        })?;
        Ok(true)
    }

    fn relabel(&mut self, rt: &impl Abort, first: Stamp, label: u64) -> bool {
        let Some(at) = self.at(first) else {
            return false;
        };
        self.list[at].entry.label = label;
        assert!(rt;
            self.index.get(first).is_some(),
            "relabel {first:?}: came no block"
        );
        self.index.relabel(first, label);
        true
    }

    fn remove(&mut self, rt: &impl Abort, first: Stamp) -> bool {
        let at = self.at(first);
        let want = at.is_some();
        let came = self.index.remove(first);
        assert!(rt;
            came == want,
            "remove {first:?}: wanted {want}, came {came}"
        );
        if let Some(at) = at {
            self.list.swap_remove(at);
        }
        at.is_some()
    }

    fn len(&self, rt: &impl Abort) -> bool {
        let (came, want) = (self.index.len(), self.list.len());
        assert!(rt; came == want, "len: wanted {want}, came {came}");
        want > 0
    }

    // Asserts that all stamps have the same places in both.
    fn same(&self, rt: &impl Abort) -> Result<(), Fail> {
        for counter in 1..510 {
            for replica in 1..5 {
                self.locate(rt, Stamp::new(counter, replica)?);
            }
        }
        Ok(())
    }

    // Makes an operation of a kind from 0 to 9, half of the time on an existing block.
    fn step(&mut self, rt: &impl Abort, dice: &mut Dice, kind: u64) -> Result<bool, Fail> {
        let stamp = any_stamp(dice)?;
        let label = dice.roll(1_000_000);
        let len = 1 + dice.roll(8);
        let known = dice.roll(2 * self.list.len() as u64 + 1) as usize;
        let first = self.list.get(known).map_or(stamp, |block| block.first);
        match kind {
            0 => Ok(self.get(rt, first)),
            1 => self.cut(rt, first, len, label),
            2 => Ok(self.relabel(rt, first, label)),
            3 => Ok(self.remove(rt, first)),
            4 => Ok(self.len(rt)),
            5 | 6 => Ok(self.locate(rt, stamp)),
            _ => {
                let entry = BlockEntry { len, label };
                self.add(
                    rt,
                    KnownBlock {
                        first: stamp,
                        entry,
                    },
                )
            }
        }
    }
}

#[test]
fn a_hundred_thousand_operations_as_on_a_list(rt: HostRuntime) -> Result<(), Fail> {
    let mut dice = Dice::new(2026);
    let mut both = Both {
        index: IdentIndex::new(rt.alloc()),
        list: Vec::new(rt.alloc()),
    };
    let mut kinds = [0u64; 10];
    let mut hits = [0u64; 10];
    for round in 0..100_000u64 {
        let kind = dice.roll(10) as usize;
        let hit = both.step(&rt, &mut dice, kind as u64)?;
        kinds[kind] = kinds[kind].wrapping_add(1);
        hits[kind] = hits[kind].wrapping_add(u64::from(hit));
        if round % 25_000 == 0 {
            both.same(&rt)?;
        }
    }
    both.same(&rt)?;
    lie_within(&rt, "operations of each kind", &kinds, 9_500, 10_500);
    // Each kind both finds and misses, except `len`, which looks for nothing.
    hits[4] = 5_000;
    lie_within(&rt, "hits of each kind", &hits, 1_000, 9_000);
    Ok(())
}
