//! Operations that are kept as bytes.
ghost use Rattle.std.specs.Prelude.{◌≡◌, ◌⊎◌, ℕ, ◌<◌, ◌≤◌, ◌++◌, [], ◌∷◌, List, length, None, Some, IsSome, IfOk, IfErr, OnOk, slice_get, slice_index_or, option_map, bytes_eq};
ghost use Rattle.std.specs.List.{IsDistinct, position};
ghost use Rattle.pad_model.specs.declared.op.Op.{Op};
ghost use Rattle.pad_model.specs.declared.refusal.Refusal.{Refusal};

use crate::read::{read_name, unpack};
use crate::shelf::Shelf;
use crate::write::pack;
use pad_model::{Name, Op, OpName, Refusal};
use std::alloc::{AllocError, Global};
use std::marker::Model;

/// Operations in the order in which they came, as bytes. The names of their authors are kept once.
#[derive(Drop)]
pub struct OpStore {
    shelf: Shelf,
    authors: Vec<Name>,
}

impl Model for OpStore {
    ghost use Rattle.op_log.specs.Kept.{Kept};

    ghost Value = { Kept };

    ghost use Rattle.op_log.specs.Store.{store_shown, IsStore};

    ghost view = { store_shown };

    ghost invariant = { IsStore };
}

impl OpStore {
    /// No operations yet. It takes no memory.
    pub fn new(alloc: Global) -> OpStore
        ensures { result ≡ record { operations = []; ready = None } }
    {
        OpStore {
            shelf: Shelf::new(alloc),
            authors: Vec::new(alloc),
        }
    }

    pub fn len(&self) -> u64
        ensures { result ≡ length self.now.operations }
    {
        self.shelf.len()
    }

    /// Writes an operation after the others; `commit` then counts it. Another one that was prepared is dropped.
    pub fn prepare(&mut self, alloc: Global, op: &Op) -> Result<(), AllocError>
        ensures operations { self.new.operations ≡ self.old.operations }
        ensures ok { OnOk result (self.new.ready ≡ Some op.now) }
    {
        let author = place_of(&mut self.authors, &op.author)?;
        let packed = pack(alloc, author, op)?;
        self.shelf.prepare(&packed)
    }

    /// Counts the operation that was written.
    pub fn commit(&mut self)
        requires { IsSome self.old.ready }
        ensures operations { (op : Op) → self.old.ready ≡ Some op
            → self.new.operations ≡ self.old.operations ++ op ∷ [] }
        ensures ready { self.new.ready ≡ None }
    {
        self.shelf.commit();
    }

    /// The operation at a place, from 0.
    pub fn get(&self, alloc: Global, place: u64) -> Result<Option<Op>, Refusal>
        ensures ok { IfOk result (λ op. op ≡ slice_get self.now.operations place) }
        ensures memory { IfErr result (λ e. e ≡ Refusal.Memory) }
    {
        match self.shelf.get(place) {
            Some(bytes) => Ok(Some(unpack(alloc, &self.authors, bytes)?)),
            None => Ok(None),
        }
    }

    /// The name of the operation at a place. It needs no memory.
    pub fn name_at(&self, place: u64) -> Option<OpName>
        ensures { result ≡ option_map (λ op. op.name) (slice_get self.now.operations place) }
    {
        match self.shelf.get(place) {
            Some(bytes) => Some(read_name(bytes)),
            None => None,
        }
    }
}

/// The place of a name in the table, if it is there.
fn find_name(authors: &[Name], name: &Name) -> Option<usize>
    ensures { result ≡ position (λ author. bytes_eq author name.now) authors.now }
{
    authors.iter().position(|author| author == name)
}

/// The place of a name in the table, into which it is put if it is not there.
fn place_of(authors: &mut Vec<Name>, name: &Name) -> Result<u64, AllocError>
    ensures place { IfOk result (λ place. (place < length authors.new.items)
        × (slice_index_or authors.new.items place [] ≡ name.now)) }
    ensures others { (place : ℕ) → place < length authors.old.items
        → slice_index_or authors.new.items place [] ≡ slice_index_or authors.old.items place [] }
    ensures len { length authors.old.items ≤ length authors.new.items }
    ensures more { (authors.new.items ≡ authors.old.items)
        ⊎ (authors.new.items ≡ authors.old.items ++ name.now ∷ []) }
    ensures once { IsDistinct bytes_eq authors.old.items → IsDistinct bytes_eq authors.new.items }
{
    if let Some(place) = find_name(authors, name) {
        return Ok(place as u64);
    }
    let place = authors.len() as u64;
    authors.push(name.clone()?)?;
    Ok(place)
}
