//! The places of the authors of a text's visible characters, as runs in a balanced tree.
ghost use Rattle.std.specs.Prelude.{◌≡◌, ◌+◌, ◌*◌, ◌≤◌, ◌<◌, ◌++◌, [], Some, length, map, replicate, take, drop, slice_get, IfOk, OnOk};
ghost use Rattle.std.specs.List.{AllByRecursion};
ghost use Rattle.pad_model.specs.Visible as visible;
ghost use Rattle.authorship.specs.StoredRuns.{author_in, author_run, AreEmpty, AreKnown, IsOnce};

use crate::delete::take_out;
use crate::find::place_of;
use crate::insert::put_in;
use crate::stored_run::StoredRun;
use pad_model::{Author, AuthorRun};
use std::alloc::{AllocError, Global};
use std::marker::Model;
use weight_tree::{Node, WeightTree};

/// The place of each character's author in a table, as the fewest runs, and nodes for more runs.
#[derive(Drop)]
pub struct RunTree {
    runs: WeightTree<StoredRun>,
    spare: Vec<Node<StoredRun>>,
}

impl Model for RunTree {
    ghost use Rattle.authorship.specs.StoredRuns.{AuthorPlaces, author_places, IsRunTree};

    ghost Value = { AuthorPlaces };

    ghost view = { λ t. author_places t.runs.items t.spare.items };

    ghost invariant = { λ t. IsRunTree t.runs.items t.spare.items };
}

impl RunTree {
    /// An empty tree. It takes no memory yet.
    pub fn new(alloc: Global) -> RunTree
        ensures { result ≡ record { places = []; room = 0 } }
    {
        RunTree {
            runs: WeightTree::new(),
            spare: Vec::new(alloc),
        }
    }

    /// The number of characters.
    pub fn len(&self) -> u64
        ensures { result ≡ length self.now.places }
    {
        self.runs.weight()
    }

    /// The place of the author of the character at a place, from 0.
    pub fn author_at(&self, pos: u64) -> usize
        requires { pos < length self.now.places }
        ensures { slice_get self.now.places pos ≡ Some result }
    {
        let place = place_of(&self.runs, pos);
        self.runs.get(place.index).author
    }

    /// The fewest runs of one author each, from the table of the authors.
    pub fn author_runs(&self, alloc: Global, table: &[Author]) -> Result<Vec<AuthorRun>, AllocError>
        requires known { AllByRecursion (λ place. place < length table.now) self.now.places }
        requires once { IsOnce table.now }
        ensures { IfOk result (λ rows. rows.items
            ≡ visible.runs (map (author_in table.now) self.now.places)) }
    {
        list_runs(alloc, &self.runs, table)
    }

    /// Makes room for this many insertions. Room that is there already counts.
    pub fn reserve(&mut self, alloc: Global, insertions: u64) -> Result<(), AllocError>
        ensures places { self.new.places ≡ self.old.places }
        ensures ok { OnOk result (2 * insertions ≤ self.new.room) }
        ensures kept { self.old.room ≤ self.new.room }
    {
        fill(
            &mut self.spare,
            alloc,
            insertions.saturating_mul(2) as usize,
        )
    }

    /// Puts `len` characters of an author in, the first of them at a place from 0. It takes no memory.
    pub fn insert(&mut self, pos: u64, author: usize, len: u64)
        requires place { pos ≤ length self.old.places }
        requires fits { length self.old.places + len ≤ u64.MAX }
        requires room { 2 ≤ self.old.room }
        ensures places { self.new.places ≡ take pos self.old.places ++ replicate len author
            ++ drop pos self.old.places }
        ensures room { self.old.room ≤ self.new.room + 2 }
    {
        put_in(&mut self.runs, &mut self.spare, pos, author, len);
    }

    /// Takes `len` characters out, the first of them at a place from 0. It takes no memory.
    pub fn delete(&mut self, pos: u64, len: u64)
        requires { pos + len ≤ length self.old.places }
        ensures places { self.new.places ≡ take pos self.old.places
            ++ drop (pos + len) self.old.places }
        ensures room { self.new.room ≡ self.old.room }
    {
        take_out(&mut self.runs, pos, len);
    }
}

/// Makes nodes until there are this many.
fn fill(spare: &mut Vec<Node<StoredRun>>, alloc: Global, wanted: usize) -> Result<(), AllocError>
    requires { AreEmpty spare.old.items }
    ensures empty { AreEmpty spare.new.items }
    ensures ok { OnOk result (wanted ≤ length spare.new.items) }
    ensures kept { length spare.old.items ≤ length spare.new.items }
{
    let missing = wanted.saturating_sub(spare.len());
    spare.reserve(missing)?;
    while spare.len() < wanted {
        spare.push_reserved(Node::make(alloc, StoredRun { author: 0, len: 0 })?);
    }
    Ok(())
}

/// The author runs that runs represent.
fn list_runs(
    alloc: Global,
    runs: &WeightTree<StoredRun>,
    table: &[Author],
) -> Result<Vec<AuthorRun>, AllocError>
    requires { AreKnown (length table.now) runs.now.items }
    ensures { IfOk result (λ rows. rows.items ≡ map (author_run table.now) runs.now.items) }
{
    let mut rows = Vec::with_capacity(alloc, runs.len())?;
    for run in runs.iter() {
        rows.push(AuthorRun {
            author: table[run.author].clone()?,
            len: run.len,
        })?;
    }
    Ok(rows)
}
