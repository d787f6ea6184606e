//! Items of bytes, in the order in which they came.
ghost use Rattle.std.specs.Prelude.{◌≡◌, ℕ, ◌++◌, [], ◌∷◌, List, length, Some, None, IsSome, OnOk, OnErr, slice_get, option_copied};

use crate::page::{OpPage, PAGE_ITEMS, item_in};
use std::alloc::{AllocError, Global};
use std::marker::Model;
use std::mem;

/// Items of bytes in pages: full ones, whose bytes take no spare room, and a last one that is being filled.
#[derive(Drop)]
pub struct Shelf {
    full: Vec<Vec<u8>>,
    last: OpPage,
    count: u64,
}

impl Model for Shelf {
    ghost use Rattle.op_log.specs.Items.{Items};

    ghost Value = { Items };

    ghost use Rattle.op_log.specs.Shelf.{shelf_shown, IsShelf};

    ghost view = { shelf_shown };

    ghost invariant = { IsShelf };
}

impl Shelf {
    /// No items yet. It takes no memory.
    pub fn new(alloc: Global) -> Shelf
        ensures { result ≡ record { items = []; ready = None } }
    {
        Shelf {
            full: Vec::new(alloc),
            last: OpPage::new(alloc),
            count: 0,
        }
    }

    pub fn len(&self) -> u64
        ensures { result ≡ length self.now.items }
    {
        self.count
    }

    /// Writes an item after the others. Another item that was prepared is dropped.
    pub fn prepare(&mut self, item: &[u8]) -> Result<(), AllocError>
        ensures items { self.new.items ≡ self.old.items }
        ensures ok { OnOk result (self.new.ready ≡ Some item.now) }
        ensures err { OnErr result (self.new.ready ≡ None) }
    {
        if self.count == u64::MAX {
            return Err(AllocError);
        }
        self.full.reserve(1)?;
        self.last.prepare(item)
    }

    /// Counts the item that was written.
    pub fn commit(&mut self)
        requires { IsSome self.old.ready }
        ensures items { (item : List ℕ) → self.old.ready ≡ Some item
            → self.new.items ≡ self.old.items ++ item ∷ [] }
        ensures ready { self.new.ready ≡ None }
    {
        self.last.commit();
        self.count += 1;
        if self.last.is_full() {
            let empty = OpPage::new(*self.full.allocator());
            let page = mem::replace(&mut self.last, empty);
            self.full.push_reserved(page.into_bytes());
        }
    }

    /// The item at a place, from 0.
    pub fn get(&self, place: u64) -> Option<&[u8]>
        ensures { option_copied result ≡ slice_get self.now.items place }
    {
        if self.count <= place {
            return None;
        }
        match self.full.get((place / PAGE_ITEMS) as usize) {
            Some(page) => Some(item_in(page, place % PAGE_ITEMS)),
            None => self.last.get(place % PAGE_ITEMS),
        }
    }
}
