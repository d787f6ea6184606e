//! A page of items. Each item is preceded by its length, so that a search can skip it.
ghost use Rattle.std.specs.Prelude.{◌≡◌, ℕ, ◌<◌, ◌++◌, [], ◌∷◌, List, length, drop, Some, None, IsSome, IsTrue, ◌↔◌, OnOk, OnErr, slice_get, option_copied};
ghost use Rattle.op_log.specs.Page.{behind, behind_item, item_at, items_of};

use crate::number::{next_number, push_number};
use std::alloc::{AllocError, Global};
use std::marker::Model;

/// The number of items of a full page.
pub const PAGE_ITEMS: u64 = 64;

/// A page that is being filled. An item is written first (`prepare`), and then counted (`commit`).
#[derive(Drop)]
pub struct OpPage {
    bytes: Vec<u8>,
    count: u64,
    // The end of the bytes of the items.
    end: usize,
    // True if an item was prepared: its bytes follow the end.
    is_ready: bool,
}

impl Model for OpPage {
    ghost use Rattle.op_log.specs.Items.{Items};

    ghost Value = { Items };

    ghost use Rattle.op_log.specs.Page.{page_shown, IsPage};

    ghost view = { page_shown };

    ghost invariant = { IsPage };
}

impl OpPage {
    /// A page of no items. It takes no memory yet.
    pub fn new(alloc: Global) -> OpPage
        ensures { result ≡ record { items = []; ready = None } }
    {
        OpPage {
            bytes: Vec::new(alloc),
            count: 0,
            end: 0,
            is_ready: false,
        }
    }

    pub fn is_full(&self) -> bool
        ensures { IsTrue result ↔ (length self.now.items ≡ PAGE_ITEMS) }
    {
        self.count == PAGE_ITEMS
    }

    /// Writes an item after the others. Another item that was prepared is dropped.
    pub fn prepare(&mut self, item: &[u8]) -> Result<(), AllocError>
        ensures items { self.new.items ≡ self.old.items }
        ensures ok { OnOk result (self.new.ready ≡ Some item.now) }
        ensures err { OnErr result (self.new.ready ≡ None) }
    {
        self.is_ready = false;
        self.bytes.truncate(self.end);
        push_number(&mut self.bytes, item.len() as u64)?;
        self.bytes.extend_from_slice(item)?;
        self.is_ready = true;
        Ok(())
    }

    /// Counts the item that was written. A page that is full then gives its spare room back.
    pub fn commit(&mut self)
        requires ready { IsSome self.old.ready }
        requires room { length self.old.items < PAGE_ITEMS }
        ensures items { (item : List ℕ) → self.old.ready ≡ Some item
            → self.new.items ≡ self.old.items ++ item ∷ [] }
        ensures ready { self.new.ready ≡ None }
    {
        self.is_ready = false;
        self.count += 1;
        self.end = self.bytes.len();
        if self.count == PAGE_ITEMS {
            self.bytes.shrink_to_fit();
        }
    }

    /// The item at a place, from 0.
    pub fn get(&self, place: u64) -> Option<&[u8]>
        ensures { option_copied result ≡ slice_get self.now.items place }
    {
        if self.count <= place {
            return None;
        }
        Some(item_in(&self.bytes, place))
    }

    /// The bytes of a full page.
    pub fn into_bytes(self) -> Vec<u8>
        requires { length self.items ≡ PAGE_ITEMS }
        ensures { items_of PAGE_ITEMS result.items ≡ self.items }
    {
        self.bytes
    }
}

/// The item at a place of bytes.
pub fn item_in(bytes: &[u8], place: u64) -> &[u8]
    ensures { result.now ≡ item_at (behind place bytes.now) }
{
    let mut rest = bytes;
    for _n in 0..place {
        rest = first_item(rest).1;
    }
    first_item(rest).0
}

/// The item at the start, and the bytes that follow it.
fn first_item(bytes: &[u8]) -> (&[u8], &[u8])
    ensures item { result.0.now ≡ item_at bytes.now }
    ensures rest { result.1.now ≡ behind_item bytes.now }
{
    let (len, rest) = next_number(bytes);
    let end = rest.len().min(len as usize);
    (&rest[..end], &rest[end..])
}
