//! Bytes that arrive at the back and are taken from the front.
ghost use Rattle.std.specs.Prelude.{◌≡◌, ◌+◌, ◌*◌, ◌≤◌, [], ◌++◌, length, take, drop, nat_eq, IsOk, OnOk, OnErr, vec_len};
ghost use Rattle.std.specs.Borrow.{Array, Lends, sem, u8 as byte};
ghost use Rattle.wire_lines.specs.Bytes.{with_waiting};
ghost use Rattle.wire_lines.specs.contracts.byte_buffer.ByteBuffer.{the_row};

use crate::inlet::CHUNK;
use std::alloc::{AllocError, Global};
use std::marker::Model;

// The capacity that is kept while bytes arrive. What more of them needed is freed when the next ones arrive.
const KEPT: usize = 2 * CHUNK;

// The capacity that is kept while nothing arrives, so that a few bytes need no allocation.
const KEPT_IDLE: usize = 1_024;

/// Bytes that wait, behind some that were taken. The taken ones are dropped once they are half of those held: so at most
/// as many bytes are moved as arrive, and no more are held than twice those that wait.
#[derive(Drop)]
pub struct ByteBuffer {
    held: Vec<u8>,
    // The bytes that were taken last begin here.
    from: usize,
    // The bytes that wait begin here.
    used: usize,
}

impl Model for ByteBuffer {
    ghost use Rattle.std.specs.Prelude.{◌-◌, ◌≤◌, drop, length, slice_range, vec_capacity};
    ghost use Rattle.wire_lines.specs.Bytes.{Buffered};

    ghost Value = { Buffered };

    ghost view = { λ b. record {
      waiting = drop b.used b.held.items;
      taken = slice_range b.held.items b.from b.used;
      held = length b.held.items;
      room = vec_capacity b.held - length b.held.items;
    } };

    ghost invariant = { λ b. (b.from ≤ b.used) × (b.used ≤ length b.held.items) };
}

impl ByteBuffer {
    /// A buffer without bytes. It allocates no memory.
    pub fn new(alloc: Global) -> ByteBuffer
        ensures waiting { result.waiting ≡ [] }
        ensures taken { result.taken ≡ [] }
        ensures held { result.held ≡ 0 }
    {
        ByteBuffer::of(Vec::new(alloc))
    }

    /// A buffer in which these bytes wait.
    pub fn of(bytes: Vec<u8>) -> ByteBuffer
        ensures waiting { result.waiting ≡ bytes.items }
        ensures taken { result.taken ≡ [] }
        ensures held { result.held ≡ length bytes.items }
    {
        ByteBuffer {
            held: bytes,
            from: 0,
            used: 0,
        }
    }

    /// The bytes that wait.
    pub fn waiting(&self) -> &[u8]
        ensures { result.now ≡ self.now.waiting }
    {
        &self.held[self.used..]
    }

    /// The bytes that wait, to be written over where they are.
    pub fn waiting_mut(&mut self) -> &mut [u8]
        ensures* writes_back { sem 𝓛
            (Lends the_row (Array byte 0) self.entry result (with_waiting self.old)) }
        ensures value { result.now ≡ self.old.waiting }
    {
        let used = self.used;
        self.held.slice_mut(used..)
    }

    /// The bytes that the last `take` took. There are none once more bytes arrive.
    pub fn taken(&self) -> &[u8]
        ensures { result.now ≡ self.now.taken }
    {
        &self.held[self.from..self.used]
    }

    /// The number of waiting bytes.
    pub fn len(&self) -> usize
        ensures { result ≡ length self.now.waiting }
    {
        self.held.len() - self.used
    }

    /// Returns true if no bytes wait.
    pub fn is_empty(&self) -> bool
        ensures { result ≡ nat_eq 0 (length self.now.waiting) }
    {
        self.held.len() == self.used
    }

    /// Takes the first of the bytes that wait. They stay where they are, and `taken` lends them.
    pub fn take(&mut self, count: usize)
        requires { count ≤ length self.old.waiting }
        ensures waiting { self.new.waiting ≡ drop count self.old.waiting }
        ensures taken { self.new.taken ≡ take count self.old.waiting }
        ensures held { self.new.held ≡ self.old.held }
        ensures room { self.new.room ≡ self.old.room }
    {
        self.from = self.used;
        self.used += count;
    }

    /// Appends bytes to those that wait; if memory runs out, none of them.
    pub fn push(&mut self, bytes: &[u8]) -> Result<(), AllocError>
        ensures ok { OnOk result (self.new.waiting ≡ self.old.waiting ++ bytes.now) }
        ensures err { OnErr result (self.new.waiting ≡ self.old.waiting) }
        ensures taken { self.new.taken ≡ [] }
        ensures held { self.new.held ≤ 2 * length self.new.waiting }
    {
        self.reserve(bytes.len())?;
        self.append(bytes)
    }

    /// Makes room for so many more bytes, and for 1 KiB in all.
    pub fn reserve(&mut self, count: usize) -> Result<(), AllocError>
        ensures waiting { self.new.waiting ≡ self.old.waiting }
        ensures taken { self.new.taken ≡ [] }
        ensures held { self.new.held ≤ 2 * length self.new.waiting }
        ensures ok { OnOk result (count ≤ self.new.room) }
    {
        self.make_space();
        let missing = KEPT_IDLE.saturating_sub(self.held.len());
        self.held.reserve(missing.max(count))
    }

    /// Appends bytes to those that wait, and drops none of those that were taken. If memory runs out, it appends none.
    pub fn append(&mut self, bytes: &[u8]) -> Result<(), AllocError>
        ensures ok { OnOk result (self.new.waiting ≡ self.old.waiting ++ bytes.now) }
        ensures err { OnErr result (self.new.waiting ≡ self.old.waiting) }
        ensures taken { self.new.taken ≡ self.old.taken }
        ensures held { OnOk result (self.new.held ≡ self.old.held + length bytes.now) }
        ensures held_err { OnErr result (self.new.held ≡ self.old.held) }
        ensures room { length bytes.now ≤ self.old.room → IsOk result }
    {
        self.held.extend_from_slice(bytes)
    }

    /// Frees the capacity that waiting bytes do not need, except 1 KiB. It moves the bytes, so call it while none
    /// arrive.
    pub fn release(&mut self)
        ensures waiting { self.new.waiting ≡ self.old.waiting }
        ensures taken { self.new.taken ≡ [] }
        ensures held { self.new.held ≡ length self.new.waiting }
    {
        self.drop_used();
        self.held.shrink_to(KEPT_IDLE);
    }

    // Drops the taken bytes once they are half of those held.
    fn make_space(&mut self)
        ensures waiting { self.new.waiting ≡ self.old.waiting }
        ensures taken { self.new.taken ≡ [] }
        ensures held { self.new.held ≤ 2 * length self.new.waiting }
    {
        self.from = self.used;
        if self.used >= self.held.len() - self.used {
            self.drop_used();
            self.held.shrink_to(KEPT);
        }
    }

    // Drops the taken bytes.
    fn drop_used(&mut self)
        ensures waiting { self.new.waiting ≡ self.old.waiting }
        ensures taken { self.new.taken ≡ [] }
        ensures held { self.new.held ≡ length self.new.waiting }
    {
        drop_front(&mut self.held, self.used);
        self.from = 0;
        self.used = 0;
    }
}

/// Drops the first bytes.
pub fn drop_front(held: &mut Vec<u8>, count: usize)
    requires { count ≤ vec_len held.old }
    ensures { held.new.items ≡ drop count held.old.items }
{
    if count == 0 {
        return;
    }
    let rest = held.len() - count;
    held.copy_within(count.., 0);
    held.truncate(rest);
}
