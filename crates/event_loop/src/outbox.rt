//! Bytes that are waiting to be written.
ghost use Rattle.std.specs.Prelude.{◌≡◌, ◌≤◌, ◌-◌, [], drop, length, nat_le};

use std::alloc::Global;

/// The capacity that is kept between two replies. What a longer one needed is freed when it was written.
const KEPT: usize = 65_536;

/// The capacity that is kept while nothing is written, so that a short message needs no allocation.
const KEPT_IDLE: usize = 256;

/// Bytes of which the first were written, and the others wait.
#[derive(Drop)]
pub struct Outbox {
    pub bytes: Vec<u8>,
    /// The number of them that were already written.
    pub sent: usize,
}

impl Outbox {
    /// An empty outbox. It allocates no memory.
    pub fn new(alloc: Global) -> Outbox
        ensures { (result.sent ≡ 0) × (result.bytes.items ≡ []) }
    {
        Outbox {
            bytes: Vec::new(alloc),
            sent: 0,
        }
    }

    /// An outbox with these bytes to be written.
    pub fn of(bytes: Vec<u8>) -> Outbox
        ensures { (result.sent ≡ 0) × (result.bytes.items ≡ bytes.items) }
    {
        Outbox { bytes, sent: 0 }
    }

    /// Drops all bytes.
    pub fn clear(&mut self)
        ensures { (self.new.sent ≡ 0) × (self.new.bytes.items ≡ []) }
    {
        self.bytes.clear();
        self.sent = 0;
    }

    /// The number of bytes that wait to be written.
    pub fn len(&self) -> usize
        ensures { result ≡ length self.now.bytes.items - self.now.sent }
    {
        self.bytes.len().saturating_sub(self.sent)
    }

    /// Drops the bytes once all were written.
    pub fn settle(&mut self)
        ensures rest { drop self.new.sent self.new.bytes.items
            ≡ drop self.old.sent self.old.bytes.items }
        ensures within { self.old.sent ≤ length self.old.bytes.items
            → self.new.sent ≤ length self.new.bytes.items }
        ensures none { self.old.bytes.items ≡ [] → self.new.bytes.items ≡ [] }
    {
        if self.sent >= self.bytes.len() {
            self.clear();
            self.bytes.shrink_to(KEPT);
        }
    }

    /// Frees the memory that is not needed while nothing is written.
    pub fn rest(&mut self)
        ensures { (self.new.sent ≡ self.old.sent) × (self.new.bytes.items ≡ self.old.bytes.items) }
    {
        self.bytes.shrink_to(KEPT_IDLE);
    }
}
