//! The number of wrong tokens from each address, and for each name.
ghost use Rattle.std.specs.Prelude.{◌≡◌, ◌+◌, ◌<◌, [], Some, bytes_eq, nat_eq, option_copied, IfOk, OnErr};
ghost use Rattle.std.specs.Map.{lookup};
ghost use Rattle.std.specs.NonZero.{non_zero_usize_get};
ghost use Rattle.admission.specs.Counting.{IsCounted, one_more, tokens_at};

use lru::LruCache;
use pad_model::Name;
use std::alloc::{AllocError, Global};
use std::marker::Model;
use std::num::NonZeroUsize;

/// The most addresses that are remembered. Of more, those are forgotten whose last wrong token is longest ago.
pub const MOST_ADDRESSES: usize = 4_096;

/// The most names that are remembered, as for addresses.
pub const MOST_NAMES: usize = 1_024;

/// The time after the last wrong token of an address, or for a name, at which all of them are forgotten, in
/// milliseconds.
pub const FORGOTTEN_AFTER: u64 = 600_000;

/// The number of wrong tokens that came one after the other, and the time of the last one, in milliseconds.
#[derive(Clone, Copy)]
pub struct TokenCount {
    pub tokens: u32,
    pub last: u64,
}

/// The wrong tokens of each address, and for each name. It takes no more memory than for `MOST_ADDRESSES` addresses and
/// `MOST_NAMES` names.
#[derive(Drop)]
pub struct WrongTokens {
    addresses: LruCache<u128, TokenCount>,
    names: LruCache<Name, TokenCount>,
    total: u64,
}

impl Model for WrongTokens {
    ghost use Rattle.std.specs.Prelude.{◌≡◌};
    ghost use Rattle.admission.specs.Counting.{Tokens};
    ghost use Rattle.admission.specs.declared.wrong_tokens.TheConstants.{MOST_ADDRESSES, MOST_NAMES};

    ghost Value = { Tokens };

    ghost view = { λ t. record {
      addresses = t.addresses.entries;
      names = t.names.entries;
      total = t.total;
    } };

    ghost invariant = { λ t. (t.addresses.cap ≡ MOST_ADDRESSES) × (t.names.cap ≡ MOST_NAMES) };
}

impl WrongTokens {
    /// No wrong tokens.
    pub fn new(alloc: Global) -> Result<WrongTokens, AllocError>
        ensures { IfOk result (λ tokens. tokens ≡ record { addresses = []; names = []; total = 0 }) }
    {
        Ok(WrongTokens {
            addresses: LruCache::sparse(alloc, at_least_one(MOST_ADDRESSES))?,
            names: LruCache::sparse(alloc, at_least_one(MOST_NAMES))?,
            total: 0,
        })
    }

    /// The number of all wrong tokens so far.
    pub fn total(&self) -> u64
        ensures { result ≡ self.now.total }
    {
        self.total
    }

    /// Returns the number of wrong tokens of an address that are remembered at a time.
    pub fn of_address(&self, address: u128, now: u64) -> u32
        ensures { result ≡ tokens_at now (lookup (nat_eq address) self.now.addresses) }
    {
        tokens_at(self.addresses.peek(&address), now)
    }

    /// Returns the number of wrong tokens for a name that are remembered at a time.
    pub fn for_name(&self, name: &Name, now: u64) -> u32
        ensures { result ≡ tokens_at now (lookup (bytes_eq name.now) self.now.names) }
    {
        tokens_at(self.names.peek(name), now)
    }

    #[tactic(auto, using(crate::proofs::Puts::put_number))]
    /// Notes a wrong token of an address, and returns how many it has sent now. If memory runs out, it is counted in
    /// the total alone.
    pub fn note_address(&mut self, address: u128, now: u64) -> Result<u32, AllocError>
        ensures counted { IfOk result (λ tokens. IsCounted now
            (lookup (nat_eq address) self.old.addresses) (lookup (nat_eq address) self.new.addresses) tokens) }
        ensures err { OnErr result (self.new.addresses ≡ self.old.addresses) }
        ensures names { self.new.names ≡ self.old.names }
        ensures total { self.new.total ≡ one_more 64 self.old.total }
    {
        self.total = self.total.saturating_add(1);
        let tokens = self.of_address(address, now).saturating_add(1);
        self.addresses
            .put(address, TokenCount { tokens, last: now })?;
        Ok(tokens)
    }

    #[tactic(auto, using(crate::proofs::Puts::put_name))]
    /// Notes a wrong token for a name, and returns how many came for it. If memory runs out, nothing is changed.
    pub fn note_name(&mut self, name: Name, now: u64) -> Result<u32, AllocError>
        ensures counted { IfOk result (λ tokens. IsCounted now
            (lookup (bytes_eq name) self.old.names) (lookup (bytes_eq name) self.new.names) tokens) }
        ensures err { OnErr result (self.new ≡ self.old) }
        ensures others { (self.new.addresses ≡ self.old.addresses) × (self.new.total ≡ self.old.total) }
    {
        let tokens = self.for_name(&name, now).saturating_add(1);
        self.names.put(name, TokenCount { tokens, last: now })?;
        Ok(tokens)
    }
}

// Returns the number of tokens of a count that are remembered at a time.
fn tokens_at(count: Option<&TokenCount>, now: u64) -> u32
    ensures { result ≡ tokens_at now (option_copied count.entry) }
{
    match count {
        Some(count) if now.saturating_sub(count.last) < FORGOTTEN_AFTER => count.tokens,
        _ => 0,
    }
}

// A number as one that is not zero.
fn at_least_one(number: usize) -> NonZeroUsize
    ensures { 0 < number → non_zero_usize_get result ≡ number }
{
    match NonZeroUsize::new(number) {
        Some(number) => number,
        None => NonZeroUsize::MIN,
    }
}
