//! The ID of a person, by which the person is looked up.
ghost use Rattle.std.specs.Prelude.{◌≡◌, IfOk, bytes_eq, nat_eq};
ghost use Rattle.std.specs.Cmp.{partial_equiv_from_equiv};
ghost use Rattle.std.specs.Cmp.Lexicographic.{nat_list_eq_equiv, bytes_decides};
ghost use Rattle.std.specs.Cmp.Rules.{hashing};
ghost use Rattle.std.specs.Hash as fed;
ghost use Rattle.std.proofs.Common.{rules, ap};

use indexmap::Equivalent;
use std::alloc::{AllocError, Global};
use std::hash::{Hash, Hasher};
use std::marker::Model;

/// The ID that a proxy sends for a person. Contracts see it as its bytes.
#[derive(Drop)]
pub struct PersonId {
    bytes: Vec<u8>,
}

impl Model for PersonId {
    ghost use Rattle.std.specs.Prelude.{ℕ, List};

    ghost Value = { List ℕ };

    ghost view = { λ id. id.bytes.items };
}

impl PartialEq for PersonId {
    ghost eq = { bytes_eq };

    ghost laws = { partial_equiv_from_equiv nat_list_eq_equiv };

    fn eq(&self, other: &PersonId) -> bool {
        self.bytes == other.bytes
    }
}

impl Eq for PersonId {
    ghost laws = { nat_list_eq_equiv };
}

impl Hash for PersonId {
    ghost hash_input = { fed.slice fed.u8 };

    ghost respects_eq = { λ x y same. ap (fed.slice fed.u8) ((bytes_decides x y).0 same) };

    fn hash<H: Hasher>(&self, state: &mut H) {
        self.bytes.hash(state);
    }
}

impl Equivalent<PersonId> for &[u8] {
    ghost equivalent = { λ id key. bytes_eq id.now key };

    ghost respects_hash = { λ id key same. ap (fed.slice fed.u8) ((bytes_decides id.now key).0 same) };

    ghost respects_eq = { λ id x y. nat_list_eq_equiv.congr id.now x y };

    fn equivalent(&self, key: &PersonId) -> bool {
        *self == key.bytes.as_slice()
    }
}

impl PersonId {
    pub fn from_bytes(alloc: Global, bytes: &[u8]) -> Result<PersonId, AllocError>
        ensures { IfOk result (λ id. id ≡ bytes.now) }
    {
        Ok(PersonId {
            bytes: Vec::from_slice(alloc, bytes)?,
        })
    }
}
