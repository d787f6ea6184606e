ghost use Rattle.std.specs.Prelude.{◌≡◌, [], MatchResult};
ghost use Rattle.pad_model.specs.Answers.{Answers};
ghost use Rattle.named_revisions.specs.Named.{name_refusal};
ghost use Rattle.named_revisions.specs.Named as spec;

use crate::named_revision::NamedRevision;
use pad_model::{Items, Name, Refusal, Text};
use std::alloc::Global;
use std::marker::Model;

/// The most names that a pad's revisions have together.
pub const MAX_NAMED_REVISIONS: usize = 200;

/// The most characters of a revision's name.
pub const MAX_REVISION_NAME: usize = 100;

/// The named revisions of a pad, in the order in which they were named.
#[derive(Drop)]
pub struct NamedRevisions {
    all: Items<NamedRevision>,
}

impl Model for NamedRevisions {
    ghost use Rattle.std.specs.Prelude.{List};
    ghost use Rattle.named_revisions.specs.declared.named_revision.NamedRevision.{NamedRevision};

    ghost Value = { List NamedRevision };

    ghost view = { λ named. named.all };
}

impl NamedRevisions {
    /// The list of a new pad, in which no revision has a name. It allocates no memory.
    pub fn new(alloc: Global) -> NamedRevisions
        ensures { result ≡ [] }
    {
        NamedRevisions {
            all: Items::new(alloc),
        }
    }

    /// Names a revision, behind all others. It is refused with 322 if the name is empty, and with 323 if it has more than
    /// 100 characters or there are 200 names.
    pub fn add(&mut self, rev: u64, author: &Name, at: u64, text: &Text) -> Result<(), Refusal>
        ensures { Answers self.old (spec.add (record {
          rev = rev;
          author = author.now;
          at = at;
          text = text.now;
        }) self.old) result self.new }
    {
        if let Some(refusal) = self.refusal_of(text) {
            return Err(refusal);
        }
        let named = NamedRevision {
            rev,
            author: author.clone()?,
            at,
            text: text.clone()?,
        };
        self.all.push(named)?;
        Ok(())
    }

    /// The refusal of one more name, or None. The first refusal that applies is returned.
    fn refusal_of(&self, text: &Text) -> Option<Refusal>
        ensures { result ≡ name_refusal text.now self.now }
    {
        if text.is_empty() {
            return Some(Refusal::Empty);
        }
        if MAX_REVISION_NAME < text.len() || MAX_NAMED_REVISIONS <= self.all.len() {
            return Some(Refusal::TooMuch);
        }
        None
    }

    /// All named revisions, in the order in which they were named.
    pub fn list(&self, alloc: Global) -> Result<Items<NamedRevision>, Refusal>
        ensures { MatchResult result (λ all. all ≡ self.now) (λ e. e ≡ Refusal.Memory) }
    {
        Ok(self.all.clone()?)
    }
}
