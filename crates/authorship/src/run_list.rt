//! The authors of a text's visible characters, as runs.
ghost use Rattle.std.specs.Prelude.{◌≡◌, ◌+◌, ◌≤◌, ◌<◌, ◌↔◌, [], None, Some, length, slice_get, IsTrue, IsOk, IfErr, IfSome, OnOk, MatchResult};
ghost use Rattle.pad_model.specs.Visible.{runs};
ghost use Rattle.std.specs.Option.{IsSomeAnd};
ghost use Rattle.authorship.specs.Authors.{left_for, inserted, reserved, used, deleted};

use crate::run_tree::RunTree;
use crate::stored_run::KeptSpare;
use crate::table::place_author;
use pad_model::{Author, AuthorRun, Items, Refusal};
use std::alloc::Global;
use std::marker::Model;

/// The author of each visible character of a text, and the room that `reserve` made.
#[derive(Drop)]
pub struct RunList {
    table: Vec<Author>,
    runs: RunTree,
    spare: Option<KeptSpare>,
}

impl Model for RunList {
    ghost use Rattle.authorship.specs.Authors.{Authored};

    ghost Value = { Authored };

    ghost use Rattle.authorship.specs.StoredRuns.{authored, IsKept};

    ghost view = { λ l. authored l.table.items l.runs.places l.spare };

    ghost invariant = { λ l. IsKept l.table.items l.runs l.spare };
}

impl RunList {
    /// An empty list. It takes no memory yet.
    pub fn new(alloc: Global) -> RunList
        ensures { result ≡ record { authors = []; spare = None } }
    {
        RunList {
            table: Vec::new(alloc),
            runs: RunTree::new(alloc),
            spare: None,
        }
    }

    /// The number of characters.
    pub fn len(&self) -> u64
        ensures { result ≡ length self.now.authors }
    {
        self.runs.len()
    }

    /// The author of the character at a place, from 0.
    pub fn author_at(&self, pos: u64) -> &Author
        requires { pos < length self.now.authors }
        ensures { slice_get self.now.authors pos ≡ Some result.now }
    {
        &self.table[self.runs.author_at(pos)]
    }

    /// The fewest runs of one author each.
    pub fn runs(&self, alloc: Global) -> Result<Items<AuthorRun>, Refusal>
        ensures { MatchResult result (λ rows. rows ≡ runs self.now.authors)
            (λ e. e ≡ Refusal.Memory) }
    {
        let rows = self.runs.author_runs(alloc, self.table.as_slice())?;
        Ok(Items::from_vec(rows))
    }

    /// Makes room for the next `n` insertions of an author, so that they cannot fail. A deletion keeps the room.
    pub fn reserve(&mut self, alloc: Global, author: &Author, n: u64) -> Result<(), Refusal>
        ensures ok { OnOk result (self.new ≡ reserved self.old author.now n) }
        ensures memory { IfErr result (λ e. (e ≡ Refusal.Memory) × (self.new ≡ self.old)) }
    {
        self.runs.reserve(alloc, n)?;
        let place = place_author(&mut self.table, alloc, author)?;
        self.spare = Some(KeptSpare {
            author: place,
            left: n,
        });
        Ok(())
    }

    /// Puts `n` characters of an author in, the first of them at a place from 0.
    ///
    /// It uses up the room of one insertion, even if `n` is 0.
    pub fn insert(
        &mut self,
        alloc: Global,
        pos: u64,
        author: &Author,
        n: u64,
    ) -> Result<(), Refusal>
        requires place { pos ≤ length self.old.authors }
        requires fits { length self.old.authors + n ≤ u64.MAX }
        ensures ok { OnOk result (self.new ≡ inserted self.old pos author.now n) }
        ensures memory { IfErr result (λ e. (e ≡ Refusal.Memory) × (self.new ≡ self.old)) }
        ensures room { 1 ≤ left_for author.now self.old.spare → IsOk result }
    {
        if !self.has_room(author) {
            self.reserve(alloc, author, 1)?;
        }
        self.insert_reserved(pos, n);
        Ok(())
    }

    /// Takes `n` characters out, the first of them at a place from 0.
    pub fn delete(&mut self, pos: u64, n: u64)
        requires { pos + n ≤ length self.old.authors }
        ensures { self.new ≡ deleted self.old pos n }
    {
        self.runs.delete(pos, n);
    }

    fn has_room(&self, author: &Author) -> bool
        ensures { IsTrue result ↔ (1 ≤ left_for author.now self.now.spare) }
    {
        match &self.spare {
            None => false,
            Some(spare) => spare.left > 0 && self.table[spare.author] == *author,
        }
    }

    /// Puts in characters of the author for whom there is room.
    fn insert_reserved(&mut self, pos: u64, n: u64)
        requires place { pos ≤ length self.old.authors }
        requires fits { length self.old.authors + n ≤ u64.MAX }
        requires room { IsSomeAnd self.old.spare (λ spare. 1 ≤ spare.left) }
        ensures { IfSome self.old.spare (λ spare. self.new ≡ used self.old pos spare n) }
    {
        if let Some(spare) = self.spare {
            self.runs.insert(pos, spare.author, n);
            self.spare = Some(KeptSpare {
                left: spare.left - 1,
                ..spare
            });
        }
    }
}
