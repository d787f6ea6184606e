//! The visits that are present on a pad.
ghost use Rattle.std.specs.Prelude.{◌≡◌, ◌+◌, ◌<◌, ◌≤◌, ◌^◌, [], ◌∷◌, ◌++◌, None, Some, length, IfOk, IfErr, IsTrue, OnErr, OnOk, MatchResult, option_copied, unwrap_or};
ghost use Rattle.indexmap.specs.IndexMap.{spare};
ghost use Rattle.pad_model.specs.declared.refusal.Refusal.{Refusal};
ghost use Rattle.presence.specs.Presence.{counted, is_joined_by, join_refusal, joined, left, owners_alone, rejoin_refusal, spent_refusal, was_given, with_caret, without, OnVisit, AreNumbered};
ghost use Rattle.presence.specs.Inside.{visit_of};
ghost use Rattle.rights.specs.Rights.{may};
ghost use Rattle.rights.specs.declared.right.Right.TheVariants.{Own};

use crate::author_list::AuthorList;
use indexmap::IndexMap;
use pad_model::{Items, Name, Refusal, Stamp};
use rights::{Right, RightsBook};
use std::alloc::{AllocError, Global};
use std::marker::Model;

/// The greatest limit of visits on a pad at once that a server can set.
pub const MAX_PRESENT: u64 = 1_024;

/// The default limit of visits on a pad at once.
pub const DEFAULT_PRESENT: u64 = 64;

/// The most visit numbers that a pad gives out.
pub const MAX_VISITS: u64 = 1_000_000;

/// A visit: its number, its author, and the character before its caret.
#[derive(Clone, Debug, PartialEq, Drop)]
pub struct Visit {
    pub number: u64,
    pub author: Name,
    /// None is the start of the text.
    pub caret: Option<Stamp>,
}

/// The fields of a visit beside its number.
#[derive(Drop)]
pub struct Visitor {
    author: Name,
    caret: Option<Stamp>,
}

/// The visits of a pad. Each join is a separate visit, even of an author who is present already.
#[derive(Drop)]
pub struct PresenceBook {
    visitors: IndexMap<u64, Visitor>,
    /// The author of each visit that was given a number, present or not.
    authors: AuthorList,
    given: u64,
    limit: u64,
}

impl Model for PresenceBook {
    ghost use Rattle.presence.specs.Presence.{Presence};

    ghost Value = { Presence };

    ghost use Rattle.presence.specs.Inside.{shown, IsSound};

    ghost view = { shown };

    ghost invariant = { IsSound };
}

impl PresenceBook {
    /// A book without visits, in which up to `limit` may be present at once. It allocates no memory.
    pub fn new(alloc: Global, limit: u64) -> PresenceBook
        ensures { result ≡ record { limit = limit; given = 0; present = []; authors = [] } }
    {
        PresenceBook {
            visitors: IndexMap::new(alloc),
            authors: AuthorList::new(alloc),
            given: 0,
            limit,
        }
    }

    /// Gives the next number to an author, who is then present, with the caret at the start. Refuses if the limit is
    /// reached.
    pub fn join(&mut self, alloc: Global, author: &str) -> Result<u64, Refusal>
        ensures ok { IfOk result (λ visit. (join_refusal self.old ≡ None)
            × (visit ≡ self.old.given + 1) × (self.new ≡ joined author.now self.old)) }
        ensures refused { IfErr result (λ e. (e ≡ unwrap_or (join_refusal self.old) Refusal.Memory)
            × (self.new ≡ self.old)) }
    {
        if self.visitors.len() as u64 >= self.limit {
            return Err(Refusal::Crowded);
        }
        self.enter(alloc, author)
    }

    /// Gives the next number to an author, who is then present, with the caret at the start. It does not check the
    /// limit, so the creator of a pad is always present.
    pub fn enter(&mut self, alloc: Global, author: &str) -> Result<u64, Refusal>
        ensures ok { IfOk result (λ visit. (spent_refusal self.old ≡ None)
            × (visit ≡ self.old.given + 1) × (self.new ≡ joined author.now self.old)) }
        ensures refused { IfErr result (λ e. (e ≡ unwrap_or (spent_refusal self.old) Refusal.Memory)
            × (self.new ≡ self.old)) }
    {
        let number = self.next_number()?;
        let visitor = make_room(alloc, &mut self.visitors, &mut self.authors, author)?;
        self.visitors.insert(number, visitor)?;
        self.given = number;
        Ok(number)
    }

    /// Counts a visit that began before a restart and has ended.
    pub fn count(&mut self, alloc: Global, author: Option<&str>) -> Result<(), Refusal>
        ensures ok { IfOk result (λ _. (spent_refusal self.old ≡ None)
            × (self.new ≡ counted (option_copied author.entry) self.old)) }
        ensures refused { IfErr result (λ e. (e ≡ unwrap_or (spent_refusal self.old) Refusal.Memory)
            × (self.new ≡ self.old)) }
    {
        let number = self.next_number()?;
        self.authors.push(alloc, author)?;
        self.given = number;
        Ok(())
    }

    /// Returns true if a visit was once given to this author, whether it is present or has ended.
    pub fn was_given(&self, visit: u64, author: &str) -> bool
        ensures { result ≡ was_given visit author.now self.now }
    {
        visit > 0 && self.authors.is((visit - 1) as usize, author)
    }

    /// Ends an old visit of the author's, present or not, and gives them the next number, in its place where the pad is
    /// full.
    pub fn rejoin(&mut self, alloc: Global, instead: u64, author: &str) -> Result<u64, Refusal>
        ensures ok { IfOk result (λ visit. (rejoin_refusal instead author.now self.old ≡ None)
            × (visit ≡ self.old.given + 1) × (self.new ≡ joined author.now (without instead self.old))) }
        ensures refused { IfErr result (λ e. (e ≡ unwrap_or (rejoin_refusal instead author.now self.old) Refusal.Memory)
            × (self.new ≡ self.old)) }
    {
        let number = self.number_instead(instead, author)?;
        let visitor = make_room(alloc, &mut self.visitors, &mut self.authors, author)?;
        let _ended = self.visitors.shift_remove(&instead);
        self.visitors.insert(number, visitor)?;
        self.given = number;
        Ok(number)
    }

    // The number that an author is given instead of an old visit, or why there is none.
    fn number_instead(&self, instead: u64, author: &str) -> Result<u64, Refusal>
        ensures number { IfOk result (λ number. (rejoin_refusal instead author.now self.now ≡ None)
            × (number ≡ self.now.given + 1) × (number ≤ MAX_VISITS)) }
        ensures refused { IfErr result (λ e. rejoin_refusal instead author.now self.now ≡ Some e) }
    {
        if !self.was_given(instead, author) {
            Err(Refusal::NoVisit)
        } else if self.others(instead) as u64 >= self.limit {
            Err(Refusal::Crowded)
        } else {
            self.next_number()
        }
    }

    // The number that is given next, or why there is none.
    fn next_number(&self) -> Result<u64, Refusal>
        ensures number { IfOk result (λ number. (spent_refusal self.now ≡ None)
            × (number ≡ self.now.given + 1) × (number ≤ MAX_VISITS)) }
        ensures refused { IfErr result (λ e. spent_refusal self.now ≡ Some e) }
    {
        if self.given >= MAX_VISITS {
            return Err(Refusal::VisitsSpent);
        }
        let number = self.given + 1;
        Ok(number)
    }

    // The number of visits that are present beside this one.
    fn others(&self, visit: u64) -> usize
        ensures { result ≡ length (left visit self.now.present) }
    {
        if self.visitors.contains_key(&visit) {
            self.visitors.len() - 1
        } else {
            self.visitors.len()
        }
    }

    /// Ends a visit.
    pub fn leave(&mut self, visit: u64) -> Result<(), Refusal>
        ensures { OnVisit visit self.old self.new result left }
    {
        let Some(_visitor) = self.visitors.shift_remove(&visit) else {
            return Err(Refusal::NotJoined);
        };
        Ok(())
    }

    /// Ends the visits of all who may not own the pad, as when it is closed. It takes no memory.
    pub fn keep_owners(&mut self, rights: &RightsBook)
        ensures { self.new ≡ owners_alone rights.now self.old }
    {
        self.visitors.retain(
            |_number: &u64, visitor: &mut Visitor| -> bool
                ensures { (result ≡ may rights.entry.now visitor.old.author Own)
                    × (visitor.new ≡ visitor.old) }
            { rights.may(&visitor.author, Right::Own) },
        );
    }

    /// Puts the caret of a visit after a character, or at the start.
    pub fn caret(&mut self, visit: u64, caret: Option<Stamp>) -> Result<(), Refusal>
        ensures { OnVisit visit self.old self.new result (with_caret caret) }
    {
        let Some(visitor) = self.visitors.get_mut(&visit) else {
            return Err(Refusal::NotJoined);
        };
        visitor.caret = caret;
        Ok(())
    }

    /// Returns true if a visit is present and belongs to this author.
    pub fn holds(&self, visit: u64, author: &str) -> bool
        ensures { result ≡ is_joined_by visit author.now self.now.present }
    {
        match self.visitors.get(&visit) {
            Some(visitor) => visitor.author.is(author),
            None => false,
        }
    }

    /// The visits that are present, in order of joining.
    pub fn who(&self, alloc: Global) -> Result<Items<Visit>, Refusal>
        ensures ok { IfOk result (λ row. (row ≡ self.now.present)
            × AreNumbered self.now.given row) }
        ensures memory { IfErr result (λ e. e ≡ Refusal.Memory) }
    {
        let mut visits = Items::new(alloc);
        for (number, visitor) in self.visitors.iter() {
            visits.push(visit_of(*number, visitor)?)?;
        }
        Ok(visits)
    }
}

// Makes room for one more visitor, and adds the author of that visit to the others. If memory runs out, nothing is
// changed.
fn make_room(
    alloc: Global,
    visitors: &mut IndexMap<u64, Visitor>,
    authors: &mut AuthorList,
    author: &str,
) -> Result<Visitor, AllocError>
    requires { length authors.old < 2 ^ 32 }
    ensures ok { IfOk result (λ visitor. (visitor ≡ record { author = author.now; caret = None })
        × (authors.new ≡ authors.old ++ Some author.now ∷ [])) }
    ensures room { OnOk result (0 < spare visitors.new) }
    ensures visitors { visitors.new.entries ≡ visitors.old.entries }
    ensures err { OnErr result (authors.new ≡ authors.old) }
{
    let visitor = Visitor {
        author: Name::from_str(alloc, author)?,
        caret: None,
    };
    visitors.reserve(1)?;
    authors.push(alloc, Some(author))?;
    Ok(visitor)
}

fn visit_of(number: u64, visitor: &Visitor) -> Result<Visit, AllocError>
    ensures { IfOk result (λ visit. visit ≡ visit_of number visitor.now) }
{
    Ok(Visit {
        number,
        author: visitor.author.clone()?,
        caret: visitor.caret,
    })
}
