//! The pad of a file, which its owner reads.
ghost use Rattle.std.specs.Prelude.{◌≡◌, [], ◌∷◌, IfErr, IfOk, MatchResult, OnOk, Ok, Some, length};
ghost use Rattle.op_log.specs.Times.{count_until};
ghost use Rattle.pad_core.specs.Reads.{read_changes, read_comments, read_runs, read_text};
ghost use Rattle.pad_core.specs.declared.reply.PadReply.TheVariants as reply;
ghost use Rattle.pad_store.specs.Choices as choices;
ghost use Rattle.pad_store.specs.Reading.{IsFault, IsNoDamage, IsTold, LeadTo};

use crate::file_names::{owner_in, pad_in};
use crate::revision_choice::RevisionChoice;
use crate::trouble::Trouble;
use block_seq::BlockSeq;
use comments::Shown;
use guests::Guest;
use pad_core::{Act, Pad, PadEvent, PadReply};
use pad_model::{AuthorRun, Items, Name, Piece, Text, Who};
use presence::DEFAULT_PRESENT;
use std::alloc::{AllocError, Global};
use store_format::{Loaded, load};

/// The pad of a file, which its owner has joined to read it, with more information about the file.
#[derive(Drop)]
pub struct InspectedPad {
    pad: Pad<BlockSeq>,
    pub name: Name,
    owner: Who,
    visit: u64,
    /// The sum of the last line.
    pub sum: String,
    /// The number of bytes of the whole lines.
    pub whole: u64,
    /// The number of bytes after them.
    pub cut: u64,
}

impl InspectedPad {
    /// Reads the bytes of a file, for the pad name in its first line.
    pub fn read(alloc: Global, bytes: &[u8]) -> Result<InspectedPad, Trouble>
        ensures { MatchResult result (λ book. LeadTo bytes.now book.pad.log book.pad.made.times)
            (λ trouble. IsFault bytes.now trouble) }
    {
        let name = match pad_in(alloc, bytes) {
            Ok(name) => name,
            Err(_) => return Err(Trouble::Memory),
        };
        match load_pad(alloc, name.as_str(), bytes) {
            Ok(loaded) => begin(alloc, loaded, name, bytes),
            Err(trouble) => Err(trouble),
        }
    }

    /// The number of revisions after the empty one. Each is made by one operation.
    pub fn revision(&self) -> u64
        ensures { result ≡ length self.now.pad.log }
    {
        self.pad.revision()
    }

    /// The number of the revision that is asked for.
    pub fn number_of(&mut self, alloc: Global, asked: RevisionChoice) -> Result<u64, Trouble>
        ensures told { IfOk result
            (λ rev. rev ≡ choices.number_of asked self.old.pad.log self.old.pad.made.times) }
        ensures kept { OnOk result (self.new.pad.log ≡ self.old.pad.log) }
        ensures fault { IfErr result IsNoDamage }
    {
        match asked {
            RevisionChoice::Present => Ok(self.revision()),
            RevisionChoice::Number(rev) => Ok(u64::from(rev)),
            RevisionChoice::At(moment) => self.revision_at(alloc, moment),
        }
    }

    // The last revision that was made not later than a moment, in milliseconds since 1970.
    fn revision_at(&mut self, alloc: Global, moment: u64) -> Result<u64, Trouble>
        ensures told { IfOk result (λ rev. rev ≡ count_until moment self.old.pad.made.times) }
        ensures kept { OnOk result (self.new.pad.log ≡ self.old.pad.log) }
        ensures fault { IfErr result IsNoDamage }
    {
        let Ok(moments) = one(alloc, moment) else {
            return Err(Trouble::Memory);
        };
        let act = Act::RevsAt { moments };
        match self.ask(alloc, &act)? {
            PadReply::RevsAt { revs, .. } => match revs.as_slice() {
                [rev] => Ok(*rev),
                _ => Err(Trouble::Unread),
            },
            _ => Err(Trouble::Unread),
        }
    }

    /// The text of a revision; None is the present one.
    pub fn text(&mut self, alloc: Global, rev: Option<u64>) -> Result<Text, Trouble>
        ensures told { IfOk result (λ text. (at : _)
            × (read_text rev self.old.pad.log
            ≡ Ok (reply.Text (length self.old.pad.log) at text))) }
        ensures kept { OnOk result (self.new.pad.log ≡ self.old.pad.log) }
        ensures fault { IfErr result IsNoDamage }
    {
        match self.ask(alloc, &Act::Text { rev })? {
            PadReply::Text { text, .. } => Ok(text),
            _ => Err(Trouble::Unread),
        }
    }

    /// The author runs of a revision; None is the present one.
    pub fn runs(&mut self, alloc: Global, rev: Option<u64>) -> Result<Items<AuthorRun>, Trouble>
        ensures told { IfOk result (λ runs. (at : _)
            × (read_runs rev self.old.pad.log
            ≡ Ok (reply.Runs (length self.old.pad.log) at runs))) }
        ensures kept { OnOk result (self.new.pad.log ≡ self.old.pad.log) }
        ensures fault { IfErr result IsNoDamage }
    {
        match self.ask(alloc, &Act::Runs { rev })? {
            PadReply::Runs { runs, .. } => Ok(runs),
            _ => Err(Trouble::Unread),
        }
    }

    /// The comments of a revision, in ascending order of name; None is the present one.
    pub fn comments(&mut self, alloc: Global, rev: Option<u64>) -> Result<Items<Shown>, Trouble>
        ensures told { IfOk result (λ comments. (at : _)
            × (read_comments rev self.old.pad.log
            ≡ Ok (reply.Comments (length self.old.pad.log) at comments))) }
        ensures kept { OnOk result (self.new.pad.log ≡ self.old.pad.log) }
        ensures fault { IfErr result IsNoDamage }
    {
        match self.ask(alloc, &Act::Comments { rev })? {
            PadReply::Comments { comments, .. } => Ok(comments),
            _ => Err(Trouble::Unread),
        }
    }

    /// The changes from the text of one revision to that of a later one.
    pub fn changes(&mut self, alloc: Global, rev: u64, to: u64) -> Result<Items<Piece>, Trouble>
        ensures told { IfOk result (λ pieces. (notes : _)
            × (read_changes rev (Some to) 0 self.old.pad.log
            ≡ Ok (reply.Changes (length self.old.pad.log) rev to pieces notes))) }
        ensures kept { OnOk result (self.new.pad.log ≡ self.old.pad.log) }
        ensures fault { IfErr result IsNoDamage }
    {
        let act = Act::Changes {
            rev,
            to: Some(to),
            wait: 0,
        };
        match self.ask(alloc, &act)? {
            PadReply::Changes { pieces, .. } => Ok(pieces),
            _ => Err(Trouble::Unread),
        }
    }

    /// The guests that have a display name, in the order in which they first had one.
    pub fn guests(&mut self, alloc: Global) -> Result<Items<Guest>, Trouble> {
        match self.ask(alloc, &Act::Guests)? {
            PadReply::Guests { guests, .. } => Ok(guests),
            _ => Err(Trouble::Unread),
        }
    }

    /// The number of characters of the present revision.
    pub fn length(&mut self, alloc: Global) -> Result<u64, Trouble> {
        match self.ask(alloc, &Act::Revs)? {
            PadReply::Revs { length, .. } => Ok(length),
            _ => Err(Trouble::Unread),
        }
    }

    // Makes an act on the pad as its owner.
    fn ask(&mut self, alloc: Global, act: &Act) -> Result<PadReply, Trouble>
        ensures told { IfOk result (λ answer. IsTold act.now answer self.old.pad self.new.pad) }
        ensures fault { IfErr result IsNoDamage }
    {
        let event = PadEvent {
            pad: self.name.as_str(),
            who: &self.owner,
            visit: Some(self.visit),
            act,
        };
        match self.pad.step(alloc, &event) {
            Ok(answer) => Ok(answer),
            Err(refusal) => Err(Trouble::of(refusal)),
        }
    }
}

// One number as a list.
fn one(alloc: Global, number: u64) -> Result<Items<u64>, AllocError>
    ensures { IfOk result (λ numbers. numbers ≡ number ∷ []) }
{
    let mut numbers = Items::new(alloc);
    numbers.push(number)?;
    Ok(numbers)
}

// Loads the pad with this name from the bytes of its file.
fn load_pad(alloc: Global, name: &str, bytes: &[u8]) -> Result<Loaded<BlockSeq>, Trouble>
    ensures { MatchResult result (λ loaded. LeadTo bytes.now loaded.pad.log
        loaded.pad.made.times)
        (λ trouble. IsFault bytes.now trouble) }
{
    match load(alloc, 1, DEFAULT_PRESENT, name, bytes) {
        Ok(loaded) => Ok(loaded),
        Err(damage) => Err(Trouble::of_damage(damage)),
    }
}

// Lets the owner join the pad that was loaded from these bytes.
fn begin(
    alloc: Global,
    loaded: Loaded<BlockSeq>,
    name: Name,
    bytes: &[u8],
) -> Result<InspectedPad, Trouble>
    ensures { MatchResult result (λ book. (book.pad.log ≡ loaded.pad.log)
        × (book.pad.made.times ≡ loaded.pad.made.times)) IsNoDamage }
{
    let whole = bytes.len().min(loaded.whole as usize);
    match owner_in(alloc, &bytes[..whole]) {
        Ok(owner) => enter(alloc, loaded, name, Who::Author(owner)),
        Err(_) => Err(Trouble::Memory),
    }
}

// The same for the owner with this name.
fn enter(
    alloc: Global,
    mut loaded: Loaded<BlockSeq>,
    name: Name,
    owner: Who,
) -> Result<InspectedPad, Trouble>
    ensures { MatchResult result (λ book. (book.pad.log ≡ loaded.pad.log)
        × (book.pad.made.times ≡ loaded.pad.made.times)) IsNoDamage }
{
    match join(alloc, &mut loaded.pad, name.as_str(), &owner) {
        Ok(visit) => Ok(InspectedPad {
            pad: loaded.pad,
            name,
            owner,
            visit,
            sum: loaded.sum,
            whole: loaded.whole,
            cut: loaded.cut,
        }),
        Err(trouble) => Err(trouble),
    }
}

// Lets an author join a pad, and returns the visit.
fn join(alloc: Global, pad: &mut Pad<BlockSeq>, name: &str, who: &Who) -> Result<u64, Trouble>
    ensures { MatchResult result (λ _. (pad.new.log ≡ pad.old.log)
        × (pad.new.made.times ≡ pad.old.made.times)) IsNoDamage }
{
    let event = PadEvent {
        pad: name,
        who,
        visit: None,
        act: &Act::Join,
    };
    match pad.step(alloc, &event) {
        Ok(PadReply::Joined { visit, .. }) => Ok(visit),
        Ok(_) => Err(Trouble::Unread),
        Err(refusal) => Err(Trouble::of(refusal)),
    }
}
