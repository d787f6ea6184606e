//! One pad.
ghost use Rattle.std.specs.Prelude.{◌≡◌, ◌⊎◌, ℕ, ◌+◌, ◌≤◌, List, [], length, drop, IsTrue, IfOk, IfSome, OnOk, Some, None, Err, MatchResult, false, is_some, option_copied, option_map, unwrap_or};
ghost use Rattle.pad_model.specs.Answers.{Answers};
ghost use Rattle.op_log.specs.Made.{last_visit, nothing_made};
ghost use Rattle.op_log.specs.Times.{IsRising};
ghost use Rattle.pad_model.specs.Checked.{is_name};
ghost use Rattle.pad_model.specs.declared.limits.TheConstants.{MAX_REPLICA};
ghost use Rattle.pad_model.specs.Seen.{count_in};
ghost use Rattle.pad_core.specs.Closing.{is_closed};
ghost use Rattle.pad_core.specs.Counts.{vector_of};
ghost use Rattle.pad_core.specs.Delivered.{IsDelivered};
ghost use Rattle.pad_core.specs.Laws.{LastReadsAlike};
ghost use Rattle.pad_model.specs.declared.who.Who.TheVariants as Who;
ghost use Rattle.pad_core.specs.declared.act.Act.{Act};
ghost use Rattle.pad_core.specs.Listing.{listing};
ghost use Rattle.pad_core.specs.Times as times_spec;
ghost use Rattle.pad_core.specs.Machine.{IsAdmitted, IsPad, name_of, nobody_present};
ghost use Rattle.pad_core.specs.Machine as machine;
ghost use Rattle.pad_core.specs.Restart as restart_spec;
ghost use Rattle.pad_core.specs.Ran.{IsCutShort, Stepped, Ran, FoundMemory, takes_memory};
ghost use Rattle.pad_core.specs.Ran as ran;

use crate::act::Act;
use crate::admit::{author_refusal, need_of, nobody_refusal};
use crate::closing::set_closed;
use crate::edit::{delete, edit, insert};
use crate::event::{Claim, PadEvent};
use crate::exchange::{pull, read_vector};
use crate::grants::{grant, hand, read_rights};
use crate::guest_acts::{introduce, read_guests};
use crate::ledger::Ledger;
use crate::marks::{mark, read_marks};
use crate::note::{comment, resolve};
use crate::owned::{Owned, own};
use crate::push::push;
use crate::reads::{
    read_birth, read_changes, read_comments, read_entries, read_revs, read_revs_at, read_runs,
    read_text, read_times,
};
use crate::reply::{Listed, PadReply};
use crate::restart::{
    close_again, deliver_again, grant_again, hand_again, introduce_again, mark_again, own_again,
    visit_again,
};
use crate::visits::{depart, join, leave, put_caret, read_who, rejoin};
use crate::writer::{Passage, Writer};
use guests::{Guest, is_guest};
use holdback::Hold;
use named_revisions::NamedRevision;
use op_log::MadeList;
use pad_model::{Items, Name, Op, Refusal, Sequence, Version, Who};
use presence::PresenceBook;
use rights::{Grantee, Right};
use std::alloc::Global;
use std::marker::Model;

/// A pad: its name and rights once it is claimed, its operations and those that wait for others, who is present, and when
/// and in which visit each operation was made here.
#[derive(Drop)]
pub struct Pad<S: Sequence> {
    owned: Option<Owned>,
    replica: u16,
    ledger: Ledger<S>,
    held: Hold,
    presence: PresenceBook,
    /// The last time that was reported to it, in milliseconds since 1970.
    clock: u64,
    made: MadeList,
}

impl<S: Sequence> Model for Pad<S> {
    ghost use Rattle.pad_core.specs.Machine.{Machine, IsWhole};

    ghost Value = { Machine };

    ghost view = { λ p. record {
      owned = p.owned;
      replica = p.replica;
      log = p.ledger;
      held = p.held;
      presence = p.presence;
      clock = p.clock;
      made = p.made.made;
    } };

    ghost invariant = { λ p. IsWhole p.owned p.replica p.held p.presence p.ledger p.made };
}

impl<S: Sequence> Pad<S> {
    /// A pad without a name, on the server with this replica number; at most this many visits may be present at once.
    pub fn new(alloc: Global, replica: u16, present: u64) -> Result<Pad<S>, Refusal>
        requires { 1 ≤ replica }
        ensures { MatchResult result (λ pad. pad
            ≡ record {
              owned = None;
              replica = replica;
              log = [];
              held = [];
              presence = nobody_present present;
              clock = 0;
              made = nothing_made;
            }) (λ e. e ≡ Refusal.Memory) }
    {
        let ledger = Ledger::new(alloc)?;
        Ok(Pad {
            owned: None,
            replica,
            ledger,
            held: Hold::new(alloc),
            presence: PresenceBook::new(alloc, present),
            clock: 0,
            made: MadeList::new(alloc),
        })
    }

    /// The name, once the pad is claimed.
    pub fn name(&self) -> Option<&str>
        ensures value { option_map (λ name. name.now) result ≡ name_of self.now.owned }
        ensures formed { IfSome result (λ name. IsTrue (is_name name.now)) }
    {
        match &self.owned {
            None => None,
            Some(owned) => Some(owned.name.as_str()),
        }
    }

    /// The revision that the last operation made, which is the number of operations.
    pub fn revision(&self) -> u64
        ensures value { result ≡ length self.now.log }
        ensures delivered { IsDelivered self.now.log }
        ensures kept { IsPad self.now.owned self.now.replica self.now.held self.now.presence }
        ensures timed { length self.now.made.times ≡ length self.now.log }
        ensures rising { IsRising self.now.made.times }
    {
        let _made = self.made.len();
        self.ledger.len()
    }

    /// Tells the time, in milliseconds since 1970. Operations that are delivered from now on have it, or the time of the
    /// last operation if that is later.
    pub fn tick(&mut self, clock: u64)
        ensures { self.new ≡ machine.tick clock self.old }
    {
        self.clock = clock;
    }

    /// The time that an operation gets if it is delivered now.
    pub fn time_now(&self) -> u64
        ensures { result ≡ times_spec.time_now self.now.clock self.now.made.times }
    {
        self.clock.max(self.made.last())
    }

    /// The visit in which the last operation was made, or 0.
    pub fn last_visit(&self) -> u64
        ensures { result ≡ last_visit self.now.made }
    {
        self.made.last_visit()
    }

    /// The operations that were delivered.
    pub(crate) fn ledger(&self) -> &Ledger<S>
        ensures { result.now ≡ self.now.log }
    {
        &self.ledger
    }

    /// Gives a pad without a name this name and owner, who is then present. Both are well formed.
    pub fn claim(&mut self, alloc: Global, name: &str, owner: &str) -> Result<Claim, Refusal>
        requires name { IsTrue (is_name name.now) }
        requires owner { IsTrue (is_name owner.now) }
        ensures { Answers self.old (machine.claim name.now owner.now self.old) result self.new }
    {
        if let Some(owned) = &self.owned {
            return Ok(if owned.name.is(name) {
                Claim::Exists
            } else {
                Claim::Other
            });
        }
        own(alloc, &mut self.owned, &mut self.presence, name, owner)
    }

    /// The pad as somebody sees it in a list of pads, or None if it is not listed for them.
    pub fn listing(&self, alloc: Global, who: &Who) -> Result<Option<Listed>, Refusal>
        ensures { MatchResult result (λ told. told ≡ listing who.now self.now)
            (λ e. (e ≡ Refusal.Memory) × IsTrue (is_some (listing who.now self.now))) }
    {
        let Who::Author(reader) = who else {
            return Ok(None);
        };
        let Some(owned) = &self.owned else {
            return Ok(None);
        };
        let Some(right) = owned.rights.right_of(reader) else {
            return Ok(None);
        };
        Ok(Some(Listed {
            name: owned.name.clone()?,
            right,
            now: self.ledger.len(),
            closed: owned.closed,
        }))
    }

    /// Answers an event and makes its changes, or runs out of memory and changes nothing. A push whose release runs out
    /// of memory has made the steps before. `leave`, `caret`, `revs`, and to close or reopen it take no memory.
    pub fn step(&mut self, alloc: Global, event: &PadEvent<'_>) -> Result<PadReply, Refusal>
        ensures { Stepped self.old event.now result self.new }
    {
        let Some(owned) = &self.owned else {
            return Err(Refusal::NoPad);
        };
        if !owned.name.is(event.pad) {
            return Ok(PadReply::Elsewhere);
        }
        match event.who {
            Who::Nobody => Err(nobody_refusal(need_of(event.act))),
            Who::Author(name) => self.author_step(alloc, name, event.visit, event.act),
            Who::Peer { version, .. } => self.peer_act(alloc, *version, event.act),
        }
    }

    /// Ends a visit where it is present and this session's; else it does nothing. It takes no memory.
    pub fn depart(&mut self, pad: &str, who: &Who, visit: u64)
        ensures { self.new ≡ (machine.step pad.now who.now (Some visit) Act.Leave self.old).1 }
    {
        let Some(owned) = &self.owned else {
            return;
        };
        if !owned.name.is(pad) {
            return;
        }
        if let Who::Author(name) = who {
            self.author_leaves(name, visit);
        }
    }

    /// The number of delivered operations of an origin.
    pub fn count(&self, origin: u16) -> u64
        ensures { result ≡ count_in (vector_of self.now.log) origin }
    {
        self.ledger.seen().count(origin)
    }

    /// The operations that made the revisions after this one.
    pub fn since(&self, alloc: Global, revision: u64) -> Result<Items<Op>, Refusal>
        ensures { MatchResult result (λ row. row ≡ drop revision self.now.log)
            (λ e. e ≡ Refusal.Memory) }
    {
        self.ledger.since(alloc, revision)
    }

    /// Claims the pad as it was claimed before a restart. The owner's visit has ended. `visits` tells whether the visit of
    /// each operation is recorded from then on.
    pub fn restore_claim(
        &mut self,
        alloc: Global,
        name: &Name,
        owner: &Name,
        visits: bool,
    ) -> Result<(), Refusal>
        ensures { Answers self.old (restart_spec.restore_claim name.now owner.now visits self.old) result
            self.new }
    {
        if self.owned.is_some() {
            return Err(Refusal::PadExists);
        }
        if !name.is_well_formed() || !owner.is_well_formed() {
            return Err(Refusal::BadName);
        }
        own_again(
            alloc,
            &mut self.owned,
            &mut self.presence,
            name.as_str(),
            owner.as_str(),
            visits,
        )
    }

    /// Gives a right, or takes it away (None), as it was done before a restart.
    pub fn restore_grant(&mut self, grantee: &Grantee, right: Option<Right>) -> Result<(), Refusal>
        ensures { Answers self.old (restart_spec.restore_grant grantee.now right self.old) result self.new }
    {
        if self.owned.is_none() {
            return Err(Refusal::NoPad);
        }
        if !grantee.can_have(right) {
            return Err(Refusal::BadName);
        }
        grant_again(&mut self.owned, grantee, right)
    }

    /// Makes an author the owner, as it was done before a restart.
    pub fn restore_hand(&mut self, author: &Name) -> Result<(), Refusal>
        ensures { Answers self.old (restart_spec.restore_hand author.now self.old) result self.new }
    {
        if self.owned.is_none() {
            return Err(Refusal::NoPad);
        }
        if !author.is_well_formed() {
            return Err(Refusal::BadName);
        }
        hand_again(&mut self.owned, author)
    }

    /// Closes the pad, or opens it again, as it was done before a restart.
    pub fn restore_closed(&mut self, closed: bool) -> Result<(), Refusal>
        ensures { restart_spec.restore_closed closed self.old ≡ (result, self.new) }
    {
        close_again(&mut self.owned, closed)
    }

    /// Gives a revision the name that it had before a restart.
    pub fn restore_mark(&mut self, named: &NamedRevision) -> Result<(), Refusal>
        ensures { Answers self.old (restart_spec.restore_mark named.now self.old) result self.new }
    {
        if self.owned.is_none() {
            return Err(Refusal::NoPad);
        }
        if !named.author.is_well_formed() {
            return Err(Refusal::BadName);
        }
        mark_again(&mut self.owned, self.ledger.len(), named)
    }

    /// Gives a guest the display name that it had before a restart.
    pub fn restore_introduction(&mut self, guest: &Guest) -> Result<(), Refusal>
        ensures { Answers self.old (restart_spec.restore_introduction guest.now self.old) result self.new }
    {
        if self.owned.is_none() {
            return Err(Refusal::NoPad);
        }
        if !guest.author.is_well_formed() || !is_guest(&guest.author) {
            return Err(Refusal::BadName);
        }
        introduce_again(&mut self.owned, guest)
    }

    /// Counts a visit that began before a restart. None: its author is not known.
    pub fn restore_visit(&mut self, alloc: Global, author: Option<&Name>) -> Result<(), Refusal>
        ensures { Answers self.old
            (restart_spec.restore_visit (option_copied author.entry) self.old) result self.new }
    {
        if self.owned.is_none() {
            return Err(Refusal::NoPad);
        }
        match author {
            Some(author) => visit_again(alloc, &mut self.presence, Some(author.as_str())),
            None => visit_again(alloc, &mut self.presence, None),
        }
    }

    /// Delivers an operation that was delivered before a restart, at this time and in this visit, or in none (0). It is refused with 400 if it exceeds a
    /// limit, and with 403 if it is not the next of its origin.
    pub fn restore_operation(
        &mut self,
        alloc: Global,
        op: Op,
        at: u64,
        visit: u64,
    ) -> Result<(), Refusal>
        ensures { Answers self.old (restart_spec.restore_operation op at visit self.old) result self.new }
    {
        let done = deliver_again(alloc, &mut self.ledger, &mut self.made, op);
        self.made.fill(self.ledger.len(), at, visit);
        done
    }

    /// Answers a list of events, one after the other.
    ///
    /// Memory for the replies is allocated first; if there is none, nothing is done.
    pub fn run(
        &mut self,
        alloc: Global,
        events: &[PadEvent<'_>],
    ) -> Result<Vec<Result<PadReply, Refusal>>, Refusal>
        ensures ran { MatchResult result (λ replies. Ran self.old events.now replies.items self.new)
            (λ e. (e ≡ Refusal.Memory) × (self.new ≡ self.old)) }

        // The replies and the pad are the machine's if no event ran out of memory.
        ensures machine { IfOk result (λ replies. FoundMemory replies.items
            → ran.run events.now self.old ≡ (replies.items, self.new)) }

        // The last reply that reads the present text, authors or comments depends on the set of the pad's operations
        // alone: any other pad with the same operations gives the same answer.
        ensures alike { IfOk result (λ replies. LastReadsAlike events.now replies.items
            self.new.log) }
    {
        let mut replies = match Vec::with_capacity(alloc, events.len()) {
            Ok(replies) => replies,
            Err(_) => return Err(Refusal::Memory),
        };
        for event in events {
            let reply = self.step(alloc, event);
            replies.push_reserved(reply);
        }
        let _now = self.revision();
        Ok(replies)
    }

    /// An author's act, unless it is refused.
    fn author_step(
        &mut self,
        alloc: Global,
        name: &Name,
        visit: Option<u64>,
        act: &Act,
    ) -> Result<PadReply, Refusal>
        ensures answers { (owned : _) → self.old.owned ≡ Some owned
            → Answers self.old (machine.author_step owned name.now visit act.now self.old) result
            self.new }
        ensures exact { takes_memory act.now ≡ false → (owned : _) → self.old.owned ≡ Some owned
            → machine.author_step owned name.now visit act.now self.old ≡ (result, self.new) }
    {
        let Some(owned) = &self.owned else {
            return Err(Refusal::NoPad);
        };
        if let Some(refusal) = author_refusal(owned, &self.presence, name, visit, act) {
            return Err(refusal);
        }
        self.author_act(alloc, name, visit, act)
    }

    /// Ends an author's visit, if it is one.
    fn author_leaves(&mut self, name: &Name, visit: u64)
        ensures { (owned : _) → self.old.owned ≡ Some owned
            → self.new ≡ (machine.author_step owned name.now (Some visit) Act.Leave self.old).1 }
    {
        depart(&mut self.presence, name, visit);
    }

    /// Does an act that the author may do.
    fn author_act(
        &mut self,
        alloc: Global,
        name: &Name,
        visit: Option<u64>,
        act: &Act,
    ) -> Result<PadReply, Refusal>
        requires { IsAdmitted self.old.owned self.old.presence name.now visit act.now }
        ensures answers { (owned : _) → self.old.owned ≡ Some owned
            → Answers self.old (machine.author_act owned name.now (unwrap_or visit 0) act.now self.old)
            result self.new }
        ensures exact { takes_memory act.now ≡ false → (owned : _) → self.old.owned ≡ Some owned
            → machine.author_act owned name.now (unwrap_or visit 0) act.now self.old
            ≡ (result, self.new) }
    {
        let visit = visit.unwrap_or(0);
        let ledger = &mut self.ledger;
        let made = &mut self.made;
        let writer = Writer {
            replica: self.replica,
            author: name,
        };
        match act {
            Act::Join => join(alloc, &mut self.presence, ledger.len(), name),
            Act::Rejoin { old } => rejoin(alloc, ledger, made, &mut self.presence, *old, name),
            Act::Leave => leave(&mut self.presence, ledger.len(), visit),
            Act::Caret { rev, at } => put_caret(ledger, &mut self.presence, visit, *rev, *at),
            Act::Who => read_who(alloc, ledger, &self.presence, self.replica),
            Act::Insert { rev, at, text } => {
                let reply = insert(alloc, ledger, made, writer, *rev, *at, text);
                made.fill(ledger.len(), self.clock, visit);
                reply
            }
            Act::Delete { rev, at, len } => {
                let reply = delete(alloc, ledger, made, writer, Passage::new(*rev, *at, *len));
                made.fill(ledger.len(), self.clock, visit);
                reply
            }
            Act::Edit { rev, changes } => {
                let reply = edit(alloc, ledger, made, writer, *rev, changes.as_slice());
                made.fill(ledger.len(), self.clock, visit);
                reply
            }
            Act::Comment { rev, at, len, text } => {
                let passage = Passage::new(*rev, *at, *len);
                let reply = comment(alloc, ledger, made, writer, passage, text);
                made.fill(ledger.len(), self.clock, visit);
                reply
            }
            Act::Resolve { comment } => {
                let reply = resolve(alloc, ledger, made, writer, *comment);
                made.fill(ledger.len(), self.clock, visit);
                reply
            }
            Act::Text { rev } => read_text(alloc, ledger, *rev),
            Act::Runs { rev } => read_runs(alloc, ledger, *rev),
            Act::Comments { rev } => read_comments(alloc, ledger, *rev),
            Act::Changes { rev, to, wait } => read_changes(alloc, ledger, *rev, *to, *wait),
            Act::Revs => read_revs(ledger),
            Act::Entries { from, count, times } => {
                read_entries(alloc, ledger, made.times(), *from, *count, *times)
            }
            Act::Times { from, step, count } => {
                read_times(alloc, ledger, made.times(), *from, *step, *count)
            }
            Act::RevsAt { moments } => read_revs_at(
                alloc,
                ledger,
                made.times(),
                moments.as_slice(),
            ),
            Act::Birth { rev, at } => read_birth(ledger, made.times(), *rev, *at),
            Act::Grant { grantee, right } => match &mut self.owned {
                Some(owned) => grant(&mut owned.rights, ledger.len(), grantee, *right),
                None => Err(Refusal::NoPad),
            },
            Act::Hand { author } => match &mut self.owned {
                Some(owned) => hand(&mut owned.rights, ledger.len(), name, author),
                None => Err(Refusal::NoPad),
            },
            Act::Rights => match &self.owned {
                Some(owned) => read_rights(alloc, &owned.rights, ledger.len(), owned.closed),
                None => Err(Refusal::NoPad),
            },
            Act::SetClosed { closed } => match &mut self.owned {
                Some(owned) => set_closed(owned, &mut self.presence, ledger.len(), *closed),
                None => Err(Refusal::NoPad),
            },
            Act::Mark { rev, text } => match &mut self.owned {
                Some(owned) => {
                    let at = self.clock.max(made.last());
                    mark(&mut owned.marks, ledger.len(), *rev, name, at, text)
                }
                None => Err(Refusal::NoPad),
            },
            Act::Marks => match &self.owned {
                Some(owned) => read_marks(alloc, &owned.marks, ledger.len()),
                None => Err(Refusal::NoPad),
            },
            Act::Introduce { display } => match &mut self.owned {
                Some(owned) => introduce(&mut owned.guests, ledger.len(), name, display),
                None => Err(Refusal::NoPad),
            },
            Act::Guests => match &self.owned {
                Some(owned) => read_guests(&owned.guests, ledger.len()),
                None => Err(Refusal::NoPad),
            },
            Act::Vector | Act::Push { .. } | Act::Pull { .. } => Err(Refusal::NotPeer),
        }
    }

    /// Returns true if an owner has closed the pad.
    fn is_closed(&self) -> bool
        ensures { result ≡ is_closed self.now.owned }
    {
        match &self.owned {
            Some(owned) => owned.closed,
            None => false,
        }
    }

    /// A peer's act on the pad of this name.
    fn peer_act(&mut self, alloc: Global, version: Version, act: &Act) -> Result<PadReply, Refusal>
        ensures { (name : _) (number : ℕ) → name_of self.old.owned ≡ Some name
            → Answers self.old (machine.peer_act version act.now self.old) result self.new
            ⊎ ((result ≡ Err Refusal.Memory)
            × IsCutShort name (Who.Peer number version) act.now self.old self.new) }
    {
        match act {
            Act::Vector => read_vector(&self.ledger, version),
            Act::Push { .. } if self.is_closed() => Err(Refusal::PadClosed),
            Act::Push { op } => {
                let made = &mut self.made;
                let reply = push(
                    alloc,
                    &mut self.ledger,
                    made,
                    &mut self.held,
                    self.replica,
                    op,
                );
                made.fill(self.ledger.len(), self.clock, 0);
                reply
            }
            Act::Pull { seen, max, batch } => {
                pull(alloc, &self.ledger, version, seen, *max, *batch)
            }
            _ => Err(Refusal::NoSession),
        }
    }
}
