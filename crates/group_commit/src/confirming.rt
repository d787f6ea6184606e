//! The notes that a standby has, and the condition that replies wait for.
ghost use Rattle.std.specs.Prelude.{◌≡◌, ℕ, None, Some, false, is_some, IfSome};
ghost use Rattle.group_commit.specs.Confirmations.{AreCopied, IsConfirmation, IsPolicy, IsReached, MayGoOn, alone_after, changes, heard, is_unasked, lost_after, machines_of, word_of};

use std::fmt;
use std::fmt::{Display, Formatter};

/// The policy for replies while the standby lacks notes that they reveal.
#[derive(Clone, Copy, PartialEq, Eq)]
pub enum Confirm {
    /// They do not wait for a standby.
    Never,
    /// They wait for this many seconds. Then the server goes on alone, until the standby has caught up.
    Within { seconds: u32 },
    /// They wait. If the standby does not answer, the server ends.
    Strict,
}

/// The standby has the first `number` notes, or replies that reveal them need not wait for it. Only `Confirming` and
/// `Confirm::unasked` say so.
#[derive(Drop)]
pub struct Confirmed {
    number: u64,
}

impl Confirmed {
    /// The number of these notes, which are the first ones of the server.
    pub fn number(&self) -> u64
        ensures { result ≡ self.now.number }
    {
        self.number
    }
}

impl Display for Confirm {
    ghost output = { λ asked. Some (word_of asked) };

    fn fmt<W: fmt::Write>(&self, f: &mut Formatter<W>) -> fmt::Result {
        match *self {
            Confirm::Never => f.write_str("never"),
            Confirm::Within { seconds } => write!(f, "{seconds}"),
            Confirm::Strict => f.write_str("strict"),
        }
    }
}

impl Confirm {
    /// Confirms the first `number` notes if replies never wait for a standby: then nobody has to ask how many it has.
    pub fn unasked(self, number: u64) -> Option<Confirmed>
        ensures asked { is_some result ≡ is_unasked self }
        ensures number { IfSome result (λ confirmed. confirmed.number ≡ number) }
    {
        match self {
            Confirm::Never => Some(Confirmed { number }),
            Confirm::Within { .. } | Confirm::Strict => None,
        }
    }
}

/// The next step of a caller that waits for the standby.
#[derive(Drop)]
pub enum Confirmation {
    /// Go on.
    Given(Confirmed),
    /// Wait until the standby has more, or for as long as `Confirm` says. Then give up.
    Waits,
    /// Give up: the server ends.
    Lost,
}

/// The state that all threads share: the number of notes that the standby has.
#[derive(Drop)]
pub struct Confirming {
    policy: Confirm,
    // The copy has this many first notes, and everything that was there at the start. None: it may lack some of the
    // latter.
    copied: Option<u64>,
    // The server goes on without the standby.
    is_alone: bool,
    // The standby did not answer, and nothing is confirmed any more.
    is_lost: bool,
    ghost policy_kept: { IsPolicy policy is_alone },
}

impl Confirming {
    /// The standby is not known to have anything.
    pub fn new(policy: Confirm) -> Confirming
        ensures { (result.policy ≡ policy) × (result.copied ≡ None) × (result.is_alone ≡ false)
            × (result.is_lost ≡ false) }
    {
        Confirming {
            policy,
            copied: None,
            is_alone: false,
            is_lost: false,
        }
    }

    /// Returns the next step of a caller that waits until the standby has the first `number` notes.
    pub fn next_step(&self, number: u64) -> Confirmation
        ensures { IsConfirmation number self.now.policy self.now.copied self.now.is_alone self.now.is_lost result }
    {
        if self.is_lost {
            return Confirmation::Lost;
        }
        let has_all = match self.copied {
            Some(copied) => number <= copied,
            None => false,
        };
        if has_all || self.is_alone || self.policy == Confirm::Never {
            Confirmation::Given(Confirmed { number })
        } else {
            Confirmation::Waits
        }
    }

    /// Returns how many of the first `most` notes may be revealed. Nobody waits for it.
    pub fn reach(&self, most: u64) -> Confirmation
        ensures { IsReached most self.now.policy self.now.copied self.now.is_alone self.now.is_lost result }
    {
        if self.is_lost {
            return Confirmation::Lost;
        }
        if self.is_alone || self.policy == Confirm::Never {
            return Confirmation::Given(Confirmed { number: most });
        }
        match self.copied {
            Some(copied) => Confirmation::Given(Confirmed {
                number: most.min(copied),
            }),
            None => Confirmation::Waits,
        }
    }

    /// The number of machines that keep what is answered now: 2 while a reply waits until the standby has the notes
    /// that it reveals, otherwise 1, this one. It is also 1 before the standby has everything that was there at the
    /// start.
    pub fn machines(&self) -> u32
        ensures counted { result ≡ machines_of self.now.policy self.now.copied self.now.is_alone self.now.is_lost }
        ensures two { result ≡ 2 → (number : ℕ) → MayGoOn number self.now.policy self.now.copied self.now.is_alone
            → AreCopied number self.now.copied }
    {
        let waits = self.policy != Confirm::Never && !self.is_alone && !self.is_lost;
        if waits && self.copied.is_some() { 2 } else { 1 }
    }

    /// The number of notes that the standby has, which are the first ones of the server. None: it may lack something
    /// that was there at the start.
    pub fn copied(&self) -> Option<u64>
        ensures { result ≡ self.now.copied }
    {
        self.copied
    }

    /// The standby has said that it has synced the first `mark` notes.
    pub fn hear(&mut self, mark: u64)
        ensures { (self.new.copied ≡ Some (heard mark self.old.copied)) × (self.new.policy ≡ self.old.policy)
            × (self.new.is_alone ≡ self.old.is_alone) × (self.new.is_lost ≡ self.old.is_lost) }
    {
        self.copied = match self.copied {
            Some(copied) => Some(copied.max(mark)),
            None => Some(mark),
        };
    }

    /// The standby has caught up: replies wait for it again. Returns whether the server was alone.
    pub fn catch_up(&mut self) -> bool
        ensures { (result ≡ self.old.is_alone) × (self.new.is_alone ≡ false) × (self.new.copied ≡ self.old.copied)
            × (self.new.policy ≡ self.old.policy) × (self.new.is_lost ≡ self.old.is_lost) }
    {
        let was_alone = self.is_alone;
        self.is_alone = false;
        was_alone
    }

    /// One who waited has waited long enough: the server goes on alone, or ends. Returns whether this changes anything.
    pub fn give_up(&mut self) -> bool
        ensures copied { (self.new.copied ≡ self.old.copied) × (self.new.policy ≡ self.old.policy) }
        ensures alone { self.new.is_alone ≡ alone_after self.old.policy self.old.is_alone }
        ensures lost { self.new.is_lost ≡ lost_after self.old.policy self.old.is_lost }
        ensures changes { result ≡ changes self.old.policy self.old.is_alone self.old.is_lost }
    {
        match self.policy {
            Confirm::Never => false,
            Confirm::Within { .. } => {
                let was_alone = self.is_alone;
                self.is_alone = true;
                !was_alone
            }
            Confirm::Strict => {
                let was_lost = self.is_lost;
                self.is_lost = true;
                !was_lost
            }
        }
    }
}
