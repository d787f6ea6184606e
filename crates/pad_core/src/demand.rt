//! Refusals of changes of a revision: the order of the reasons, for one insertion as for many changes.
ghost use Rattle.std.specs.Prelude.{◌≡◌, ◌≤◌, List, false};
ghost use Rattle.pad_model.specs.declared.limits.TheConstants.{MAX_TEXT};
ghost use Rattle.pad_core.specs.Delivered.{IsDelivered};
ghost use Rattle.pad_core.specs.Demand.{Asks};
ghost use Rattle.pad_core.specs.Edits.{edit_refusal, growth_refusal};
ghost use Rattle.pad_core.specs.declared.act.Change as change;

use crate::ledger::Ledger;
use pad_model::{MAX_CHARACTERS, MAX_COUNTER, MAX_OPERATIONS, Refusal, Sequence};

/// The demand of changes of a revision, as far as a refusal depends on it.
#[derive(Clone, Copy)]
pub struct Demand {
    /// True if one of them reaches outside the text of the revision.
    pub is_outside: bool,
    /// True if there is none, or one that does nothing.
    pub is_idle: bool,
    /// True if they are too many, or insert and erase too many characters.
    pub is_too_much: bool,
    /// The number of characters that they insert.
    pub growth: u64,
}

/// Returns the reason changes of a revision are refused, or None. The first refusal that applies is returned.
pub fn first_refusal<S: Sequence>(ledger: &Ledger<S>, rev: u64, demand: Demand) -> Option<Refusal>
    requires { demand.is_too_much ≡ false → demand.growth ≤ MAX_TEXT }
    ensures value { (changes : List change.Change) → Asks rev changes ledger.now demand
        → result ≡ edit_refusal rev changes ledger.now }
    ensures sound { IsDelivered ledger.now }
{
    if ledger.len() < rev {
        return Some(Refusal::NoRevision);
    }
    if demand.is_outside {
        return Some(Refusal::OutOfRange);
    }
    if demand.is_idle {
        return Some(Refusal::Empty);
    }
    if demand.is_too_much {
        return Some(Refusal::TooMuch);
    }
    refuse_growth(ledger, demand.growth)
}

/// The limit of the pad that `growth` more characters would exceed, if any.
fn refuse_growth<S: Sequence>(ledger: &Ledger<S>, growth: u64) -> Option<Refusal>
    requires { growth ≤ MAX_TEXT }
    ensures { result ≡ growth_refusal growth ledger.now }
{
    let now = ledger.len();
    if MAX_CHARACTERS < ledger.cell_count() + growth {
        return Some(Refusal::PadFull);
    }
    if MAX_COUNTER < ledger.clock() + growth {
        return Some(Refusal::ClockFull);
    }
    if MAX_OPERATIONS <= now {
        return Some(Refusal::LogFull);
    }
    None
}
