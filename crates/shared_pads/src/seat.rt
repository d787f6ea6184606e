//! A seat at a shared pad, and what was counted of its calls.
ghost use Rattle.std.specs.Prelude.{◌≡◌, ◌↔◌, ◌+◌, ◌≤◌, ◌<◌, IsTrue, None};
ghost use Rattle.shared_pads.specs.Seats.{counted, uncounted};
ghost use Rattle.shared_pads.specs.Seats as seats;

use pad_core::{Act, PadReply, Reply, Request};
use pad_model::{OpName, Refusal};

/// The most seats that a pad makes while it is shared.
pub const MAX_SEATS: u32 = 96;

/// An edit that was answered: its operation has this name, and made this revision.
#[derive(Clone, Copy, PartialEq, Eq)]
pub struct LastEdit {
    pub name: OpName,
    pub rev: u64,
}

/// The counts of the calls of one seat.
#[derive(Clone, Copy, PartialEq, Eq)]
pub struct SeatTally {
    /// The calls that were made.
    pub calls: u64,
    /// The operations that they delivered.
    pub operations: u64,
    /// The last edit of its own that was answered.
    pub last: Option<LastEdit>,
}

impl SeatTally {
    /// No call was made yet.
    pub fn new() -> SeatTally
        ensures { result ≡ uncounted }
    {
        SeatTally {
            calls: 0,
            operations: 0,
            last: None,
        }
    }

    /// Returns true if it equals the other.
    pub fn is_same(self, other: SeatTally) -> bool
        ensures { IsTrue result ↔ (self ≡ other) }
    {
        self == other
    }

    /// The tally with one more call, which delivered this many operations and may have been an edit.
    pub fn with_call(self, operations: u64, edit: Option<LastEdit>) -> SeatTally
        requires calls { self.calls < u64.MAX }
        requires operations { self.operations + operations ≤ u64.MAX }
        ensures { result ≡ counted operations edit self }
    {
        SeatTally {
            calls: self.calls + 1,
            operations: self.operations + operations,
            last: last_after(edit, self.last),
        }
    }

    /// The tally with one more call, by which a session left.
    pub fn with_departure(self) -> SeatTally
        requires { self.calls < u64.MAX }
        ensures { result ≡ counted 0 None self }
    {
        SeatTally {
            calls: self.calls + 1,
            ..self
        }
    }
}

/// A seat at a shared pad, which can't be copied. The pad keeps the same tally of it.
#[derive(Drop)]
pub struct Seat {
    pub(crate) cell: u32,
    pub(crate) number: u32,
    pub(crate) base: u64,
    pub(crate) tally: SeatTally,
}

impl Seat {
    /// The cell of its pad.
    pub fn cell(&self) -> u32
        ensures { result ≡ self.now.cell }
    {
        self.cell
    }

    /// Returns the counts of its calls.
    pub fn tally(&self) -> SeatTally
        ensures { result ≡ self.now.tally }
    {
        self.tally
    }
}

fn last_after(edit: Option<LastEdit>, before: Option<LastEdit>) -> Option<LastEdit>
    ensures { result ≡ seats.last_after edit before }
{
    match edit {
        Some(_) => edit,
        None => before,
    }
}

/// The effect of an act on the operations of a pad.
#[derive(Clone, Copy)]
pub enum Effect {
    /// It makes one.
    Makes,
    /// It takes one of another server.
    Takes,
    /// It leaves them unchanged.
    Keeps,
}

fn effect_of(act: &Act) -> Effect
    ensures { result ≡ seats.effect_of act.now }
{
    match act {
        Act::Insert { .. }
        | Act::Delete { .. }
        | Act::Edit { .. }
        | Act::Comment { .. }
        | Act::Resolve { .. } => Effect::Makes,
        Act::Push { .. } => Effect::Takes,
        _ => Effect::Keeps,
    }
}

/// The edit that the answer to a request reports, if any.
pub fn edit_of(request: &Request, answer: &Result<Option<Reply>, Refusal>) -> Option<LastEdit>
    ensures { result ≡ seats.edit_of request.now answer.now }
{
    let Request::On { act, .. } = request else {
        return None;
    };
    match effect_of(act) {
        Effect::Makes => edit_told(answer),
        Effect::Takes | Effect::Keeps => None,
    }
}

fn edit_told(answer: &Result<Option<Reply>, Refusal>) -> Option<LastEdit>
    ensures { result ≡ seats.edit_told answer.now }
{
    match answer {
        Ok(Some(Reply::Pad(PadReply::Made { now, name } | PadReply::Changed { now, name, .. }))) =>
            Some(LastEdit {
                name: *name,
                rev: *now,
            }),
        _ => None,
    }
}
