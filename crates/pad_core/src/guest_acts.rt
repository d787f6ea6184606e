//! The display names of guests.
ghost use Rattle.std.specs.Prelude.{◌≡◌};
ghost use Rattle.pad_model.specs.Answers.{Answers, Tells};
ghost use Rattle.pad_core.specs.Guests as guests_spec;

use crate::reply::PadReply;
use guests::{GuestBook, is_guest};
use pad_model::{Name, Refusal, Text};

/// Gives the guest who asks a display name. Any other author is refused with 312: its display name is that of its account.
pub fn introduce(
    guests: &mut GuestBook,
    now: u64,
    author: &Name,
    display: &Text,
) -> Result<PadReply, Refusal>
    ensures { Answers guests.old (guests_spec.introduce now author.now display.now guests.old) result
        guests.new }
{
    if !is_guest(author) {
        return Err(Refusal::Denied);
    }
    guests.introduce(author, display)?;
    Ok(PadReply::Done { now })
}

/// All guests with a display name.
pub fn read_guests(guests: &GuestBook, now: u64) -> Result<PadReply, Refusal>
    ensures { Tells (guests_spec.read_guests now guests.now) result }
{
    let guests = guests.list()?;
    Ok(PadReply::Guests { now, guests })
}
