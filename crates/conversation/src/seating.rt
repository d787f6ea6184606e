//! Seats for the threads of a server, made before any of them starts.
ghost use Rattle.std.specs.Prelude.{◌≡◌, ◌⊎◌, IfErr};
ghost use Rattle.conversation.specs.Seating.{TakesAllSeats, TakesSeats};

use pad_model::{Refusal, Sequence};
use shared_pads::{Seat, SharedPad};
use std::alloc::Global;
use std::sync::Wait;

/// Appends a seat at each cell of a row, in order.
///
/// Refusals: 317 if a pad has made all its seats, and 900. The seats that were made before are kept.
pub fn take_seats<S: Sequence, R: Wait>(
    rt: &R,
    cells: &[SharedPad<S>],
    seats: &mut Vec<Seat>,
) -> Result<(), Refusal>
    ensures seats { TakesSeats cells.now seats.old.items result seats.new.items }
    ensures refusal { IfErr result (λ e. (e ≡ Refusal.SeatsGone) ⊎ (e ≡ Refusal.Memory)) }
{
    for cell in cells {
        seats.reserve(1)?;
        seats.push_reserved(cell.seat(rt)?);
    }
    Ok(())
}

/// Appends such seats to `crew`, for each of `threads` threads.
///
/// Refusals: 317 if a pad has made all its seats, and 900. The seats that were made before are kept, including those of
/// the thread that did not get all of its seats.
pub fn take_all_seats<S: Sequence, R: Wait>(
    rt: &R,
    alloc: Global,
    cells: &[SharedPad<S>],
    threads: u32,
    crew: &mut Vec<Vec<Seat>>,
) -> Result<(), Refusal>
    ensures crew { TakesAllSeats cells.now threads crew.old.items result crew.new.items }
    ensures refusal { IfErr result (λ e. (e ≡ Refusal.SeatsGone) ⊎ (e ≡ Refusal.Memory)) }
{
    for _thread in 0..threads {
        crew.reserve(1)?;
        let mut seats = Vec::new(alloc);
        let taken = take_seats(rt, cells, &mut seats);
        crew.push_reserved(seats);
        taken?;
    }
    Ok(())
}
