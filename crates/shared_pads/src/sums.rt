//! The sums of the counts of several seats.
ghost use Rattle.std.specs.Prelude.{◌≡◌, ◌⊎◌, ◌<◌, ◌==◌, IfSome, IfNone, sum_by};
ghost use Rattle.std.specs.List.{list_any};
ghost use Rattle.shared_pads.specs.Seats as seats_spec;

use crate::seat::Seat;

/// The operations and the calls of seats.
#[derive(Clone, Copy)]
pub struct Sums {
    pub operations: u64,
    pub calls: u64,
}

/// Returns the sums of the seats, if they can be counted.
pub fn sums_of(seats: &[Seat]) -> Option<Sums>
    ensures sums { IfSome result (λ sums. (sums.operations
        ≡ sum_by (λ seat. seat.tally.operations) seats.now)
        × (sums.calls ≡ sum_by (λ seat. seat.tally.calls) seats.now)) }
    ensures passes { IfNone result ((u64.MAX < sum_by (λ seat. seat.tally.operations) seats.now)
        ⊎ (u64.MAX < sum_by (λ seat. seat.tally.calls) seats.now)) }
{
    match seats.split_first() {
        None => Some(Sums {
            operations: 0,
            calls: 0,
        }),
        Some((first, rest)) => {
            let sums = sums_of(rest)?;
            Some(Sums {
                operations: first.tally.operations.checked_add(sums.operations)?,
                calls: first.tally.calls.checked_add(sums.calls)?,
            })
        }
    }
}

/// Returns true if no two seats have the same number.
pub fn are_apart(seats: &[Seat]) -> bool
    ensures { result ≡ seats_spec.are_apart seats.now }
{
    match seats.split_first() {
        None => true,
        Some((first, rest)) => !is_among(rest, first.number) && are_apart(rest),
    }
}

fn is_among(seats: &[Seat], number: u32) -> bool
    ensures { result ≡ list_any (λ seat. seat.number == number) seats.now }
{
    seats.iter().any(|seat| seat.number == number)
}
