//! Moments, as the command line names them.
ghost use Rattle.std.specs.Prelude.{◌≡◌, option_map};
ghost use Rattle.jiff_fmt.specs.Temporal.{pieces_view, time_or_midnight, time_parts};
ghost use Rattle.pad_store.specs.Moments as moments;

use jiff::Timestamp;
use jiff::civil::{Date, DateTime, Time};
use jiff::fmt::temporal::{Pieces, parse_pieces};
use jiff::tz::Offset;

/// The nanoseconds of a millisecond.
const MILLISECOND: u128 = 1_000_000;

/// The milliseconds from 1970 to the moment that a text names, if it names one. Without a time it is midnight, and without
/// an offset the time is in UTC.
pub fn moment_of(text: &str) -> Option<u64>
    ensures { result ≡ moments.moment_of text.now }
{
    match parse_pieces(text.as_bytes()) {
        Ok(pieces) => moment_with(pieces),
        Err(_) => None,
    }
}

// The moment that the parts of a text name.
fn moment_with(pieces: Pieces<'_>) -> Option<u64>
    ensures { result ≡ moments.moment_with (pieces_view pieces.entry) }
{
    if pieces.time_zone_annotation.is_some() {
        return None;
    }
    match instant_with(pieces) {
        Some(instant) => millis_of(instant),
        None => None,
    }
}

// The instant at which a clock with the offset of a text shows its date and time.
fn instant_with(pieces: Pieces<'_>) -> Option<Timestamp>
    ensures { option_map (λ t. t.nanosecond) result ≡ moments.instant_with (pieces_view pieces.entry) }
{
    let shown = DateTime::from_parts(Date::from_plain(pieces.date), time_of(pieces));
    match offset_of(pieces).to_timestamp(shown) {
        Ok(instant) => Some(instant),
        Err(_) => None,
    }
}

// The time of a text, or midnight.
fn time_of(pieces: Pieces<'_>) -> Time
    ensures { time_parts result ≡ time_or_midnight (pieces_view pieces.entry).time }
{
    match pieces.time {
        Some(time) => Time::from_plain(time),
        None => Time::MIN,
    }
}

// The offset of a text, or that of UTC.
fn offset_of(pieces: Pieces<'_>) -> Offset
    ensures { result.seconds ≡ moments.seconds_of (pieces_view pieces.entry).offset }
{
    match pieces.offset {
        Some(offset) => Offset::from_plain(offset.to_numeric_offset()),
        None => Offset::UTC,
    }
}

// The whole milliseconds from 1970 to an instant that is not before.
fn millis_of(instant: Timestamp) -> Option<u64>
    ensures { result ≡ moments.millis_of instant.nanosecond }
{
    match u128::try_from(instant.as_nanosecond()) {
        Ok(nanos) => Some((nanos / MILLISECOND) as u64),
        Err(_) => None,
    }
}
