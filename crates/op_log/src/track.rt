ghost use Rattle.std.specs.Prelude.{◌≡◌, ◌==◌, true, option_map};
ghost use Rattle.std.specs.List.{find};
ghost use Rattle.op_log.specs.Track.{IsRising, is_above, last_number};

/// One operation of an origin: its place in the log, and its number.
#[derive(Clone, Copy)]
pub struct Mark {
    pub place: u64,
    pub number: u64,
}

/// The marks of an origin's operations, in the order of the log.
#[derive(Drop)]
pub struct Track {
    pub origin: u16,
    /// True if no number is below an earlier one. Delivery keeps it so.
    pub rises: bool,
    pub marks: Vec<Mark>,
}

/// The last number that is marked, or 0.
pub fn last_of(marks: &[Mark]) -> u64
    ensures { result ≡ last_number 0 marks.now }
{
    match marks.last() {
        Some(mark) => mark.number,
        None => 0,
    }
}

/// The first place from `from` on whose number is above `count`. Where numbers rise along the marks as places do, those that
/// cannot be meant are passed over by halving.
pub fn next_above(track: &Track, from: u64, count: u64) -> Option<u64>
    requires { track.now.rises ≡ true → IsRising track.now.marks.items }
    ensures { result ≡ option_map (λ mark. mark.place)
        (find (is_above from count) track.now.marks.items) }
{
    let marks = track.marks.as_slice();
    if track.rises {
        let start = marks.partition_point(|mark| mark.place < from || mark.number <= count);
        return first_above(&marks[start..], from, count);
    }
    first_above(marks, from, count)
}

fn first_above(marks: &[Mark], from: u64, count: u64) -> Option<u64>
    ensures { result ≡ option_map (λ mark. mark.place) (find (is_above from count) marks.now) }
{
    let mark = marks
        .iter()
        .find(|mark| from <= mark.place && mark.number > count)?;
    Some(mark.place)
}

/// The first place with this number.
pub fn place_of(track: &Track, number: u64) -> Option<u64>
    requires { track.now.rises ≡ true → IsRising track.now.marks.items }
    ensures { result ≡ option_map (λ mark. mark.place)
        (find (λ mark. mark.number == number) track.now.marks.items) }
{
    let marks = track.marks.as_slice();
    if track.rises {
        let start = marks.partition_point(|mark| mark.number < number);
        return first_numbered(&marks[start..], number);
    }
    first_numbered(marks, number)
}

fn first_numbered(marks: &[Mark], number: u64) -> Option<u64>
    ensures { result ≡ option_map (λ mark. mark.place)
        (find (λ mark. mark.number == number) marks.now) }
{
    let mark = marks.iter().find(|mark| mark.number == number)?;
    Some(mark.place)
}
