ghost use Rattle.std.specs.Prelude.{◌≡◌, ◌<◌, [], ◌∷◌, ◌++◌, List, ◌-◌, Bool, length, map, vec_len, OnOk, count_by, take, drop};
ghost use Rattle.std.specs.List.{AllByRecursion, position};
ghost use Rattle.std.specs.Vec.{vec_capacity};
ghost use Rattle.pad_model.specs.declared.op.Op.{Op};
ghost use Rattle.op_log.specs.Track.{mark_of, marks_of};
ghost use Rattle.op_log.specs.Index.{IsIndex, HasRoom, IsTold, kept, has_origin, earlier, places_of};

use crate::track::{Mark, Track, last_of};
use pad_model::OpName;
use std::alloc::AllocError;
use std::mem;

/// The place of an origin's track.
pub fn track_of(tracks: &[Track], origin: u16) -> Option<usize>
    ensures { result ≡ position (λ track. has_origin origin (kept track)) tracks.now }
{
    tracks.iter().position(|track| origin == track.origin)
}

/// The marks of an origin.
pub fn marks_of(tracks: &[Track], origin: u16) -> &[Mark]
    ensures { (ops : List Op) → IsIndex (map kept tracks.now) ops
        → result.now ≡ marks_of origin ops }
{
    match track_of(tracks, origin) {
        Some(at) => tracks[at].marks.as_slice(),
        None => &[],
    }
}

/// Makes room for one more mark in each track, whichever gets it.
pub fn reserve_marks(tracks: &mut [Track]) -> Result<(), AllocError>
    ensures same { map kept tracks.new ≡ map kept tracks.old }
    ensures ok { OnOk result (AllByRecursion HasRoom tracks.new) }
{
    for track in tracks.iter_mut() {
        track.marks.reserve(1)?;
    }
    Ok(())
}

/// Marks the operation at a place. `fresh` is the memory of the marks of a new origin.
pub fn enter(tracks: &mut Vec<Track>, fresh: &mut Vec<Mark>, place: u64, name: OpName)
    requires tracks { vec_len tracks.old < vec_capacity tracks.old }
    requires marks { AllByRecursion HasRoom tracks.old.items }
    requires fresh { vec_len fresh.old < vec_capacity fresh.old }
    requires empty { fresh.old.items ≡ [] }
    ensures index { (ops : List Op) (op : Op) → op.name ≡ name → length ops ≡ place
        → IsIndex (map kept tracks.old.items) ops
        → IsIndex (map kept tracks.new.items) (ops ++ op ∷ []) }
    ensures empty { fresh.new.items ≡ [] }
{
    match track_of(tracks, name.origin) {
        Some(at) => add_mark(&mut tracks[at], place, name.number),
        None => {
            let empty = Vec::new(*fresh.allocator());
            let mut track = Track {
                origin: name.origin,
                rises: true,
                marks: mem::replace(fresh, empty),
            };
            add_mark(&mut track, place, name.number);
            tracks.push_reserved(track);
        }
    }
}

fn add_mark(track: &mut Track, place: u64, number: u64)
    requires { HasRoom track.old }
    ensures origin { track.new.origin ≡ track.old.origin }
    ensures marks { track.new.marks.items ≡ track.old.marks.items ++ mark_of place number ∷ [] }
    ensures told { IsTold (kept track.old) → IsTold (kept track.new) }
{
    track.rises = track.rises && last_of(&track.marks) <= number;
    track.marks.push_reserved(Mark { place, number });
}

/// The earlier of two places, if any.
pub fn earlier(a: Option<u64>, b: Option<u64>) -> Option<u64>
    ensures { result ≡ earlier a b }
{
    match (a, b) {
        (Some(a), Some(b)) => Some(a.min(b)),
        (Some(a), None) => Some(a),
        (None, b) => b,
    }
}

/// Counts the places from `start` to `end - 1`. If they are those of a log's operations that pass a test, this is how
/// many operations pass it there.
pub fn count_between(places: &[u64], start: u64, end: u64) -> u64
    ensures { (test : Op → Bool) (ops : List Op) → places.now ≡ places_of test 0 ops
        → result ≡ count_by test (take (end - start) (drop start ops)) }
{
    count_before(places, end).saturating_sub(count_before(places, start))
}

fn count_before(places: &[u64], end: u64) -> u64
    ensures { (test : Op → Bool) (ops : List Op) → places.now ≡ places_of test 0 ops
        → result ≡ count_by test (take end ops) }
{
    places.partition_point(|place| *place < end) as u64
}
