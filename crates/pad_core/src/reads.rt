//! Reads of a pad's log by authors.
ghost use Rattle.std.specs.Prelude.{◌≡◌, ℕ, ◌+◌, ◌≤◌, IfOk, length, map};
ghost use Rattle.op_log.specs.Times.{count_until};
ghost use Rattle.pad_model.specs.Answers.{Tells};
ghost use Rattle.pad_core.specs.Reads.{entries_from, entry_of};
ghost use Rattle.pad_core.specs.Reads as reads;

use crate::ledger::Ledger;
use crate::reply::{Kind, LogEntry, PadReply};
use op_log::TimeList;
use pad_model::{Author, Items, Op, Part, Refusal, Sequence};
use std::alloc::{AllocError, Global};

/// The most revisions that one request may list.
pub const MAX_ENTRIES: u64 = 100;

/// The most revisions for whose times one request may ask.
pub const MAX_TIMES: u64 = 1_000;

/// The most moments for whose revisions one request may ask.
pub const MAX_MOMENTS: u64 = 100;

/// The most seconds that an answer may be asked to wait.
pub const MAX_WAIT: u64 = 60;

/// The text of a revision.
pub fn read_text<S: Sequence>(
    alloc: Global,
    ledger: &Ledger<S>,
    asked: Option<u64>,
) -> Result<PadReply, Refusal>
    ensures { Tells (reads.read_text asked ledger.now) result }
{
    let now = ledger.len();
    let rev = asked.unwrap_or(now);
    if now < rev {
        return Err(Refusal::NoRevision);
    }
    let text = ledger.text_at(alloc, rev)?;
    Ok(PadReply::Text { now, rev, text })
}

/// Reads the authors of the text of a revision.
pub fn read_runs<S: Sequence>(
    alloc: Global,
    ledger: &Ledger<S>,
    asked: Option<u64>,
) -> Result<PadReply, Refusal>
    ensures { Tells (reads.read_runs asked ledger.now) result }
{
    let now = ledger.len();
    let rev = asked.unwrap_or(now);
    if now < rev {
        return Err(Refusal::NoRevision);
    }
    let runs = ledger.runs_at(alloc, rev)?;
    Ok(PadReply::Runs { now, rev, runs })
}

/// The comments of a revision.
pub fn read_comments<S: Sequence>(
    alloc: Global,
    ledger: &Ledger<S>,
    asked: Option<u64>,
) -> Result<PadReply, Refusal>
    ensures { Tells (reads.read_comments asked ledger.now) result }
{
    let now = ledger.len();
    let rev = asked.unwrap_or(now);
    if now < rev {
        return Err(Refusal::NoRevision);
    }
    let comments = ledger.comments_at(alloc, rev)?;
    Ok(PadReply::Comments { now, rev, comments })
}

/// Reads the changes that lead from the text of one revision to that of another.
pub fn read_changes<S: Sequence>(
    alloc: Global,
    ledger: &Ledger<S>,
    rev: u64,
    asked: Option<u64>,
    wait: u64,
) -> Result<PadReply, Refusal>
    ensures { Tells (reads.read_changes rev asked wait ledger.now) result }
{
    let now = ledger.len();
    let to = asked.unwrap_or(now);
    if now < to || to < rev {
        return Err(Refusal::NoRevision);
    }
    if MAX_WAIT < wait {
        return Err(Refusal::TooMuch);
    }
    let pieces = ledger.changes(alloc, rev, to)?;
    let notes = ledger.count_notes(rev + 1, to - rev);
    Ok(PadReply::Changes {
        now,
        rev,
        to,
        pieces,
        notes,
    })
}

/// The length of the pad, with and without erased characters.
pub fn read_revs<S: Sequence>(ledger: &Ledger<S>) -> Result<PadReply, Refusal>
    ensures { result ≡ reads.read_revs ledger.now }
{
    let now = ledger.len();
    Ok(PadReply::Revs {
        now,
        cells: ledger.cell_count(),
        length: ledger.len_at(now),
    })
}

/// The operations that made some revisions; with `timed`, also when.
pub fn read_entries<S: Sequence>(
    alloc: Global,
    ledger: &Ledger<S>,
    times: &TimeList,
    from: u64,
    count: u64,
    timed: bool,
) -> Result<PadReply, Refusal>
    ensures { Tells (reads.read_entries from count timed ledger.now times.now.times) result }
{
    let now = ledger.len();
    if from == 0 || now + 1 < from {
        return Err(Refusal::NoRevision);
    }
    if count == 0 {
        return Err(Refusal::Empty);
    }
    if MAX_ENTRIES < count {
        return Err(Refusal::TooMuch);
    }
    let ops = ledger.entries(alloc, from, count)?;
    let entries = list(alloc, from, ops.as_slice(), times, timed)?;
    Ok(PadReply::Entries {
        now,
        entries: Items::from_vec(entries),
    })
}

/// Reads the times at which some revisions were made: `from`, and others each `step` further on.
pub fn read_times<S: Sequence>(
    alloc: Global,
    ledger: &Ledger<S>,
    times: &TimeList,
    from: u64,
    step: u64,
    count: u64,
) -> Result<PadReply, Refusal>
    ensures { Tells (reads.read_times from step count ledger.now times.now.times) result }
{
    let now = ledger.len();
    if from == 0 || now + 1 < from {
        return Err(Refusal::NoRevision);
    }
    if count == 0 || step == 0 {
        return Err(Refusal::Empty);
    }
    if MAX_TIMES < count {
        return Err(Refusal::TooMuch);
    }
    let times = times_at(alloc, times, from - 1, step, count)?;
    Ok(PadReply::Times {
        now,
        times: Items::from_vec(times),
    })
}

/// The times at a place and at those each `step` further on, as far as there are any.
fn times_at(
    alloc: Global,
    times: &TimeList,
    from: u64,
    step: u64,
    count: u64,
) -> Result<Vec<u64>, AllocError>
    ensures { IfOk result (λ list. list.items ≡ reads.times_at times.now.times (reads.places_from from step count)) }
{
    let end = times.len();
    let mut list = Vec::new(alloc);
    let mut place = from;
    for _n in 0..count {
        if let Some(time) = times.get(place) {
            list.push(time)?;
        }
        // Behind the last time there is none, however far.
        place = place.saturating_add(step).min(end);
    }
    Ok(list)
}

/// The last revisions that are not later than some moments.
pub fn read_revs_at<S: Sequence>(
    alloc: Global,
    ledger: &Ledger<S>,
    times: &TimeList,
    moments: &[u64],
) -> Result<PadReply, Refusal>
    ensures { Tells (reads.read_revs_at moments.now ledger.now times.now.times) result }
{
    if moments.is_empty() {
        return Err(Refusal::Empty);
    }
    if MAX_MOMENTS < moments.len() as u64 {
        return Err(Refusal::TooMuch);
    }
    let revs = revs_at(alloc, times, moments)?;
    Ok(PadReply::RevsAt {
        now: ledger.len(),
        revs: Items::from_vec(revs),
    })
}

fn revs_at(alloc: Global, times: &TimeList, moments: &[u64]) -> Result<Vec<u64>, AllocError>
    ensures { IfOk result (λ list. list.items ≡ map (λ moment. count_until moment times.now.times) moments.now) }
{
    let mut list = Vec::new(alloc);
    for moment in moments {
        list.push(times.count_until(*moment))?;
    }
    Ok(list)
}

/// Reads the author of the character that a revision shows at a place, the revision that inserted it, and its time.
pub fn read_birth<S: Sequence>(
    ledger: &Ledger<S>,
    times: &TimeList,
    rev: u64,
    at: u64,
) -> Result<PadReply, Refusal>
    ensures { Tells (reads.read_birth rev at ledger.now times.now.times) result }
{
    let now = ledger.len();
    if now < rev {
        return Err(Refusal::NoRevision);
    }
    let Some(cell) = ledger.shown_cell(rev, at) else {
        return Err(Refusal::OutOfRange);
    };
    Ok(PadReply::Birth {
        now,
        author: cell.author.clone()?,
        rev: cell.born,
        at: time_of(times, cell.born).unwrap_or(0),
    })
}

/// Returns the time at which a revision was made.
fn time_of(times: &TimeList, rev: u64) -> Option<u64>
    ensures { result ≡ reads.time_of rev times.now.times }
{
    times.get(rev.saturating_sub(1))
}

/// The entries of operations, the first of which made the revision `from`.
fn list(
    alloc: Global,
    from: u64,
    ops: &[Op],
    times: &TimeList,
    timed: bool,
) -> Result<Vec<LogEntry>, AllocError>
    requires { from + length ops.now ≤ u64.MAX }
    ensures { IfOk result (λ entries. entries.items ≡ entries_from timed times.now.times from ops.now) }
{
    let mut entries = Vec::new(alloc);
    let mut rev = from;
    for op in ops {
        let at = if timed { time_of(times, rev) } else { None };
        entries.push(entry_of(rev, op, at)?)?;
        rev += 1;
    }
    Ok(entries)
}

fn entry_of(rev: u64, op: &Op, at: Option<u64>) -> Result<LogEntry, AllocError>
    ensures { IfOk result (λ entry. entry ≡ entry_of rev op.now at) }
{
    Ok(LogEntry {
        rev,
        name: op.name,
        author: Author {
            name: op.author.clone()?,
            origin: op.name.origin,
        },
        kind: kind_of(op.parts.as_slice()),
        at,
    })
}

fn kind_of(parts: &[Part]) -> Kind
    ensures { result ≡ reads.kind_of parts.now }
{
    if parts.len() != 1 {
        return Kind::Edit;
    }
    match &parts[0] {
        Part::Insert(_) => Kind::Insert,
        Part::Delete(_) => Kind::Delete,
        Part::Comment { .. } => Kind::Comment,
        Part::Resolve { .. } => Kind::Resolve,
    }
}
