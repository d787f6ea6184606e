//! Threads that note records and wait for them: the earlier notes of a thread are then in its file, and synced.
use crate::memory_files::{CELLS, MemoryFiles, Thread, note_of};
use group_commit::{Commits, Waiters};
use std::alloc::Global;
use std::sync::atomic::Ordering;
use std::sync::{Condvar, Mutex, Wait};
use std::test::Fail;
use std::thread;
use std::time::{Clock, Duration};

// The number of notes of each thread.
const NOTES: u32 = 60;

// The threads that help those that do not wait for rounds.
const HELPERS: u32 = 2;

// The seconds within which a round is told of.
const PATIENCE: u64 = 60;

// The notes' author, whom no line but those of the notes names.
const AUTHORS: [&str; 4] = ["a1", "a2", "a3", "a4"];

// Notes once at one cell after the other, and after each note, that all notes of this author are synced. Returns the
// number of notes that were not.
fn note_all<R: Wait>(
    rt: &R,
    alloc: Global,
    commits: &Commits,
    files: &MemoryFiles,
    author: &str,
) -> Option<u32> {
    let mut missing = 0u32;
    let thread = Thread { rt, files };
    for number in 0..NOTES {
        let cell = number % CELLS;
        let note = note_of(alloc, author).ok()?;
        commits.note(rt, cell, note).ok()?;
        let _kept = commits.settle(rt, &thread).ok()?;
        let found = files.synced_of(rt, cell, author).ok()?;
        if found != (number / CELLS + 1) as usize {
            missing = missing.saturating_add(1);
        }
    }
    Some(missing)
}

#[test]
fn what_was_noted_is_synced(rt: HostRuntime) -> Result<(), Fail> {
    let alloc = rt.alloc();
    let commits = Commits::new(alloc, CELLS)?;
    let files = MemoryFiles::new(alloc, false)?;
    let found = {
        let (rt, commits, files) = (&rt, &commits, &files);
        thread::map_indices(
            rt,
            alloc,
            AUTHORS.len(),
            &|author| { note_all(rt, alloc, commits, files, AUTHORS[author]) },
        )?
    };
    assert!(rt;
        found.as_slice() == [Some(0); 4].as_slice(),
        "{:?}",
        found.as_slice()
    );
    assert!(rt;
        !files.was_shared.load(Ordering::SeqCst),
        "two threads wrote to one file at a time"
    );
    let syncs = files.syncs(&rt);
    assert!(rt; syncs <= 240, "{syncs} syncs for 240 notes");
    Ok(())
}

// Rung whenever a round has ended, for those that do not wait for it in `settle`.
#[derive(Drop)]
struct RoundBell<'r, R> {
    rt: &'r R,
    rings: Mutex<u64>,
    rung: Condvar,
}

impl<R: Wait> Waiters for RoundBell<'_, R> {
    fn wake(&self) {
        let mut rings = self.rings.lock(self.rt);
        *rings = rings.saturating_add(1);
        drop(rings);
        self.rung.notify_all();
    }
}

impl<'r, R: Wait + Clock> RoundBell<'r, R> {
    fn new(rt: &'r R) -> RoundBell<'r, R> {
        RoundBell {
            rt,
            rings: Mutex::new(0),
            rung: Condvar::new(),
        }
    }

    // Waits until these first notes are on the disk. Returns false if nobody told of it in time.
    fn wait(&self, commits: &Commits, number: u64) -> bool {
        let most = Duration::from_secs(PATIENCE);
        let rings = self.rings.lock(self.rt);
        let (_rings, waited) = self.rung.wait_timeout_while(
            self.rt,
            rings,
            most,
            |_rings| !is_kept(self.rt, commits, number),
        );
        !waited.timed_out()
    }
}

// Returns true if these first notes are on the disk.
fn is_kept<R: Wait>(rt: &R, commits: &Commits, number: u64) -> bool {
    match commits.look(rt, number) {
        Some(kept) => kept.number() == number,
        None => false,
    }
}

// Notes at one cell after the other without waiting in a round of others, and after each note, that all notes of this
// author are synced once it is told of that. Returns the number of notes that were not.
fn advance_all<R: Wait + Clock>(
    rt: &R,
    alloc: Global,
    commits: &Commits,
    files: &MemoryFiles,
    bell: &RoundBell<'_, R>,
    author: &str,
) -> Option<u32> {
    let mut missing = 0u32;
    let thread = Thread { rt, files };
    for number in 0..NOTES {
        let cell = number % CELLS;
        let note = note_of(alloc, author).ok()?;
        commits.note(rt, cell, note).ok()?;
        let due = commits.advance(rt, &thread, bell).ok()?;
        if !bell.wait(commits, due) {
            return None;
        }
        let found = files.synced_of(rt, cell, author).ok()?;
        if found != (number / CELLS + 1) as usize {
            missing = missing.saturating_add(1);
        }
    }
    Some(missing)
}

#[test]
fn what_nobody_waits_for_in_a_round_is_synced_and_told(rt: HostRuntime) -> Result<(), Fail> {
    let alloc = rt.alloc();
    let commits = Commits::new(alloc, CELLS)?;
    let files = MemoryFiles::new(alloc, false)?;
    let bell = RoundBell::new(&rt);
    let found = {
        let (rt, commits, files, bell) = (&rt, &commits, &files, &bell);
        thread::scope(thread::scope_env(), rt, |scope| {
            for _ in 0..HELPERS {
                let _helps = scope.spawn(move || {
                    commits.help(rt, &Thread { rt, files }, bell);
                });
            }
            let found = thread::map_indices(
                rt,
                alloc,
                AUTHORS.len(),
                &|author| { advance_all(rt, alloc, commits, files, bell, AUTHORS[author]) },
            );
            commits.end_help(rt);
            found
        })?
    };
    assert!(rt;
        found.as_slice() == [Some(0); 4].as_slice(),
        "{:?}",
        found.as_slice()
    );
    assert!(rt;
        !files.was_shared.load(Ordering::SeqCst),
        "two threads wrote to one file at a time"
    );
    Ok(())
}

#[test]
fn a_single_author_waits_for_no_thread_that_helps(rt: HostRuntime) -> Result<(), Fail> {
    let alloc = rt.alloc();
    let commits = Commits::new(alloc, CELLS)?;
    let files = MemoryFiles::new(alloc, false)?;
    let thread = Thread {
        rt: &rt,
        files: &files,
    };
    let bell = RoundBell::new(&rt);
    let nothing = commits.advance(&rt, &thread, &bell)?;
    assert!(rt; nothing == 0, "{nothing} notes of none");
    for number in 1..=3u64 {
        commits.note(&rt, 0, note_of(alloc, "a1")?)?;
        let asked = commits.advance(&rt, &thread, &bell)?;
        let rings = *bell.rings.lock(&rt);
        assert!(rt; asked == number && rings == number, "{asked} and {rings}");
        assert!(rt; is_kept(&rt, &commits, number), "note {number} waits");
    }
    let most = commits.look(&rt, 7).map(|kept| kept.number());
    assert!(rt; most == Some(3), "{most:?} of the first 7 notes");
    let fewer = commits.look(&rt, 2).map(|kept| kept.number());
    assert!(rt; fewer == Some(2), "{fewer:?} of the first 2 notes");
    Ok(())
}

#[test]
fn notes_that_come_together_are_synced_together(rt: HostRuntime) -> Result<(), Fail> {
    let alloc = rt.alloc();
    let commits = Commits::new(alloc, CELLS)?;
    let files = MemoryFiles::new(alloc, false)?;
    let thread = Thread {
        rt: &rt,
        files: &files,
    };
    for cell in [0, 1, 0, 0, 1] {
        commits.note(&rt, cell, note_of(alloc, "a1")?)?;
    }
    let before = files.syncs(&rt);
    let _kept = commits.settle(&rt, &thread)?;
    let _again = commits.settle(&rt, &thread)?;
    let syncs = files.syncs(&rt);
    assert!(rt; before == 0 && syncs == 2, "{before} and {syncs} syncs");
    let found = (
        files.synced_of(&rt, 0, "a1")?,
        files.synced_of(&rt, 1, "a1")?,
    );
    assert!(rt; found == (3, 2), "{found:?}");
    Ok(())
}

#[test]
fn nothing_settles_after_a_failure(rt: HostRuntime) -> Result<(), Fail> {
    let alloc = rt.alloc();
    let commits = Commits::new(alloc, CELLS)?;
    let files = MemoryFiles::new(alloc, true)?;
    let thread = Thread {
        rt: &rt,
        files: &files,
    };
    assert!(rt; commits.settle(&rt, &thread).is_ok(), "nothing was noted");
    commits.note(&rt, 3, note_of(alloc, "a1")?)?;
    assert!(rt; commits.settle(&rt, &thread).is_err(), "a sync that fails");
    assert!(rt;
        commits.settle(&rt, &thread).is_err() && commits.has_failed(),
        "later calls"
    );
    let bell = RoundBell::new(&rt);
    assert!(rt;
        commits.advance(&rt, &thread, &bell).is_err(),
        "one that only asks"
    );
    assert!(rt; commits.look(&rt, 0).is_none(), "one that looks");
    Ok(())
}

#[test]
fn a_note_at_no_cell_is_refused(rt: HostRuntime) -> Result<(), Fail> {
    let alloc = rt.alloc();
    let commits = Commits::new(alloc, CELLS)?;
    let files = MemoryFiles::new(alloc, false)?;
    let thread = Thread {
        rt: &rt,
        files: &files,
    };
    assert!(rt; commits.note(&rt, CELLS, note_of(alloc, "a1")?).is_err());
    assert!(rt;
        commits.settle(&rt, &thread).is_err() && commits.has_failed(),
        "a note is lost"
    );
    Ok(())
}
