//! Rounds over connections that break anywhere.
use crate::memory_copies::{Cut, MemoryCopies};
use crate::source_files::SourceFiles;
use dice::Dice;
use standby::{Broken, Rounds};
use std::alloc::Global;
use std::sync::Wait;
use std::sync::atomic::Ordering;
use std::test::Fail;
use std::time::Clock;

const NAMES: [&str; 3] = ["a", "b", "c"];

// The connections of a seeded run.
const CONNECTIONS: u32 = 60;

const SEEDS: u64 = 8;

// A round has about 1 MiB: a file of this many lines takes more than one.
const MANY: u64 = 12_000;

// Returns true if each copy is the beginning of its file, and has all lines of the first notes.
fn are_fronts<R: Wait>(
    rt: &R,
    alloc: Global,
    files: &SourceFiles,
    copies: &MemoryCopies,
    mark: u64,
) -> Result<bool, Fail> {
    for (cell, name) in NAMES.iter().enumerate() {
        let cell = cell as u32;
        let text = files.text(rt, alloc, cell)?;
        let copy = copies.text_of(name).unwrap_or(&[]);
        let has_all = files.length_at(rt, mark, cell) <= copy.len() as u64;
        if !text.as_slice().starts_with(copy) || !has_all {
            return Ok(false);
        }
    }
    Ok(true)
}

// The fault of the next round: two of five connections break.
fn next_cut(dice: &mut Dice) -> Cut {
    match dice.roll(8) {
        0 => Cut::Put,
        1 => Cut::Flush,
        2 => Cut::Answer,
        _ => Cut::Never,
    }
}

// One connection, with some rounds, while lines are added between them. Returns the number of rounds that were kept.
fn connect<R: Wait + Clock>(
    rt: &R,
    alloc: Global,
    files: &SourceFiles,
    copies: &mut MemoryCopies,
    dice: &mut Dice,
) -> Result<u64, Fail> {
    copies.reconnect();
    copies.cut = Cut::Never;
    let mut rounds = match Rounds::begin(rt, alloc, files, copies) {
        Ok(rounds) => rounds,
        Err(broken) => return Err(Fail::new(format_args!("no round begins: {broken:?}"))),
    };
    let mut kept = 0;
    for _ in 0..dice.roll(6) {
        files.append(rt, alloc, dice.roll(3) as u32, dice.roll(4))?;
        copies.cut = next_cut(dice);
        match rounds.make(rt, alloc, copies) {
            Ok(_) => kept += 1,
            Err(Broken::Off(_)) if copies.cut != Cut::Never => return Ok(kept),
            Err(broken) => return Err(Fail::new(format_args!("a round broke: {broken:?}"))),
        }
    }
    Ok(kept)
}

// The number of kept rounds in a seeded run, in which no copy is ever anything but the beginning of its file, and has
// the lines that were confirmed.
fn run<R: Wait + Clock>(rt: &R, alloc: Global, seed: u64) -> Result<u64, Fail> {
    let files = SourceFiles::new(alloc, &NAMES)?;
    let mut copies = MemoryCopies::new(alloc);
    let mut dice = Dice::new(seed);
    let mut kept = 0;
    for _ in 0..CONNECTIONS {
        kept += connect(rt, alloc, &files, &mut copies, &mut dice)?;
        let mark = files.heard.load(Ordering::SeqCst);
        if !are_fronts(rt, alloc, &files, &copies, mark)? {
            return Err(Fail::new(format_args!(
                "seed {seed}: a copy lacks what mark {mark} confirms"
            )));
        }
    }
    Ok(kept)
}

#[test]
fn copies_are_fronts_of_files_wherever_connections_break(rt: HostRuntime) -> Result<(), Fail> {
    let mut kept = 0;
    for seed in 0..SEEDS {
        kept += run(&rt, rt.alloc(), seed)?;
    }
    assert!(rt; kept > 300, "only {kept} rounds were kept");
    Ok(())
}

#[test]
fn what_lies_behind_a_full_round_is_not_confirmed(rt: HostRuntime) -> Result<(), Fail> {
    let alloc = rt.alloc();
    let files = SourceFiles::new(alloc, &NAMES)?;
    let mut copies = MemoryCopies::new(alloc);
    files.append(&rt, alloc, 1, MANY)?;
    let mut rounds = match Rounds::begin(&rt, alloc, &files, &mut copies) {
        Ok(rounds) => rounds,
        Err(broken) => return Err(Fail::new(format_args!("no round begins: {broken:?}"))),
    };
    let mut made = 0;
    for _ in 0..10 {
        if rounds.has_caught_up() {
            break;
        }
        let told = files.heard.load(Ordering::SeqCst);
        assert!(rt;
            told == 0,
            "mark {told} was confirmed before the copy had everything"
        );
        if let Err(broken) = rounds.make(&rt, alloc, &mut copies) {
            return Err(Fail::new(format_args!("a round broke: {broken:?}")));
        }
        made += 1;
    }
    let told = files.heard.load(Ordering::SeqCst);
    assert!(rt; made == 2 && told == MANY, "{made} rounds, and mark {told}");
    let text = files.text(&rt, alloc, 1)?;
    assert!(rt;
        copies.text_of("b") == Some(text.as_slice()),
        "the copy is not the file"
    );
    Ok(())
}

#[test]
fn a_copy_with_another_past_is_left_alone(rt: HostRuntime) -> Result<(), Fail> {
    let alloc = rt.alloc();
    let (one, other) = (
        SourceFiles::new(alloc, &NAMES)?,
        SourceFiles::new(alloc, &NAMES)?,
    );
    let mut copies = MemoryCopies::new(alloc);
    one.append(&rt, alloc, 0, 3)?;
    let made = match Rounds::begin(&rt, alloc, &one, &mut copies) {
        Ok(mut rounds) => rounds.make(&rt, alloc, &mut copies).is_ok(),
        Err(_) => false,
    };
    assert!(rt; made, "the copy was not made");
    other.append(&rt, alloc, 0, 2)?;
    let refused = match Rounds::begin(&rt, alloc, &other, &mut copies) {
        Err(Broken::OtherPast(pad)) => pad.is("a"),
        _ => false,
    };
    assert!(rt; refused, "a copy that is longer than the file was taken up");
    let text = one.text(&rt, alloc, 0)?;
    assert!(rt;
        copies.text_of("a") == Some(text.as_slice()),
        "the copy was changed"
    );
    Ok(())
}

#[test]
fn a_copy_of_an_unknown_pad_is_left_alone(rt: HostRuntime) -> Result<(), Fail> {
    let alloc = rt.alloc();
    let one = SourceFiles::new(alloc, &["a", "x"])?;
    let mut copies = MemoryCopies::new(alloc);
    one.append(&rt, alloc, 1, 1)?;
    let made = match Rounds::begin(&rt, alloc, &one, &mut copies) {
        Ok(mut rounds) => rounds.make(&rt, alloc, &mut copies).is_ok(),
        Err(_) => false,
    };
    assert!(rt; made, "the copy was not made");
    let other = SourceFiles::new(alloc, &NAMES)?;
    let refused = match Rounds::begin(&rt, alloc, &other, &mut copies) {
        Err(Broken::OtherPast(pad)) => pad.is("x"),
        _ => false,
    };
    assert!(rt; refused, "a copy of a pad that is not here was taken up");
    Ok(())
}
