//! Pads that two threads create at once, under one name or two, or that one looks for until the other has created it.
use crate::names::{FIRST, StageRow, TestPads, asked, is_missing, is_refused, thread_of};
use conversation::Names;
use pad_model::Refusal;
use std::alloc::Global;
use std::sync::Wait;
use std::test::Fail;
use std::thread;
use std::thread::Threads;

const SECOND: &str = r#"{"do":"hello","name":"a2","token":"t"}"#;

// Creates the pad with a number, and returns the outcome.
fn creates<R: Wait>(alloc: Global, row: &StageRow<'_, R>, hello: &str, number: u32) -> Created {
    match thread_of(alloc, row, hello) {
        Ok(mut pads) => match asked(alloc, &mut pads, "create", number) {
            Ok(_) => Created::Made,
            Err(Refusal::PadExists) => Created::Exists,
            Err(_) => Created::Other,
        },
        Err(_) => Created::Other,
    }
}

// The outcome of a creation.
#[derive(Clone, Copy, Debug, PartialEq, Eq)]
enum Created {
    Made,
    Exists,
    Other,
}

// Lets two threads create the pads with these numbers at once.
fn both_create<R: Threads + Wait + Sync>(
    rt: &R,
    alloc: Global,
    numbers: [u32; 2],
) -> Result<[Created; 2], Refusal> {
    let stage = TestPads::new(alloc, 3, 4)?;
    let names = stage.names(rt, alloc)?;
    both_create_on(rt, alloc, &stage, &names, numbers)
}

// The same on a stage without pads.
fn both_create_on<R: Threads + Wait + Sync>(
    rt: &R,
    alloc: Global,
    stage: &TestPads,
    names: &Names,
    numbers: [u32; 2],
) -> Result<[Created; 2], Refusal> {
    let row = stage.row(rt, names);
    let (first, second) = thread::join(
        rt,
        || creates(alloc, &row, FIRST, numbers[0]),
        || creates(alloc, &row, SECOND, numbers[1]),
    );
    let mut reader = thread_of(alloc, &row, FIRST)?;
    let mut other = thread_of(alloc, &row, SECOND)?;
    let there = [
        asked(alloc, &mut reader, "create", numbers[0]),
        asked(alloc, &mut other, "create", numbers[1]),
    ];
    for answer in there {
        if !is_refused(answer, Refusal::PadExists) {
            return Ok([Created::Other, Created::Other]);
        }
    }
    if !is_missing(alloc, &mut reader, &stage.gate, 100) {
        return Ok([Created::Other, Created::Other]);
    }
    Ok([first, second])
}

#[test]
fn two_names_are_created_at_once(rt: HostRuntime) -> Result<(), Fail> {
    for _round in 0..50 {
        let came = both_create(&rt, rt.alloc(), [1, 2])?;
        assert!(rt; came == [Created::Made, Created::Made], "came {came:?}");
    }
    Ok(())
}

#[test]
fn one_name_is_created_once(rt: HostRuntime) -> Result<(), Fail> {
    for _round in 0..50 {
        let came = both_create(&rt, rt.alloc(), [7, 7])?;
        assert!(rt;
            came == [Created::Made, Created::Exists] || came == [Created::Exists, Created::Made],
            "came {came:?}"
        );
    }
    Ok(())
}

// Looks for a pad until another thread has created it, or gives up. Returns whether it was found.
fn finds_in_time<R: Wait>(alloc: Global, row: &StageRow<'_, R>, number: u32) -> bool {
    let Ok(mut pads) = thread_of(alloc, row, SECOND) else {
        return false;
    };
    for _turn in 0..1_000_000u32 {
        match asked(alloc, &mut pads, "join", number) {
            Err(Refusal::NoPad) => thread::yield_now(),
            // The pad belongs to another author, who has not shared it.
            Err(Refusal::Denied) => return true,
            _ => return false,
        }
    }
    false
}

#[test]
fn a_name_is_created_meanwhile(rt: HostRuntime) -> Result<(), Fail> {
    let alloc = rt.alloc();
    let stage = TestPads::new(alloc, 3, 2)?;
    let names = stage.names(&rt, alloc)?;
    let row = stage.row(&rt, &names);
    let (found, made) = thread::join(
        &rt,
        || finds_in_time(alloc, &row, 5),
        || creates(alloc, &row, FIRST, 5),
    );
    assert!(rt; made == Created::Made, "came {made:?}");
    assert!(rt; found, "the pad is not found after it was created");
    Ok(())
}
