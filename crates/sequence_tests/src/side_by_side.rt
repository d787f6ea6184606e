//! The sequence of blocks beside the plain one, in worked examples and in a seeded run of three replicas.
use crate::converge::OperationShares;
use crate::pair::{SequencePair, author_of};
use crate::replica::PartSketch::{Erased, Typed};
use crate::replica::{PartSketch, part_of, stamp_of};
use crate::sequences::HELLO;
use block_seq::BlockSeq;
use dice::Dice;
use pad_model::{Part, Refusal, Run, Sequence, Text};
use std::alloc::Global;
use std::process::Abort;
use std::test::Fail;

/// Changes by replicas, and the text after them.
type Worked = (&'static [(u16, PartSketch)], &'static str);

const XY: (u16, PartSketch) = (2, Typed((6, 2), Some((2, 1)), "XY"));

const WORKED: &[Worked] = &[
    (&[(1, HELLO)], "hello"),
    (&[(1, HELLO), XY], "heXYllo"),
    (&[(1, HELLO), (2, Erased(&[((2, 1), 2)])), XY], "hXYlo"),
    (
        &[(1, HELLO), XY, (1, Erased(&[((7, 2), 1), ((2, 1), 2)]))],
        "hXlo",
    ),
    (
        &[
            (1, Typed((1, 1), None, "ab")),
            (2, Typed((1, 2), None, "cd")),
        ],
        "cdab",
    ),
    (
        &[
            (2, Typed((1, 2), None, "cd")),
            (1, Typed((1, 1), None, "ab")),
        ],
        "cdab",
    ),
    (
        &[(1, HELLO), XY, (3, Typed((6, 3), Some((2, 1)), "Z"))],
        "heZXYllo",
    ),
    (
        &[(1, HELLO), XY, (1, Typed((6, 1), Some((2, 1)), "Z"))],
        "heXYZllo",
    ),
    (
        &[(1, HELLO), XY, (3, Typed((7, 3), Some((6, 2)), "Z"))],
        "heXZYllo",
    ),
];

fn take_all(
    rt: &impl Abort,
    alloc: Global,
    pair: &mut SequencePair,
    changes: &[(u16, PartSketch)],
) -> Result<(), Refusal> {
    for (origin, sketch) in changes {
        let part = part_of(alloc, sketch)?;
        let author = author_of(alloc, *origin)?;
        assert!(rt;
            pair.take(alloc, &part, &author),
            "{part:?} of {origin}: answered otherwise"
        );
    }
    Ok(())
}

fn shows(rt: &impl Abort, alloc: Global, text: &Text, want: &str) -> Result<(), Refusal> {
    let came = text.to_string(alloc)?;
    assert!(rt; came.as_str() == want, "wanted {want}, came {came}");
    Ok(())
}

/// The blocks show this text after the changes, and both sequences agree at each revision.
fn is_worked(
    rt: &impl Abort,
    alloc: Global,
    changes: &[(u16, PartSketch)],
    want: &str,
) -> Result<(), Refusal> {
    let mut pair = SequencePair::new(alloc)?;
    take_all(rt, alloc, &mut pair, changes)?;
    shows(rt, alloc, &pair.rows().text_at(alloc, pair.rev())?, want)?;
    pair.counts_agree(rt);
    pair.all_agree(rt, pair.rev());
    Ok(())
}

#[test]
fn runs_stand_where_the_examples_say(rt: HostRuntime) -> Result<(), Fail> {
    for (changes, want) in WORKED {
        is_worked(&rt, rt.alloc(), changes, want)?;
    }
    Ok(())
}

/// Clock, last counters, and lengths of `heXYllo`.
fn numbers_of(rows: &BlockSeq) -> [u64; 8] {
    [
        rows.clock(),
        rows.last_of(1),
        rows.last_of(2),
        rows.last_of(3),
        rows.cell_count(),
        rows.len_at(0),
        rows.len_at(1),
        rows.len_at(2),
    ]
}

#[test]
fn blocks_tell_of_their_characters(rt: HostRuntime) -> Result<(), Fail> {
    let mut pair = SequencePair::new(rt.alloc())?;
    take_all(&rt, rt.alloc(), &mut pair, &[(1, HELLO), XY])?;
    let (x, l, none) = (stamp_of((6, 2))?, stamp_of((3, 1))?, stamp_of((6, 1))?);
    let rows = pair.rows();
    let (came, want) = (numbers_of(rows), [7, 5, 7, 0, 7, 0, 5, 7]);
    assert!(rt; came == want, "wanted {want:?}, came {came:?}");
    assert!(rt; rows.has(x) && rows.has(l) && !rows.has(none));
    assert!(rt; rows.stamp_at(2, 2) == Some(x) && rows.stamp_at(1, 2) == Some(l));
    assert!(rt; rows.before(l, 1) == Some(2) && rows.through(x, 1) == Some(2));
    assert!(rt; rows.before(l, 2) == Some(4) && rows.through(x, 2) == Some(3));
    assert!(rt; rows.before(none, 2).is_none() && rows.through(none, 2).is_none());
    Ok(())
}

const ROUNDS: u64 = 100;

/// Types one to three letters at a place of the text, or where the others of the round type.
fn typed(
    alloc: Global,
    pair: &SequencePair,
    replica: u16,
    place: u64,
    dice: &mut Dice,
) -> Result<Part, Refusal> {
    let len = pair.plain().len_at(pair.rev());
    let place = match dice.roll(2) {
        0 => place,
        _ => dice.roll(len.saturating_add(1)),
    };
    let after = match place {
        0 => None,
        place => pair.plain().stamp_at(pair.rev(), place - 1),
    };
    let text = match dice.roll(3) {
        0 => "x",
        1 => "yé",
        _ => "a😀b",
    };
    Ok(Part::Insert(Run {
        first: stamp_of((pair.plain().clock().saturating_add(1), replica))?,
        after,
        text: Text::from_str(alloc, text)?,
    }))
}

/// Erases up to four characters from a place of the text on.
fn erased(alloc: Global, pair: &SequencePair, dice: &mut Dice) -> Result<Part, Refusal> {
    let (plain, rev) = (pair.plain(), pair.rev());
    let len = plain.len_at(rev);
    let at = dice.roll(len).min(len);
    let count = dice.roll(4).saturating_add(1).min(len - at);
    Ok(Part::Delete(plain.spans_at(alloc, rev, at, count)?))
}

/// The next action of each of three replicas, from the same text: three of five times it types, else it erases.
fn round(alloc: Global, pair: &SequencePair, dice: &mut Dice) -> Result<Vec<Part>, Refusal> {
    let place = dice.roll(pair.plain().len_at(pair.rev()).saturating_add(1));
    let mut parts = Vec::new(alloc);
    for replica in 1..=3 {
        let part = match dice.roll(5) {
            0..=2 => typed(alloc, pair, replica, place, dice)?,
            _ => erased(alloc, pair, dice)?,
        };
        parts.push(part)?;
    }
    Ok(parts)
}

/// Each round leaves both the same.
fn play_all(
    rt: &impl Abort,
    alloc: Global,
    pair: &mut SequencePair,
) -> Result<OperationShares, Refusal> {
    let mut dice = Dice::new(11);
    let mut shares = OperationShares::default();
    for _ in 0..ROUNDS {
        let parts = round(alloc, pair, &mut dice)?;
        shares.count_parts(&parts);
        are_taken(rt, alloc, pair, &parts, &mut dice)?;
    }
    Ok(shares)
}

/// Makes the parts of a round, by replica. Both sequences agree after each, also on the text before it.
fn are_taken(
    rt: &impl Abort,
    alloc: Global,
    pair: &mut SequencePair,
    parts: &[Part],
    dice: &mut Dice,
) -> Result<(), Refusal> {
    let mut origin: u16 = 1;
    for part in parts {
        let author = author_of(alloc, origin)?;
        let (rev, told) = (pair.rev(), pair.rows().authors_at(alloc, pair.rev())?);
        assert!(rt;
            pair.take(alloc, part, &author),
            "{part:?} of {origin}: answered otherwise"
        );
        pair.agree(rt, alloc, dice)?;
        pair.runs_stayed(rt, alloc, rev, &told)?;
        origin = origin.saturating_add(1);
    }
    Ok(())
}

#[test]
fn three_replicas_type_and_erase(rt: HostRuntime) -> Result<(), Fail> {
    let mut pair = SequencePair::new(rt.alloc())?;
    let shares = play_all(&rt, rt.alloc(), &mut pair)?;
    assert!(rt;
        shares.typed >= 150 && shares.erased >= 90,
        "too few of some kind: {shares:?}"
    );
    assert!(rt; pair.rev() == 300, "{} revisions", pair.rev());
    let (cells, shown) = (pair.plain().cell_count(), pair.plain().len_at(pair.rev()));
    assert!(rt; cells >= 250, "{cells}");
    assert!(rt; cells.saturating_sub(shown) >= 100, "{shown} of {cells}");
    for rev in [0, 1, 100, 200, 300] {
        pair.all_agree(&rt, rev);
    }
    Ok(())
}
