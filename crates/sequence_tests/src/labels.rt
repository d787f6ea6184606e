//! The number of labels that are written while a client types at one place: those of new blocks, and those of other
//! blocks that change; and the times at which others change.
use crate::pair::{SequencePair, author_of};
use block_seq::BlockSeq;
use pad_model::{Part, Refusal, Run, Sequence, Stamp, Text};
use std::alloc::Global;
use std::test::Fail;

const TYPED: u64 = 1_000;

/// The labels of the blocks, in the order of the text.
fn labels_of(alloc: Global, rows: &BlockSeq) -> Result<Vec<u64>, Refusal> {
    let mut labels = Vec::new(alloc);
    for block in rows.tree() {
        labels.push(block.label)?;
    }
    Ok(labels)
}

/// Returns true if each label is greater than the one before it.
fn rise(labels: &[u64]) -> bool {
    labels
        .iter()
        .zip(labels.iter().skip(1))
        .all(|(one, next)| one < next)
}

/// The number of labels in `after` that are not in `before`. Both must rise.
fn count_new(before: &[u64], after: &[u64]) -> u64 {
    let mut new: u64 = 0;
    for label in after {
        if before.binary_search(label).is_err() {
            new = new.saturating_add(1);
        }
    }
    new
}

/// Types a text after a character, or at the start.
fn type_text(
    alloc: Global,
    pair: &mut SequencePair,
    counter: u64,
    after: Option<Stamp>,
    text: &str,
) -> Result<bool, Refusal> {
    let first = Stamp::new(counter, 1)?;
    let text = Text::from_str(alloc, text)?;
    let part = Part::Insert(Run { first, after, text });
    Ok(pair.take(alloc, &part, &author_of(alloc, 1)?))
}

/// Types `TYPED` characters, each after the one before it, or each after the first, and counts the labels that are
/// written. None if a character is refused, or the labels do not rise.
fn count_writes(alloc: Global, backward: bool) -> Result<Option<u64>, Refusal> {
    let mut pair = SequencePair::new(alloc)?;
    let mut writes: u64 = 0;
    let mut before = Vec::new(alloc);
    for counter in 1..=TYPED {
        let behind = if backward { 1 } else { counter - 1 };
        let after = Stamp::new(behind, 1).ok().filter(|_| counter > 1);
        let is_taken = type_text(alloc, &mut pair, counter, after, "x")?;
        let now = labels_of(alloc, pair.rows())?;
        if !is_taken || !rise(now.as_slice()) {
            return Ok(None);
        }
        writes = writes.saturating_add(count_new(before.as_slice(), now.as_slice()));
        before = now;
    }
    Ok(Some(writes))
}

#[test]
fn typing_forward_writes_one_label_an_edit(rt: HostRuntime) -> Result<(), Fail> {
    assert!(rt; count_writes(rt.alloc(), false)? == Some(TYPED));
    Ok(())
}

#[test]
fn typing_backward_writes_few_labels(rt: HostRuntime) -> Result<(), Fail> {
    let writes = count_writes(rt.alloc(), true)?;
    assert!(rt;
        writes.is_some_and(|writes| writes < 10 * TYPED),
        "{writes:?}"
    );
    Ok(())
}

/// Types "ab", then "x" a hundred times after the first character. Returns the times at which a block's label changed;
/// None if a text is refused.
fn type_behind_the_first(
    alloc: Global,
    pair: &mut SequencePair,
) -> Result<Option<Vec<u64>>, Refusal> {
    let mut changes = Vec::new(alloc);
    let mut is_taken = type_text(alloc, pair, 1, None, "ab")?;
    for time in 1..=100 {
        let before = labels_of(alloc, pair.rows())?;
        is_taken = is_taken && type_text(alloc, pair, time + 2, Stamp::new(1, 1).ok(), "x")?;
        let now = labels_of(alloc, pair.rows())?;
        if count_new(now.as_slice(), before.as_slice()) > 0 {
            changes.push(time)?;
        }
    }
    Ok(if is_taken { Some(changes) } else { None })
}

/// Returns true if the text is "a", a hundred times "x", and "b", and all of its characters are found.
fn has_hundred(alloc: Global, rows: &BlockSeq, rev: u64) -> Result<bool, Refusal> {
    let text = rows.text_at(alloc, rev)?;
    let typed = text.as_slice().iter().skip(1).take(100);
    let all = (1..=102).all(|counter| {
        Stamp::new(counter, 1)
            .ok()
            .is_some_and(|stamp| rows.has(stamp))
    });
    Ok(
        all && text.len() == 102
            && text.as_slice().first() == Some(&'a')
            && text.as_slice().last() == Some(&'b')
            && typed.filter(|character| **character == 'x').count() == 100,
    )
}

// Between the labels 65,536 and 131,072 the gap can be halved 16 times. The later times follow from the rule that
// chooses a window: they were worked out apart from the program.
#[test]
fn labels_change_when_no_gap_is_left(rt: HostRuntime) -> Result<(), Fail> {
    let mut pair = SequencePair::new(rt.alloc())?;
    let changes = type_behind_the_first(rt.alloc(), &mut pair)?;
    let rows = pair.rows();
    let times = [17, 31, 43, 54, 63, 71, 77, 81, 84];
    assert!(rt; changes.is_some_and(|changes| changes.as_slice() == times.as_slice()));
    assert!(rt; has_hundred(rt.alloc(), rows, 101)?);
    assert!(rt; rows.stamp_at(101, 1) == Stamp::new(102, 1).ok());
    Ok(())
}
