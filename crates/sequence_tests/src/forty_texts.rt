//! Twenty thousand operations of three replicas, in forty texts, on the sequence of blocks and on the plain one beside
//! it.
use crate::compared::{change_the_same, show_the_same};
use crate::converge::{OperationShares, made};
use crate::replica::Replica;
use crate::several::op_of;
use dice::Dice;
use pad_model::{Op, OpName, Refusal, Sequence};
use std::alloc::Global;
use std::process::Abort;
use std::test::Fail;

/// The number of texts, each with dice of its own.
const TEXTS: u64 = 40;

const OPERATIONS: u64 = 500;

/// The number of operations between two comparisons of all cells. Each operation must have the same result on both.
const COMPARED: u64 = 100;

const REVISIONS: [u64; 10] = [1, 10, 50, 100, 200, 300, 400, 450, 490, 500];

/// Every twentieth operation has several insertions; the others type, erase or do both.
fn next_op(alloc: Global, site: &Replica, number: u64, dice: &mut Dice) -> Result<Op, Refusal> {
    if number % 20 == 0 {
        return op_of(alloc, site, number, dice);
    }
    let origin = dice.roll(3).saturating_add(1) as u16;
    made(alloc, site, OpName { origin, number }, dice)
}

/// Takes all operations of a text.
fn take_many(
    rt: &impl Abort,
    alloc: Global,
    site: &mut Replica,
    seed: u64,
) -> Result<OperationShares, Refusal> {
    let mut dice = Dice::new(seed);
    let mut shares = OperationShares::default();
    for number in 1..=OPERATIONS {
        let op = next_op(alloc, site, number, &mut dice)?;
        shares.count_parts(op.parts.as_slice());
        let came = site.deliver(alloc, &op);
        assert!(rt;
            came.is_ok(),
            "operation {number} of text {seed}: came {came:?}"
        );
    }
    Ok(shares)
}

/// Asserts that both report the same for a text, now and at older revisions.
fn keeps_a_text(rt: &impl Abort, alloc: Global, seed: u64) -> Result<(), Fail> {
    let mut site = Replica::compared_every(alloc, COMPARED)?;
    let shares = take_many(rt, alloc, &mut site, seed)?;
    assert!(rt;
        shares.typed >= 200 && shares.erased >= 200,
        "too few of some kind in text {seed}: {shares:?}"
    );
    let (cells, shown) = (site.plain().cell_count(), site.plain().len_at(OPERATIONS));
    assert!(rt; cells >= 500, "{cells}");
    assert!(rt; cells.saturating_sub(shown) >= 200, "{shown} of {cells}");
    for rev in REVISIONS {
        assert!(rt;
            show_the_same(alloc, site.sequence(), site.plain(), rev)?,
            "revision {rev} of {seed}"
        );
        for to in [rev + 1, rev + 10, OPERATIONS] {
            assert!(rt;
                change_the_same(alloc, site.sequence(), site.plain(), rev, to)?,
                "changes from {rev} to {to} of {seed}"
            );
        }
    }
    Ok(())
}

#[test]
fn twenty_thousand_operations(rt: HostRuntime) -> Result<(), Fail> {
    for seed in 1..=TEXTS {
        keeps_a_text(&rt, rt.alloc(), seed)?;
    }
    Ok(())
}
