//! Operations of several parts on the sequence of blocks beside the plain one, and the reports of both on older
//! revisions.
use crate::compared::{show_the_same, tell_the_same};
use crate::converge::{OperationShares, erased, typed};
use crate::replica::Replica;
use dice::Dice;
use pad_model::{Items, Name, Op, OpName, Part, Refusal, Seen, Sequence};
use std::alloc::Global;
use std::process::Abort;
use std::test::Fail;

const OPERATIONS: u64 = 120;

/// One to four insertions, and a deletion between them where there is text.
fn parts_of(
    alloc: Global,
    site: &Replica,
    replica: u16,
    dice: &mut Dice,
) -> Result<Items<Part>, Refusal> {
    let mut parts = Items::new(alloc);
    for turn in 0..=dice.roll(4) {
        parts.push(typed(
            alloc,
            site,
            replica,
            turn.saturating_mul(4).saturating_add(1),
            dice,
        )?)?;
        if turn == 1 && site.sequence().len_at(site.rev()) > 0 {
            parts.push(erased(alloc, site, dice)?)?;
        }
    }
    Ok(parts)
}

/// An operation of several parts by one of three replicas.
pub fn op_of(alloc: Global, site: &Replica, number: u64, dice: &mut Dice) -> Result<Op, Refusal> {
    let origin = dice.roll(3).saturating_add(1) as u16;
    Ok(Op {
        name: OpName { origin, number },
        seen: Seen::new(alloc),
        author: Name::from_str(alloc, "ada")?,
        parts: parts_of(alloc, site, origin, dice)?,
    })
}

/// All operations are taken, and both sequences show the same after each.
fn take_many(
    rt: &impl Abort,
    alloc: Global,
    site: &mut Replica,
) -> Result<OperationShares, Refusal> {
    let mut dice = Dice::new(5);
    let mut shares = OperationShares::default();
    for number in 1..=OPERATIONS {
        let op = op_of(alloc, site, number, &mut dice)?;
        shares.count_parts(op.parts.as_slice());
        let came = site.deliver(alloc, &op);
        assert!(rt; came.is_ok(), "operation {number}: came {came:?}");
        assert!(rt;
            show_the_same(alloc, site.sequence(), site.plain(), number)?,
            "after operation {number}"
        );
    }
    Ok(shares)
}

#[test]
fn several_parts_at_once(rt: HostRuntime) -> Result<(), Fail> {
    let mut site = Replica::new(rt.alloc())?;
    let shares = take_many(&rt, rt.alloc(), &mut site)?;
    // Each has two or three insertions, and three of four have a deletion.
    assert!(rt;
        shares.typed >= 200 && shares.erased >= 60,
        "too few of some kind: {shares:?}"
    );
    assert!(rt; site.rev() == OPERATIONS, "{} revisions", site.rev());
    for rev in [0, 1, 2, 3, 10, 30, 60, 90, 119, 120] {
        assert!(rt;
            tell_the_same(rt.alloc(), site.sequence(), site.plain(), rev)?,
            "revision {rev}"
        );
    }
    Ok(())
}
