//! Stones that are removed from a large tree, in order and at random, beside a plain list: the sums and ranks equal
//! those of the list, and the tree stays low.
use crate::index::stone::Stone;
use crate::index::stone_run::Both;
use dice::Dice;
use std::alloc::Global;
use std::process::Abort;
use std::test::Fail;

const STONES: u64 = 1_000;

// The stone that is removed next.
#[derive(Clone, Copy, Debug)]
enum Way {
    First,
    Last,
    Middle,
    Any,
}

fn next_rank(dice: &mut Dice, way: Way, count: usize) -> usize {
    match way {
        Way::First => 0,
        Way::Last => count.saturating_sub(1),
        Way::Middle => count / 2,
        Way::Any => dice.roll((count as u64).max(1)) as usize,
    }
}

// Returns true if a tree of `count` items may have this height: 4^height is at most 3^height times one more than
// `count`.
fn is_low(count: usize, height: usize) -> bool {
    let mut most: u64 = (count as u64).wrapping_add(1);
    let mut high: u64 = 1;
    for _ in 0..height {
        most = most.wrapping_mul(3);
        high = high.wrapping_mul(4);
    }
    height <= 24 && high <= most
}

// Inserts stones whose numbers rise and whose weights are 0 to 6.
fn fill(rt: &impl Abort, alloc: Global, both: &mut Both) -> Result<(), Fail> {
    for number in 0..STONES {
        let weight = number % 7;
        both.insert(rt, alloc, Stone { number, weight })?;
    }
    Ok(())
}

// Asserts that all sums and ranks equal those of the list.
fn compare(rt: &impl Abort, both: &Both) {
    both.items(rt);
    both.weight(rt);
    for rank in 0..both.size().0 {
        both.before(rt, rank);
        both.find(rt, (rank as u64).wrapping_mul(3));
    }
}

// Removes one stone after another, and compares after every hundred.
fn empty_out(rt: &impl Abort, both: &mut Both, way: Way) {
    let mut dice = Dice::new(2026);
    for round in 0..STONES {
        let rank = next_rank(&mut dice, way, both.size().0);
        both.remove(rt, rank);
        both.len(rt);
        both.weight(rt);
        both.find(rt, round);
        let (count, height) = both.size();
        assert!(rt; is_low(count, height), "{height} levels of {count}");
        if round % 100 == 0 {
            compare(rt, both);
        }
    }
}

#[test]
fn stones_are_taken_out_as_of_a_list(rt: HostRuntime) -> Result<(), Fail> {
    for way in [Way::First, Way::Last, Way::Middle, Way::Any] {
        let mut both = Both::new(rt.alloc());
        fill(&rt, rt.alloc(), &mut both)?;
        empty_out(&rt, &mut both, way);
        assert!(rt;
            both.size() == (0, 0),
            "by {way:?}: wanted (0, 0), came {:?}",
            both.size()
        );
        compare(&rt, &both);
    }
    Ok(())
}

#[test]
fn stones_come_and_go_as_in_a_list(rt: HostRuntime) -> Result<(), Fail> {
    let mut dice = Dice::new(7);
    let mut both = Both::new(rt.alloc());
    fill(&rt, rt.alloc(), &mut both)?;
    let mut removed = 0u64;
    for round in 0..4_000u64 {
        let (count, height) = both.size();
        assert!(rt; is_low(count, height), "{height} levels of {count}");
        if dice.roll(2) == 0 && count > 0 {
            both.remove(&rt, next_rank(&mut dice, Way::Any, count));
            removed = removed.saturating_add(1);
        } else {
            let number = dice.roll(STONES);
            let weight = dice.roll(7);
            both.insert(&rt, rt.alloc(), Stone { number, weight })?;
        }
        if round % 400 == 0 {
            compare(&rt, &both);
        }
    }
    compare(&rt, &both);
    // About half of the steps remove a stone, and the others insert one.
    assert!(rt;
        1_800 <= removed && removed < 2_200,
        "{removed} of 4000 were taken out"
    );
    Ok(())
}
