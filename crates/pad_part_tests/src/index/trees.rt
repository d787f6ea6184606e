//! The sums of a tree, compared with results worked out by hand; the height of a tree, however it grew; and the counts
//! of visits, which equal the calls that are made.
use crate::index::stone::{Stone, put};
use std::alloc::Global;
use std::cmp::Ordering;
use std::process::Abort;
use std::test::Fail;
use weight_tree::{Found, Placed, WeightTree};

fn put_three(rt: &impl Abort, alloc: Global, tree: &mut WeightTree<Stone>) -> Result<(), Fail> {
    for (number, weight) in [(0, 5), (1, 2), (2, 3)] {
        put(rt, alloc, tree, tree.len(), Stone { number, weight })?;
    }
    Ok(())
}

// The rank and offset at which the tree finds a number.
fn place_of(tree: &WeightTree<Stone>, number: u64) -> Option<(usize, u64)> {
    let Found { rank, offset, .. } = tree.find(number)?;
    Some((rank, offset))
}

// Asserts the rank and offset at which the tree finds a number.
fn is_at(rt: &impl Abort, tree: &WeightTree<Stone>, number: u64, want: Option<(usize, u64)>) {
    let came = place_of(tree, number);
    assert!(rt; came == want, "{number}: wanted {want:?}, came {came:?}");
}

fn sums_are_those_of_three(rt: &impl Abort, tree: &WeightTree<Stone>) {
    assert!(rt; tree.len() == 3, "wanted 3 stones, came {}", tree.len());
    assert!(rt;
        tree.weight() == 10,
        "wanted the weight 10, came {}",
        tree.weight()
    );
    assert!(rt;
        tree.before(2) == 7,
        "wanted 7 before the last, came {}",
        tree.before(2)
    );
    assert!(rt;
        tree.get(1).number == 1,
        "wanted the number 1, came {:?}",
        tree.get(1)
    );
    for (number, want) in [(5, Some((1, 0))), (9, Some((2, 2))), (10, None)] {
        is_at(rt, tree, number, want);
    }
}

#[test]
fn sums_of_three_stones(rt: HostRuntime) -> Result<(), Fail> {
    let mut tree = WeightTree::new();
    put_three(&rt, rt.alloc(), &mut tree)?;
    sums_are_those_of_three(&rt, &tree);
    Ok(())
}

#[tactic(auto, using(weight_tree::proofs::CallerLemmas::sum_replaced_le))]
fn loses_its_middle(rt: &impl Abort, tree: &mut WeightTree<Stone>) {
    assert!(rt; tree.len() == 3, "wanted 3 stones, came {}", tree.len());
    assert!(rt;
        tree.weight() == 10,
        "wanted the weight 10, came {}",
        tree.weight()
    );
    let weightless = Stone {
        number: 7,
        weight: 0,
    };
    let old = tree.replace(1, weightless);
    assert!(rt; old.number == 1, "wanted the number 1, came {old:?}");
    assert!(rt;
        tree.weight() == 8,
        "wanted the weight 8, came {}",
        tree.weight()
    );
    is_at(rt, tree, 5, Some((2, 0)));
}

#[test]
fn weightless_stone_is_not_found(rt: HostRuntime) -> Result<(), Fail> {
    let mut tree = WeightTree::new();
    put_three(&rt, rt.alloc(), &mut tree)?;
    loses_its_middle(&rt, &mut tree);
    Ok(())
}

#[test]
fn empty_tree_is_flat(rt: HostRuntime) {
    let tree: WeightTree<Stone> = WeightTree::default();
    assert!(rt; tree.is_empty(), "{} stones", tree.len());
    assert!(rt; tree.height() == 0, "{} levels", tree.height());
    is_at(&rt, &tree, 0, None);
    let count = tree.iter().count();
    assert!(rt; count == 0, "{count} stones come by");
}

// The place at which each stone, of weight 1, is inserted among those before it.
#[derive(Clone, Copy)]
enum Way {
    End,
    Front,
    Middle,
}

fn put_many(
    rt: &impl Abort,
    alloc: Global,
    tree: &mut WeightTree<Stone>,
    count: u64,
    way: Way,
) -> Result<(), Fail> {
    for number in 0..count {
        let rank = match way {
            Way::End => tree.len(),
            Way::Front => 0,
            Way::Middle => tree.len() / 2,
        };
        put(rt, alloc, tree, rank, Stone { number, weight: 1 })?;
    }
    Ok(())
}

// Asserts that each of a thousand numbers is found on a short path.
fn finds_each(rt: &impl Abort, tree: &WeightTree<Stone>) {
    let height = tree.height();
    assert!(rt; height <= 24, "{height} levels");
    for number in 0..1023 {
        let Some(found) = tree.find(number) else {
            panic!(rt; "{number} is not found");
        };
        assert!(rt;
            found.rank as u64 == number,
            "{number} is found at {}",
            found.rank
        );
        assert!(rt; found.visits <= height, "{} visits", found.visits);
    }
}

// Returns where a closure that always gives this answer leads, and the number of its calls.
fn place_and_calls(tree: &WeightTree<Stone>, answer: Ordering) -> (Placed, usize) {
    let mut calls: usize = 0;
    let placed = tree.rank_by(|_| {
        calls = calls.wrapping_add(1);
        answer
    });
    (placed, calls)
}

// Asserts that the same answer everywhere leads down one side.
fn goes_down_one_side(rt: &impl Abort, tree: &WeightTree<Stone>) {
    for (answer, rank) in [
        (Ordering::Less, 1023),
        (Ordering::Equal, 0),
        (Ordering::Greater, 0),
    ] {
        let (placed, calls) = place_and_calls(tree, answer);
        assert!(rt;
            placed.rank == rank,
            "{answer:?}: wanted {rank}, came {placed:?}"
        );
        assert!(rt;
            placed.visits == calls,
            "{answer:?}: {calls} calls, came {placed:?}"
        );
        assert!(rt; calls <= tree.height(), "{calls} calls");
    }
}

fn stays_low(rt: &impl Abort, alloc: Global, way: Way) -> Result<(), Fail> {
    let mut tree = WeightTree::new();
    put_many(rt, alloc, &mut tree, 1023, way)?;
    finds_each(rt, &tree);
    goes_down_one_side(rt, &tree);
    Ok(())
}

#[test]
fn a_thousand_stays_low(rt: HostRuntime) -> Result<(), Fail> {
    for way in [Way::End, Way::Front, Way::Middle] {
        stays_low(&rt, rt.alloc(), way)?;
    }
    Ok(())
}

fn walks_to(rt: &impl Abort, tree: &WeightTree<Stone>, number: u64) {
    let mut calls: usize = 0;
    let placed = tree.rank_by(|stone| {
        calls = calls.wrapping_add(1);
        stone.number.cmp(&number)
    });
    assert!(rt; placed.rank as u64 == number, "{number}: came {placed:?}");
    assert!(rt;
        placed.visits == calls,
        "{number}: {calls} calls, came {placed:?}"
    );
    assert!(rt;
        calls <= tree.height(),
        "{calls} calls in {} levels",
        tree.height()
    );
}

#[test]
fn rank_walks_one_path(rt: HostRuntime) -> Result<(), Fail> {
    let mut tree = WeightTree::new();
    put_many(&rt, rt.alloc(), &mut tree, 1023, Way::End)?;
    for number in 0..1024 {
        walks_to(&rt, &tree, number);
    }
    Ok(())
}

// Counts the stones of the iterator, and asserts that each is the one of its rank.
fn count_by_rank(rt: &impl Abort, tree: &WeightTree<Stone>) -> usize {
    let mut rank: usize = 0;
    for stone in tree.iter() {
        assert!(rt; rank < tree.len(), "more than {rank} stones come by");
        let want = tree.get(rank);
        assert!(rt;
            stone.number == want.number,
            "{rank}: wanted {want:?}, came {stone:?}"
        );
        rank += 1;
    }
    rank
}

#[test]
fn iter_goes_by_rank(rt: HostRuntime) -> Result<(), Fail> {
    let mut tree = WeightTree::new();
    put_many(&rt, rt.alloc(), &mut tree, 3000, Way::Middle)?;
    let count = count_by_rank(&rt, &tree);
    assert!(rt; count == 3000, "{count} stones come by");
    Ok(())
}
