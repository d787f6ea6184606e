//! The paths down a tree of 1 to 64 stones: the stones that a search asks.
use crate::index::stone::{Stone, put};
use std::alloc::Global;
use std::process::Abort;
use std::test::Fail;
use weight_tree::WeightTree;

// The most visits that a path is counted with.
const MOST: u32 = 16;

// A search for the place of a number among stones that are numbered by rank.
#[derive(Clone, Copy, Debug)]
struct Way {
    rank: usize,
    visits: usize,
    calls: usize,
    // The number of the call that asked the stone of the number; 0 if none did.
    met_at: usize,
    asked_twice: bool,
}

fn walk(tree: &WeightTree<Stone>, number: u64) -> Way {
    let mut calls: usize = 0;
    let mut met_at: usize = 0;
    let mut asked: u64 = 0;
    let mut asked_twice = false;
    let placed = tree.rank_by(|stone| {
        calls = calls.wrapping_add(1);
        let bit = 1u64.wrapping_shl((stone.number % 64) as u32);
        asked_twice = asked_twice || asked & bit != 0;
        asked |= bit;
        if stone.number == number {
            met_at = calls;
        }
        stone.number.cmp(&number)
    });
    Way {
        rank: placed.rank,
        visits: placed.visits,
        calls,
        met_at,
        asked_twice,
    }
}

// Returns true if a search makes as many calls as it reports, asks no stone twice, and asks the stone of the number
// where `find` stops.
fn is_straight(tree: &WeightTree<Stone>, number: u64, way: Way) -> bool {
    let stops = match tree.find(number) {
        Some(found) => found.visits,
        None => 0,
    };
    way.rank as u64 == number && way.visits == way.calls && !way.asked_twice && way.met_at == stops
}

// Asserts that the paths to all places of a binary tree are those of its leaves: the sum of 2^-visits is 1 (Kraft's
// equality).
fn walk_to_each(rt: &impl Abort, tree: &WeightTree<Stone>, count: u64) {
    let mut sum: u64 = 0;
    for number in 0..=count {
        let way = walk(tree, number);
        assert!(rt;
            is_straight(tree, number, way),
            "{number} among {count}: came {way:?}"
        );
        assert!(rt; way.visits <= MOST as usize, "{} visits", way.visits);
        let share = MOST.wrapping_sub(way.visits as u32);
        sum = sum.wrapping_add(1u64.wrapping_shl(share));
    }
    assert!(rt; sum == 1u64.wrapping_shl(MOST), "{sum} for {count} stones");
}

fn grow(rt: &impl Abort, alloc: Global, tree: &mut WeightTree<Stone>) -> Result<(), Fail> {
    for number in 0..64 {
        let rank = tree.len();
        put(rt, alloc, tree, rank, Stone { number, weight: 1 })?;
        walk_to_each(rt, tree, number + 1);
    }
    Ok(())
}

#[test]
fn ways_down_small_trees(rt: HostRuntime) -> Result<(), Fail> {
    let mut tree = WeightTree::new();
    grow(&rt, rt.alloc(), &mut tree)
}
