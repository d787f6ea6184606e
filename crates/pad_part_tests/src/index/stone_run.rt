//! A hundred thousand seeded operations on a tree and on a plain list, which give the same results.
use crate::index::counts::lie_within;
use crate::index::stone::{Stone, put};
use dice::Dice;
use std::alloc::Global;
use std::process::Abort;
use std::test::Fail;
use weight_tree::{Found, WeightTree};

// The weight of the first `count` stones of a list.
fn weight_of(list: &[Stone], count: usize) -> u64 {
    let mut sum: u64 = 0;
    for stone in list.iter().take(count) {
        sum = sum.wrapping_add(stone.weight);
    }
    sum
}

// The rank and offset at which a walk from the start finds a number.
fn walk_to(list: &[Stone], mut number: u64) -> Option<(usize, u64)> {
    for (rank, stone) in list.iter().enumerate() {
        if number < stone.weight {
            return Some((rank, number));
        }
        number -= stone.weight;
    }
    None
}

// A tree, and the list that it should equal, with the stones in the order of their numbers.
#[derive(Drop)]
pub struct Both {
    tree: WeightTree<Stone>,
    list: Vec<Stone>,
}

impl Both {
    pub fn new(alloc: Global) -> Both {
        Both {
            tree: WeightTree::new(),
            list: Vec::new(alloc),
        }
    }

    // The number of stones, and the height of the tree.
    pub fn size(&self) -> (usize, usize) {
        (self.list.len(), self.tree.height())
    }

    // The rank of the first stone whose number is not below this one.
    fn rank_of(&self, rt: &impl Abort, number: u64) -> usize {
        let rank = self.list.partition_point(|stone| stone.number < number);
        let placed = self.tree.rank_by(|stone| stone.number.cmp(&number));
        let came = placed.rank;
        assert!(rt;
            came == rank,
            "rank of {number}: wanted {rank}, came {came}"
        );
        rank
    }

    pub fn insert(&mut self, rt: &impl Abort, alloc: Global, stone: Stone) -> Result<(), Fail> {
        let rank = self.rank_of(rt, stone.number);
        assert!(rt; rank <= self.list.len());
        self.list.insert(rank, stone)?;
        put(rt, alloc, &mut self.tree, rank, stone)
    }

    pub fn remove(&mut self, rt: &impl Abort, rank: usize) {
        assert!(rt; rank < self.tree.len() && rank < self.list.len());
        let want = self.list.remove(rank);
        let came = self.tree.remove(rank);
        assert!(rt;
            came == want,
            "remove {rank}: wanted {want:?}, came {came:?}"
        );
    }

    #[tactic(auto, using(weight_tree::proofs::CallerLemmas::sum_replaced_le))]
    fn replace(&mut self, rt: &impl Abort, rank: usize, weight: u64) {
        assert!(rt; rank < self.tree.len() && rank < self.list.len());
        assert!(rt; self.tree.weight() <= u64::MAX - weight);
        let old = self.list[rank];
        let new = Stone {
            number: old.number,
            weight,
        };
        self.list[rank] = new;
        let came = self.tree.replace(rank, new);
        assert!(rt;
            came == old,
            "replace {rank}: wanted {old:?}, came {came:?}"
        );
    }

    fn get(&self, rt: &impl Abort, rank: usize) {
        assert!(rt; rank < self.tree.len());
        let (came, want) = (self.tree.get(rank), self.list.get(rank));
        assert!(rt;
            Some(came) == want,
            "get {rank}: wanted {want:?}, came {came:?}"
        );
    }

    pub fn before(&self, rt: &impl Abort, rank: usize) {
        assert!(rt; rank <= self.tree.len());
        let (came, want) = (
            self.tree.before(rank),
            weight_of(self.list.as_slice(), rank),
        );
        assert!(rt; came == want, "before {rank}: wanted {want}, came {came}");
    }

    // Asserts that both find a number alike, and returns whether it falls in a stone.
    pub fn find(&self, rt: &impl Abort, number: u64) -> bool {
        let want = walk_to(self.list.as_slice(), number);
        let came = match self.tree.find(number) {
            None => None,
            Some(Found { rank, offset, .. }) => Some((rank, offset)),
        };
        assert!(rt;
            came == want,
            "find {number}: wanted {want:?}, came {came:?}"
        );
        want.is_some()
    }

    pub fn weight(&self, rt: &impl Abort) {
        let want = weight_of(self.list.as_slice(), self.list.len());
        let came = self.tree.weight();
        assert!(rt; came == want, "weight: wanted {want}, came {came}");
    }

    pub fn len(&self, rt: &impl Abort) {
        let (came, want) = (self.tree.len(), self.list.len());
        assert!(rt; came == want, "len: wanted {want}, came {came}");
    }

    pub fn items(&self, rt: &impl Abort) {
        let mut stones = self.tree.iter();
        for want in self.list.iter() {
            let came = stones.next();
            assert!(rt; came == Some(want), "items: wanted {want:?}, came {came:?}");
        }
        let came = stones.next();
        assert!(rt; came.is_none(), "items: wanted the end, came {came:?}");
    }

    // Makes an operation of a kind from 0 to 9, and returns whether it found what it looked for, which a `find` may
    // not.
    fn step(
        &mut self,
        rt: &impl Abort,
        alloc: Global,
        dice: &mut Dice,
        kind: u64,
    ) -> Result<bool, Fail> {
        let number = dice.roll(50_000);
        let weight = dice.roll(10);
        let rank = dice.roll(self.list.len() as u64 + 1) as usize;
        match kind {
            0 | 1 if rank < self.list.len() => self.replace(rt, rank, weight),
            2 if rank < self.list.len() => self.get(rt, rank),
            3 => self.before(rt, rank),
            4 => return Ok(self.find(rt, dice.roll(100_000))),
            5 => {
                self.rank_of(rt, number);
            }
            6 => self.weight(rt),
            7 => self.len(rt),
            8 | 9 => self.insert(rt, alloc, Stone { number, weight })?,
            _ => return Ok(false),
        }
        Ok(true)
    }
}

#[test]
fn a_hundred_thousand_operations_as_on_a_list(rt: HostRuntime) -> Result<(), Fail> {
    let mut dice = Dice::new(2026);
    let mut both = Both::new(rt.alloc());
    let mut kinds = [0u64; 10];
    let mut hits = [0u64; 10];
    for round in 0..100_000u64 {
        let kind = dice.roll(10) as usize;
        let hit = both.step(&rt, rt.alloc(), &mut dice, kind as u64)?;
        kinds[kind] = kinds[kind].wrapping_add(1);
        hits[kind] = hits[kind].wrapping_add(u64::from(hit));
        if round % 25_000 == 0 {
            both.items(&rt);
        }
    }
    both.items(&rt);
    lie_within(&rt, "operations of each kind", &kinds, 9_500, 10_500);
    // About half of the numbers are found, and hardly anything else is missed.
    lie_within(&rt, "numbers found", &hits[4..5], 4_000, 6_000);
    hits[4] = kinds[4];
    lie_within(&rt, "hits of each kind", &hits, 9_401, u64::MAX);
    Ok(())
}
