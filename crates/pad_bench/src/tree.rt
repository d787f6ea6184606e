//! Work on `WeightTree`: growing one, and going over its items.
ghost use Rattle.std.specs.Prelude.{◌≡◌, IfOk, length};

use crate::SEED;
use dice::Dice;
use pad_model::Refusal;
use std::alloc::Global;
use weight_tree::{Node, Weigh, WeightTree};

#[derive(Clone, Copy)]
struct WeighedItem {
    number: u32,
    weight: u32,
}

impl Weigh for WeighedItem {
    ghost weight_of = { λ stone. stone.weight };

    fn weight(&self) -> u64 {
        u64::from(self.weight)
    }
}

// A tree of that many stones, each put at a random rank.
fn grown(alloc: Global, dice: &mut Dice, size: u32) -> Result<WeightTree<WeighedItem>, Refusal>
    ensures { IfOk result (λ tree. length tree.items ≡ size) }
{
    let mut tree = WeightTree::new();
    for number in 0..size {
        let rank = dice.roll(u64::from(number) + 1) as usize;
        let weight = dice.roll(10) as u32;
        let node = Node::make(alloc, WeighedItem { number, weight })?;
        tree.insert(rank, node);
    }
    Ok(tree)
}

/// Grows trees, and looks at each at a thousand random ranks.
pub fn insert(alloc: Global, size: u32, times: u32) -> Result<String, Refusal> {
    let mut dice = Dice::new(SEED);
    let mut weight: u64 = 0;
    let mut levels: usize = 0;
    let mut check: u32 = 0;
    for _ in 0..times {
        let tree = grown(alloc, &mut dice, size)?;
        weight = weight.wrapping_add(tree.weight());
        levels = levels.wrapping_add(tree.height());
        if size == 0 {
            continue;
        }
        for _ in 0..1000 {
            let stone = tree.get(dice.roll(u64::from(size)) as usize);
            check = check.wrapping_mul(31).wrapping_add(stone.number);
        }
    }
    Ok(format!(in alloc; "weight {weight}, levels {levels}, check {check}")?)
}

/// Goes over all items of one tree that many times.
pub fn iterate(alloc: Global, size: u32, times: u32) -> Result<String, Refusal> {
    let tree = grown(alloc, &mut Dice::new(SEED), size)?;
    let mut items: u64 = 0;
    let mut check: u32 = 0;
    for _ in 0..times {
        for stone in tree.iter() {
            items = items.wrapping_add(1);
            check = check.wrapping_mul(31).wrapping_add(stone.number);
        }
    }
    Ok(format!(in alloc; "items {items}, check {check}")?)
}
