//! Three replicas that type at once and take one another's operations in different orders.
//!
//! All replicas that type in a round use the same counter, so that each round has ties.
use crate::replica::{Replica, stamp_of};
use dice::Dice;
use pad_model::{Items, Name, Op, OpName, Part, Refusal, Run, Seen, Sequence, Text};
use std::alloc::Global;
use std::process::Abort;
use std::test::Fail;

const ROUNDS: u64 = 167;

/// The order in which each replica takes the operations of a round, its own first.
const ORDERS: [[usize; 3]; 3] = [[0, 1, 2], [1, 2, 0], [2, 1, 0]];

/// Types one to three letters at a place of the text, with a counter that is `ahead` of the clock.
pub fn typed(
    alloc: Global,
    site: &Replica,
    replica: u16,
    ahead: u64,
    dice: &mut Dice,
) -> Result<Part, Refusal> {
    let (seq, rev) = (site.sequence(), site.rev());
    let after = match dice.roll(seq.len_at(rev).saturating_add(1)) {
        0 => None,
        place => seq.stamp_at(rev, place - 1),
    };
    let text = match dice.roll(3) {
        0 => "x",
        1 => "yé",
        _ => "a😀b",
    };
    Ok(Part::Insert(Run {
        first: stamp_of((seq.clock().saturating_add(ahead), replica))?,
        after,
        text: Text::from_str(alloc, text)?,
    }))
}

/// Erases up to four characters, from a place of the text on.
pub fn erased(alloc: Global, site: &Replica, dice: &mut Dice) -> Result<Part, Refusal> {
    let (seq, rev) = (site.sequence(), site.rev());
    let len = seq.len_at(rev);
    let at = dice.roll(len).min(len);
    let count = dice.roll(4).saturating_add(1).min(len - at);
    Ok(Part::Delete(seq.spans_at(alloc, rev, at, count)?))
}

/// Returns the next operation of a replica: half of the time it types, otherwise it erases, or does both at once.
pub fn made(alloc: Global, site: &Replica, name: OpName, dice: &mut Dice) -> Result<Op, Refusal> {
    let kind = match site.sequence().len_at(site.rev()) {
        0..=9 => 0,
        _ => dice.roll(10),
    };
    let mut parts = Items::new(alloc);
    if kind >= 5 {
        parts.push(erased(alloc, site, dice)?)?;
    }
    if kind <= 5 {
        parts.push(typed(alloc, site, name.origin, 1, dice)?)?;
    }
    Ok(Op {
        name,
        seen: Seen::new(alloc),
        author: Name::from_str(alloc, "ada")?,
        parts,
    })
}

/// The number of operations that type, that erase and that were refused, and the number of characters that they hid.
#[derive(Clone, Copy, Debug, Default)]
pub struct OperationShares {
    pub typed: u64,
    pub erased: u64,
    refused: u64,
    hidden: u64,
}

impl OperationShares {
    fn count(&mut self, ops: &[Op]) {
        for op in ops {
            self.count_parts(op.parts.as_slice());
        }
    }

    pub fn count_parts(&mut self, parts: &[Part]) {
        for part in parts {
            match part {
                Part::Insert(_) => self.typed = self.typed.saturating_add(1),
                _ => self.erased = self.erased.saturating_add(1),
            }
        }
    }

    fn answer(&mut self, answer: Result<u64, Refusal>) {
        match answer {
            Ok(hidden) => self.hidden = self.hidden.saturating_add(hidden),
            Err(_) => self.refused = self.refused.saturating_add(1),
        }
    }
}

/// Returns true if two replicas have the same character at a place. Revisions are not compared, since each replica
/// counts its own.
fn agree(one: &Replica, other: &Replica, place: u64) -> bool {
    let Some(a) = one.sequence().cell_at(place) else {
        return false;
    };
    let Some(b) = other.sequence().cell_at(place) else {
        return false;
    };
    a.stamp == b.stamp
        && a.parent == b.parent
        && a.character == b.character
        && a.author == b.author
        && a.died.is_some() == b.died.is_some()
}

/// The number of erased characters.
fn count_dead(site: &Replica) -> u64 {
    let cells = site.sequence().cell_count();
    cells.saturating_sub(site.sequence().len_at(site.rev()))
}

/// Makes an operation of each replica.
fn all_made(
    alloc: Global,
    sites: &[Replica],
    number: u64,
    dice: &mut Dice,
) -> Result<Vec<Op>, Refusal> {
    let mut ops = Vec::new(alloc);
    let mut origin: u16 = 1;
    for site in sites {
        ops.push(made(alloc, site, OpName { origin, number }, dice)?)?;
        origin = origin.saturating_add(1);
    }
    Ok(ops)
}

fn take(alloc: Global, site: &mut Replica, ops: &[Op], place: usize, shares: &mut OperationShares) {
    if let Some(op) = ops.get(place) {
        shares.answer(site.deliver(alloc, op));
    }
}

/// Lets a replica take the operations in an order, and the first of them once more.
fn take_all(
    alloc: Global,
    site: &mut Replica,
    ops: &[Op],
    order: [usize; 3],
    shares: &mut OperationShares,
) {
    let [first, second, third] = order;
    for place in [first, second, third, first] {
        take(alloc, site, ops, place, shares);
    }
}

fn exchange(alloc: Global, sites: &mut [Replica], ops: &[Op], shares: &mut OperationShares) {
    for (place, order) in ORDERS.iter().enumerate() {
        if let Some(site) = sites.get_mut(place) {
            take_all(alloc, site, ops, *order, shares);
        }
    }
}

/// Lets each replica make an operation, then take those of all three in its own order, and its own once more.
fn round(
    alloc: Global,
    sites: &mut [Replica],
    number: u64,
    dice: &mut Dice,
    shares: &mut OperationShares,
) -> Result<(), Refusal> {
    let ops = all_made(alloc, sites, number, dice)?;
    shares.count(&ops);
    exchange(alloc, sites, &ops, shares);
    Ok(())
}

fn three_sites(alloc: Global) -> Result<Vec<Replica>, Refusal> {
    let mut sites = Vec::new(alloc);
    for _ in 0..3 {
        sites.push(Replica::new(alloc)?)?;
    }
    Ok(sites)
}

fn play(alloc: Global, sites: &mut [Replica]) -> Result<OperationShares, Refusal> {
    let mut dice = Dice::new(7);
    let mut shares = OperationShares::default();
    for number in 1..=ROUNDS {
        round(alloc, sites, number, &mut dice, &mut shares)?;
    }
    Ok(shares)
}

/// Asserts that two replicas have the same characters.
fn keep_the_same(rt: &impl Abort, one: &Replica, other: &Replica) {
    let cells = one.sequence().cell_count();
    let came = other.sequence().cell_count();
    assert!(rt; came == cells, "{cells} characters and {came}");
    for place in 0..cells {
        assert!(rt;
            agree(one, other, place),
            "at {place}: came {:?} and {:?}",
            one.sequence().cell_at(place),
            other.sequence().cell_at(place)
        );
    }
}

/// Asserts that all replicas have the same characters, and that this many are erased in each.
fn all_agree(rt: &impl Abort, sites: &[Replica], erased: u64) {
    assert!(rt; sites.len() == 3);
    for site in sites {
        keep_the_same(rt, &sites[0], site);
        let came = count_dead(site);
        assert!(rt; came == erased, "wanted {erased} erased, came {came}");
    }
}

#[test]
fn replicas_agree_in_every_order(rt: HostRuntime) -> Result<(), Fail> {
    let mut sites = three_sites(rt.alloc())?;
    let shares = play(rt.alloc(), &mut sites)?;
    assert!(rt;
        shares.typed >= 250 && shares.erased >= 200,
        "too few of some kind: {shares:?}"
    );
    assert!(rt;
        shares.refused == shares.typed,
        "each that types is refused once: {shares:?}"
    );
    assert!(rt;
        shares.hidden % 3 == 0,
        "each hides three times as much: {shares:?}"
    );
    all_agree(&rt, &sites, shares.hidden / 3);
    Ok(())
}
