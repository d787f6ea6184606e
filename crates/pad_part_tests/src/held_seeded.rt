//! Operations that wait for others: a hold compared with a plain list, over 500 offers in a seeded order.
use crate::held::{HoldAnswer, HoldRig, Made, name, plain};
use dice::Dice;
use holdback::MAX_HELD;
use pad_model::{OpName, Refusal, Seen};
use std::alloc::Global;
use std::process::Abort;
use std::test::Fail;

fn roll_origin(dice: &mut Dice) -> u16 {
    match dice.roll(4) {
        0 => 7,
        1 => 2,
        2 => 300,
        _ => 65_535,
    }
}

/// Returns some operation. A third of them are close to the delivered ones. Some wait for a greater origin, so that not
/// all wait for ever.
fn some_operation(dice: &mut Dice, seen: &Seen) -> Made {
    let origin = roll_origin(dice);
    let count = seen.count(origin);
    let number = match dice.roll(3) {
        0 => count.saturating_add(1).saturating_add(dice.roll(2)),
        _ => dice.roll(300).saturating_add(1),
    };
    let other = roll_origin(dice);
    let more = u64::from(other > origin && dice.roll(3) == 0);
    Made {
        name: name(origin, number),
        needs: name(other, seen.count(other).saturating_add(more)),
    }
}

fn may_go(made: Made, seen: &Seen) -> bool {
    made.name.number == seen.count(made.name.origin).saturating_add(1)
        && made.needs.number <= seen.count(made.needs.origin)
}

fn is_there(held: &[Made], name: OpName) -> bool {
    for made in held {
        if made.name == name {
            return true;
        }
    }
    false
}

fn expected(held: &[Made], made: Made, seen: &Seen) -> HoldAnswer {
    if made.name.number <= seen.count(made.name.origin) || is_there(held, made.name) {
        HoldAnswer::Repeat
    } else if may_go(made, seen) {
        HoldAnswer::Ready
    } else if held.len() as u64 == MAX_HELD {
        HoldAnswer::Full
    } else {
        HoldAnswer::Held
    }
}

fn expected_next(held: &[Made], seen: &Seen) -> Option<OpName> {
    let mut next: Option<OpName> = None;
    let mut least = u16::MAX;
    for made in held {
        if may_go(*made, seen) && made.name.origin <= least {
            least = made.name.origin;
            next = Some(made.name);
        }
    }
    next
}

/// The number of offers in which each case occurred.
#[derive(Clone, Copy, Debug)]
struct Cases {
    ready: u64,
    held: u64,
    repeated: u64,
    refused: u64,
    released: u64,
}

impl Cases {
    fn note(&mut self, told: HoldAnswer, next: Option<OpName>) {
        let count = match told {
            HoldAnswer::Ready => &mut self.ready,
            HoldAnswer::Held => &mut self.held,
            HoldAnswer::Repeat => &mut self.repeated,
            _ => &mut self.refused,
        };
        *count = count.saturating_add(1);
        self.released = self.released.saturating_add(u64::from(next.is_some()));
    }

    fn are_many(&self) -> bool {
        self.ready >= 30
            && self.held >= 30
            && self.repeated >= 30
            && self.refused >= 30
            && self.released >= 30
    }
}

/// A hold, and a plain list beside it.
#[derive(Drop)]
struct HoldPair {
    rig: HoldRig,
    held: Vec<Made>,
}

impl HoldPair {
    /// Creates a pair in which a hundred operations of a fifth origin wait throughout.
    fn new(alloc: Global) -> Result<HoldPair, Refusal> {
        let mut pair = HoldPair {
            rig: HoldRig::new(alloc),
            held: Vec::new(alloc),
        };
        for number in 2..102 {
            pair.rig.offer(alloc, plain(9, number))?;
            pair.held.push(plain(9, number))?;
        }
        Ok(pair)
    }

    /// Offers an operation, delivers it if it is ready, and asserts that the answer says so.
    fn offer(
        &mut self,
        rt: &impl Abort,
        alloc: Global,
        made: Made,
        want: HoldAnswer,
    ) -> Result<(), Refusal> {
        let came = self.rig.offer(alloc, made)?;
        assert!(rt;
            came == want,
            "offer {made:?}: wanted {want:?}, came {came:?}"
        );
        if want == HoldAnswer::Ready {
            self.rig.deliver(made.name)?;
        }
        if want == HoldAnswer::Held {
            self.held.push(made)?;
        }
        Ok(())
    }

    /// Delivers the next held operation, and asserts that the hold has it.
    fn release(&mut self, rt: &impl Abort, name: OpName) -> Result<(), Refusal> {
        assert!(rt;
            self.rig.hold.take(name).is_some(),
            "{name:?} is next, and not held"
        );
        self.held.retain(|made| made.name != name);
        self.rig.deliver(name)?;
        Ok(())
    }

    fn some_operation(&self, dice: &mut Dice) -> (Made, HoldAnswer) {
        let made = some_operation(dice, &self.rig.seen);
        (made, expected(self.held.as_slice(), made, &self.rig.seen))
    }

    fn expected_next(&self) -> Option<OpName> {
        expected_next(self.held.as_slice(), &self.rig.seen)
    }

    /// Asserts that the next operation of the hold is that of the list, and releases it.
    fn release_next(&mut self, rt: &impl Abort) -> Result<Option<OpName>, Refusal> {
        let want = self.expected_next();
        let came = self.rig.hold.next_ready(&self.rig.seen);
        assert!(rt; came == want, "next: wanted {want:?}, came {came:?}");
        if let Some(name) = want {
            self.release(rt, name)?;
        }
        Ok(want)
    }

    fn is_as_long(&self, rt: &impl Abort) {
        let (came, want) = (self.rig.hold.len(), self.held.len() as u64);
        assert!(rt; came == want, "held: wanted {want}, came {came}");
    }

    /// Offers some operation, delivers the next one, and asserts that all is as in the list.
    fn play(
        &mut self,
        rt: &impl Abort,
        alloc: Global,
        dice: &mut Dice,
        cases: &mut Cases,
    ) -> Result<(), Refusal> {
        let (made, want) = self.some_operation(dice);
        self.offer(rt, alloc, made, want)?;
        let next = self.release_next(rt)?;
        cases.note(want, next);
        self.is_as_long(rt);
        Ok(())
    }
}

const OFFERS: u64 = 500;

fn play_all(rt: &impl Abort, alloc: Global, cases: &mut Cases) -> Result<(), Refusal> {
    let mut dice = Dice::new(1);
    let mut pair = HoldPair::new(alloc)?;
    for _ in 0..OFFERS {
        pair.play(rt, alloc, &mut dice, cases)?;
    }
    Ok(())
}

#[test]
fn a_hold_is_a_filter_of_a_list(rt: HostRuntime) -> Result<(), Fail> {
    let mut cases = Cases {
        ready: 0,
        held: 0,
        repeated: 0,
        refused: 0,
        released: 0,
    };
    play_all(&rt, rt.alloc(), &mut cases)?;
    assert!(rt;
        cases.are_many(),
        "some case came up in fewer than 30 offers: {cases:?}"
    );
    Ok(())
}
