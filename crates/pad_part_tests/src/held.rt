//! Operations that wait for others: the answers of a hold, compared with results worked out by hand.
use crate::held::HoldCall::{Deliver, Fill, Get, Len, Next, Offer, Take};
use holdback::Hold;
use pad_model::{Items, Name, Op, OpName, Refusal, Seen};
use std::alloc::Global;
use std::process::Abort;
use std::test::Fail;

/// An operation, and the count of another origin for which it waits.
#[derive(Clone, Copy, Debug)]
pub struct Made {
    pub name: OpName,
    pub needs: OpName,
}

pub fn name(origin: u16, number: u64) -> OpName {
    OpName { origin, number }
}

/// Returns an operation that waits for no other origin.
pub fn plain(origin: u16, number: u64) -> Made {
    Made {
        name: name(origin, number),
        needs: name(origin, 0),
    }
}

fn op(alloc: Global, made: Made) -> Result<Op, Refusal> {
    let author = Name::from_str(alloc, "ann")?;
    let mut seen = Seen::new(alloc);
    seen.set(made.needs.origin, made.needs.number)?;
    Ok(Op {
        name: made.name,
        seen,
        author,
        parts: Items::new(alloc),
    })
}

/// A call of a hold, or an action of its caller.
#[derive(Clone, Copy, Debug)]
enum HoldCall {
    /// Offers 256 operations that wait. The answer is that of all of them, or of the first one that is not held.
    Fill,
    Offer(Made),
    Deliver(OpName),
    Next,
    Get(Made),
    Take(Made),
    Len,
}

#[derive(Clone, Copy, Debug, PartialEq)]
pub enum HoldAnswer {
    Ready,
    Held,
    Repeat,
    Full,
    Delivered,
    Name(OpName),
    /// The operation that was asked for, equal in all its parts.
    Itself,
    Another,
    Nothing,
    Count(u64),
}

/// Compares an operation that was returned with the one that was made.
fn found(alloc: Global, found: Option<&Op>, made: Made) -> Result<HoldAnswer, Refusal> {
    let Some(found) = found else {
        return Ok(HoldAnswer::Nothing);
    };
    if *found == op(alloc, made)? {
        Ok(HoldAnswer::Itself)
    } else {
        Ok(HoldAnswer::Another)
    }
}

/// A hold, and the version vector of the delivered operations.
#[derive(Drop)]
pub struct HoldRig {
    pub hold: Hold,
    pub seen: Seen,
}

impl HoldRig {
    pub fn new(alloc: Global) -> HoldRig {
        HoldRig {
            hold: Hold::new(alloc),
            seen: Seen::new(alloc),
        }
    }

    pub fn offer(&mut self, alloc: Global, made: Made) -> Result<HoldAnswer, Refusal> {
        let answer = self.hold.offer(op(alloc, made)?, &self.seen);
        match answer {
            Ok(holdback::Offer::Ready(op)) => match found(alloc, Some(&op), made)? {
                HoldAnswer::Itself => Ok(HoldAnswer::Ready),
                other => Ok(other),
            },
            Ok(holdback::Offer::Held) => Ok(HoldAnswer::Held),
            Ok(holdback::Offer::Repeat) => Ok(HoldAnswer::Repeat),
            Err(Refusal::HoldFull) => Ok(HoldAnswer::Full),
            Err(refusal) => Err(refusal),
        }
    }

    pub fn deliver(&mut self, name: OpName) -> Result<HoldAnswer, Refusal> {
        self.seen.set(name.origin, name.number)?;
        Ok(HoldAnswer::Delivered)
    }

    fn next(&self) -> HoldAnswer {
        match self.hold.next_ready(&self.seen) {
            Some(name) => HoldAnswer::Name(name),
            None => HoldAnswer::Nothing,
        }
    }

    fn take(&mut self, alloc: Global, made: Made) -> Result<HoldAnswer, Refusal> {
        let taken = self.hold.take(made.name);
        found(alloc, taken.as_ref(), made)
    }

    fn fill(&mut self, alloc: Global) -> Result<HoldAnswer, Refusal> {
        for number in 2..258 {
            let told = self.offer(alloc, plain(1, number))?;
            if told != HoldAnswer::Held {
                return Ok(told);
            }
        }
        Ok(HoldAnswer::Held)
    }

    fn tell(&mut self, alloc: Global, call: HoldCall) -> Result<HoldAnswer, Refusal> {
        match call {
            Fill => self.fill(alloc),
            Offer(made) => self.offer(alloc, made),
            Deliver(name) => self.deliver(name),
            Next => Ok(self.next()),
            Get(made) => found(alloc, self.hold.get(made.name), made),
            Take(made) => self.take(alloc, made),
            Len => Ok(HoldAnswer::Count(self.hold.len())),
        }
    }

    /// Makes the calls, and asserts the answer of each.
    fn tell_all(
        &mut self,
        rt: &impl Abort,
        alloc: Global,
        calls: &[(HoldCall, HoldAnswer)],
    ) -> Result<(), Refusal> {
        for (place, (call, want)) in calls.iter().enumerate() {
            let came = self.tell(alloc, *call)?;
            assert!(rt;
                came == *want,
                "call {place}, {call:?}: wanted {want:?}, came {came:?}"
            );
        }
        Ok(())
    }
}

/// Makes the calls on a new hold.
fn tell_new(
    rt: &impl Abort,
    alloc: Global,
    calls: &[(HoldCall, HoldAnswer)],
) -> Result<(), Refusal> {
    let mut rig = HoldRig::new(alloc);
    rig.tell_all(rt, alloc, calls)
}

const FIRST_NAME: OpName = OpName {
    origin: 2,
    number: 1,
};

const SECOND_NAME: OpName = OpName {
    origin: 2,
    number: 2,
};

const NONE_OF_ITS_ORIGIN: OpName = OpName {
    origin: 2,
    number: 0,
};

const FIRST: Made = Made {
    name: FIRST_NAME,
    needs: NONE_OF_ITS_ORIGIN,
};

const SECOND: Made = Made {
    name: SECOND_NAME,
    needs: NONE_OF_ITS_ORIGIN,
};

const IN_TURN: &[(HoldCall, HoldAnswer)] = &[
    (Offer(SECOND), HoldAnswer::Held),
    (Offer(SECOND), HoldAnswer::Repeat),
    (Next, HoldAnswer::Nothing),
    (Offer(FIRST), HoldAnswer::Ready),
    (Deliver(FIRST_NAME), HoldAnswer::Delivered),
    (Offer(FIRST), HoldAnswer::Repeat),
    (Next, HoldAnswer::Name(SECOND_NAME)),
    (Get(SECOND), HoldAnswer::Itself),
    (Take(FIRST), HoldAnswer::Nothing),
    (Len, HoldAnswer::Count(1)),
    (Take(SECOND), HoldAnswer::Itself),
    (Get(SECOND), HoldAnswer::Nothing),
    (Len, HoldAnswer::Count(0)),
];

#[test]
fn a_later_operation_waits_for_the_one_before(rt: HostRuntime) -> Result<(), Fail> {
    Ok(tell_new(&rt, rt.alloc(), IN_TURN)?)
}

const THIRD_NAME: OpName = OpName {
    origin: 3,
    number: 1,
};

/// An operation that waits for the first one of another origin.
const THIRD: Made = Made {
    name: THIRD_NAME,
    needs: FIRST_NAME,
};

const OF_TWO_ORIGINS: &[(HoldCall, HoldAnswer)] = &[
    (Offer(THIRD), HoldAnswer::Held),
    (Next, HoldAnswer::Nothing),
    (Offer(FIRST), HoldAnswer::Ready),
    (Deliver(FIRST_NAME), HoldAnswer::Delivered),
    (Next, HoldAnswer::Name(THIRD_NAME)),
];

#[test]
fn an_operation_waits_for_another_origin(rt: HostRuntime) -> Result<(), Fail> {
    Ok(tell_new(&rt, rt.alloc(), OF_TWO_ORIGINS)?)
}

/// When the hold is full, this operation is still ready, and `LAST_OF_ALL` is a repeat.
const FIRST_OF_ALL: Made = Made {
    name: OpName {
        origin: 1,
        number: 1,
    },
    needs: OpName {
        origin: 1,
        number: 0,
    },
};

const LAST_OF_ALL: Made = Made {
    name: OpName {
        origin: 1,
        number: 257,
    },
    needs: OpName {
        origin: 1,
        number: 0,
    },
};

const FULL: &[(HoldCall, HoldAnswer)] = &[
    (Fill, HoldAnswer::Held),
    (Len, HoldAnswer::Count(256)),
    (Offer(SECOND), HoldAnswer::Full),
    (Get(SECOND), HoldAnswer::Nothing),
    (Offer(LAST_OF_ALL), HoldAnswer::Repeat),
    (Offer(FIRST_OF_ALL), HoldAnswer::Ready),
    (Len, HoldAnswer::Count(256)),
];

#[test]
fn a_full_hold_refuses_what_must_wait(rt: HostRuntime) -> Result<(), Fail> {
    Ok(tell_new(&rt, rt.alloc(), FULL)?)
}
