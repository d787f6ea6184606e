//! Stamps and their order, and the codes of refusals.
use pad_model::{Refusal, Stamp};
use std::test::Fail;

#[test]
fn the_least_and_the_greatest_stamps_are_taken(rt: HostRuntime) -> Result<(), Fail> {
    for (counter, replica) in [
        (1, 1),
        (1_099_511_627_777, 1),
        (281_474_976_710_656, 65_535),
    ] {
        let stamp = Stamp::new(counter, replica)?;
        assert!(rt;
            stamp.counter() == counter && stamp.replica() == replica,
            "wanted {counter} of {replica}, came {stamp:?}"
        );
    }
    Ok(())
}

#[test]
fn what_is_outside_the_limits_is_refused(rt: HostRuntime) {
    for (counter, replica) in [(0, 1), (281_474_976_710_657, 1), (1, 0)] {
        let came = Stamp::new(counter, replica);
        assert!(rt;
            came == Err(Refusal::BadStamp),
            "{counter} of {replica}: wanted BadStamp, came {came:?}"
        );
    }
}

/// Stamps of which each is newer than the one before it.
const RISING: &[(u64, u16)] = &[(1, 1), (1, 2), (2, 1), (2, 65_535), (3, 2)];

/// True if the second of two stamps is newer, true if the first is less, and true if they are the same.
type Order = (bool, bool, bool);

fn order_of(a: (u64, u16), b: (u64, u16)) -> Result<Order, Refusal> {
    let a = Stamp::new(a.0, a.1)?;
    let b = Stamp::new(b.0, b.1)?;
    Ok((b.is_newer(a), a < b, a.is_same(b)))
}

/// Two stamps have the order of their places in `RISING`.
#[test]
fn newer_by_counter_and_then_by_replica(rt: HostRuntime) -> Result<(), Fail> {
    for (i, a) in RISING.iter().enumerate() {
        for (j, b) in RISING.iter().enumerate() {
            let came = order_of(*a, *b)?;
            let want = (i < j, i < j, i == j);
            assert!(rt;
                came == want,
                "{a:?} and {b:?}: wanted {want:?}, came {came:?}"
            );
        }
    }
    Ok(())
}

#[test]
fn the_stamp_of_a_later_character(rt: HostRuntime) -> Result<(), Fail> {
    let (first, sixth) = (Stamp::new(7, 3)?, Stamp::new(12, 3)?);
    assert!(rt;
        first.plus(0) == first,
        "wanted {first:?}, came {:?}",
        first.plus(0)
    );
    assert!(rt;
        first.plus(5) == sixth,
        "wanted {sixth:?}, came {:?}",
        first.plus(5)
    );
    Ok(())
}

#[test]
fn refusals_have_a_number_and_a_name(rt: HostRuntime) {
    for (refusal, code, name) in [
        (Refusal::NotRequest, 102, "NotRequest"),
        (Refusal::PadFull, 324, "PadFull"),
        (Refusal::Memory, 900, "Memory"),
    ] {
        assert!(rt;
            refusal.code() == code && refusal.name() == name,
            "wanted {code} {name}, came {} {}",
            refusal.code(),
            refusal.name()
        );
    }
}
