//! When and in which visit operations were made, as someone counts them.
use op_log::{MadeList, Tally};
use std::test::Fail;

/// The number of operations from then on, the time, and the visit that made the new ones.
const FILLS: [(u64, u64, u64); 5] = [
    (2, 100, 7),
    (3, 90, 0),
    (5, 200, 7),
    (4, 300, 9),
    (6, 300, 4_294_967_296),
];

/// A visit, how many operations it made, and the place of the last of them.
const TALLIES: [(u64, u64, Option<u64>); 4] = [
    (7, 4, Some(4)),
    (0, 2, Some(5)),
    (9, 0, None),
    (4_294_967_296, 0, None),
];

#[test]
fn a_visit_made_so_many_and_that_one_last(rt: HostRuntime) -> Result<(), Fail> {
    let mut made = MadeList::new(rt.alloc());
    for (count, now, visit) in FILLS {
        made.reserve(count)?;
        made.fill(count, now, visit);
    }
    assert!(rt; made.len() == 6, "came {}", made.len());
    assert!(rt; made.last() == 300, "came {}", made.last());
    assert!(rt; made.last_visit() == 0, "came {}", made.last_visit());
    assert!(rt;
        made.times().get(2) == Some(100),
        "came {:?}",
        made.times().get(2)
    );
    for (visit, count, last) in TALLIES {
        let want = Tally { made: count, last };
        let came = made.tally(visit);
        assert!(rt;
            came == want,
            "visit {visit}: wanted {want:?}, came {came:?}"
        );
    }
    Ok(())
}
