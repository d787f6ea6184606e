//! The operations that the first wire version can represent.
use pad_model::{Items, Name, Op, OpName, Part, Refusal, Seen, Span, Stamp, op_in_v1};
use std::alloc::Global;
use std::test::Fail;

fn deletion(alloc: Global, counter: u64, replica: u16) -> Result<Part, Refusal> {
    let mut spans = Items::new(alloc);
    spans.push(Span {
        first: Stamp::new(counter, replica)?,
        len: 2,
    })?;
    Ok(Part::Delete(spans))
}

fn parts(alloc: Global, counter: u64, replica: u16) -> Result<Items<Part>, Refusal> {
    let mut parts = Items::new(alloc);
    parts.push(deletion(alloc, counter, replica)?)?;
    Ok(parts)
}

/// Returns true if the first version can represent an operation that erases a stamp and the one after it.
fn is_said(alloc: Global, counter: u64, replica: u16) -> Result<bool, Refusal> {
    let op = Op {
        name: OpName {
            origin: 255,
            number: 1,
        },
        seen: Seen::new(alloc),
        author: Name::from_str(alloc, "ada")?,
        parts: parts(alloc, counter, replica)?,
    };
    Ok(op_in_v1(&op))
}

#[test]
fn says_small_stamps(rt: HostRuntime) -> Result<(), Fail> {
    let cases = [
        (1_099_511_627_775, 255, true),
        (1_099_511_627_776, 255, false),
        (1, 256, false),
    ];
    for (counter, replica, want) in cases {
        let came = is_said(rt.alloc(), counter, replica)?;
        assert!(rt;
            came == want,
            "{counter} of {replica}: wanted {want}, came {came}"
        );
    }
    Ok(())
}
