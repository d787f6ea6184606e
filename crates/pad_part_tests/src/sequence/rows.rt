//! Rows, texts and version vectors, compared with contents worked out by hand.
use pad_model::{Counted, Items, OpName, Refusal, Seen, Text};
use std::alloc::Global;
use std::test::Fail;

#[test]
fn gives_its_items(rt: HostRuntime) -> Result<(), Fail> {
    let mut row: Items<u16> = Items::new(rt.alloc());
    assert!(rt; row.is_empty(), "{row:?}");
    row.push(7)?;
    row.push(9)?;
    assert!(rt; row.get(1) == Some(&9), "{row:?}");
    assert!(rt; row.get(2).is_none(), "{row:?}");
    let copy = row.clone()?;
    assert!(rt; copy == row, "wanted {row:?}, came {copy:?}");
    Ok(())
}

#[test]
fn writes_what_it_read(rt: HostRuntime) -> Result<(), Fail> {
    let mut text = Text::from_str(rt.alloc(), "añ")?;
    text.push('☺')?;
    assert!(rt; text.len() == 3 && !text.is_empty(), "{text:?}");
    let came = text.to_string(rt.alloc())?;
    assert!(rt; came.as_str() == "añ☺", "wanted añ☺, came {came}");
    Ok(())
}

fn filled(alloc: Global) -> Result<Seen, Refusal> {
    let mut seen = Seen::new(alloc);
    seen.set(7, 3)?;
    seen.advance(2)?;
    seen.advance(7)?;
    seen.set(5, 1)?;
    seen.set(5, 0)?;
    Ok(seen)
}

#[test]
fn counts_by_origin(rt: HostRuntime) -> Result<(), Fail> {
    let seen = filled(rt.alloc())?;
    let pairs = [
        Counted {
            origin: 2,
            count: 1,
        },
        Counted {
            origin: 7,
            count: 4,
        },
    ];
    assert!(rt;
        seen.pairs() == pairs.as_slice(),
        "wanted {pairs:?}, came {seen:?}"
    );
    assert!(rt; seen.count(5) == 0, "wanted none of 5, came {seen:?}");
    let covered = [(7, 4, true), (7, 5, false), (5, 1, false), (5, 0, true)];
    for (origin, number, want) in covered {
        let came = seen.covers(OpName { origin, number });
        assert!(rt;
            came == want,
            "{number} of {origin}: wanted {want}, came {came}"
        );
    }
    let copy = seen.clone()?;
    assert!(rt; copy == seen, "wanted {seen:?}, came {copy:?}");
    Ok(())
}
