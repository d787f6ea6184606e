//! Places and labels, compared with results worked out by hand.
ghost use Rattle.std.specs.Prelude.{◌≡◌, IfOk};
ghost use Rattle.std.specs.FinMap as map;

use ident_index::{BlockEntry, IdentIndex, Place, between, spaced};
use pad_model::Stamp;
use std::alloc::Global;
use std::process::Abort;
use std::test::Fail;

fn stamp(counter: u64, replica: u16) -> Result<Stamp, Fail>
    ensures { IfOk result (λ s. s ≡ record { counter = counter; replica = replica }) }
{
    Ok(Stamp::new(counter, replica)?)
}

// Returns an index of the stamps 1 to 5 of replica 1, under the label 100.
fn five_characters(alloc: Global) -> Result<IdentIndex, Fail>
    ensures { IfOk result (λ m. m ≡ map.insert map.empty
        (record { counter = 1; replica = 1 }) (record { len = 5; label = 100 })) }
{
    let mut index = IdentIndex::new(alloc);
    index.add(stamp(1, 1)?, 5, 100)?;
    Ok(index)
}

fn at(first: Stamp, offset: u64, label: u64) -> Option<Place> {
    Some(Place {
        first,
        offset,
        label,
    })
}

/// Asserts the place at which the index finds a stamp.
fn is_at(rt: &impl Abort, index: &IdentIndex, stamp: Stamp, want: Option<Place>) {
    let came = index.locate(stamp);
    assert!(rt; came == want, "{stamp:?}: wanted {want:?}, came {came:?}");
}

#[test]
fn a_cut_gives_the_right_part_its_own_place(rt: HostRuntime) -> Result<(), Fail> {
    let first = stamp(1, 1)?;
    let (second, third, sixth) = (stamp(2, 1)?, stamp(3, 1)?, stamp(6, 1)?);
    let mut index = five_characters(rt.alloc())?;
    is_at(&rt, &index, third, at(first, 2, 100));
    index.cut(first, 2, 150)?;
    is_at(&rt, &index, third, at(third, 0, 150));
    is_at(&rt, &index, second, at(first, 1, 100));
    is_at(&rt, &index, sixth, None);
    assert!(rt; index.len() == 2, "wanted 2 blocks, came {}", index.len());
    Ok(())
}

#[test]
fn a_block_is_taken_away_once(rt: HostRuntime) -> Result<(), Fail> {
    let (first, second) = (stamp(1, 1)?, stamp(2, 1)?);
    let mut index = five_characters(rt.alloc())?;
    assert!(rt;
        !index.remove(second),
        "the second character was taken away as a block"
    );
    assert!(rt; index.remove(first), "the block was not taken away");
    assert!(rt; !index.remove(first), "the block was taken away twice");
    is_at(&rt, &index, first, None);
    Ok(())
}

#[test]
fn a_label_is_changed_and_the_length_is_not(rt: HostRuntime) -> Result<(), Fail> {
    let first = stamp(1, 1)?;
    let fifth = stamp(5, 1)?;
    let mut index = five_characters(rt.alloc())?;
    index.relabel(first, 7);
    let (want, came) = (Some(BlockEntry { len: 5, label: 7 }), index.get(first));
    assert!(rt; came == want, "wanted {want:?}, came {came:?}");
    is_at(&rt, &index, fifth, at(first, 4, 7));
    Ok(())
}

#[test]
fn replicas_with_equal_counters_do_not_meet(rt: HostRuntime) -> Result<(), Fail> {
    let first = stamp(1, 1)?;
    let other = stamp(1, 2)?;
    let cases = [
        (stamp(3, 1)?, at(first, 2, 100)),
        (stamp(3, 2)?, at(other, 2, 200)),
        (stamp(4, 2)?, None),
        (stamp(1, 3)?, None),
    ];
    let mut index = five_characters(rt.alloc())?;
    index.add(other, 3, 200)?;
    for (stamp, want) in cases {
        is_at(&rt, &index, stamp, want);
    }
    Ok(())
}

fn is_label(rt: &impl Abort, came: Option<u64>, want: Option<u64>) {
    assert!(rt; came == want, "wanted {want:?}, came {came:?}");
}

#[test]
fn labels_lie_halfway_and_evenly(rt: HostRuntime) {
    is_label(&rt, between(100, 150), Some(125));
    is_label(&rt, between(100, 102), Some(101));
    is_label(&rt, between(100, 101), None);
    is_label(&rt, Some(spaced(1, 1)), Some(9_223_372_036_854_775_807));
    is_label(&rt, Some(spaced(2, 3)), Some(9_223_372_036_854_775_806));
}
