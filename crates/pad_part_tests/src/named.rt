//! Names of revisions, compared with results worked out by hand.
use named_revisions::{MAX_NAMED_REVISIONS, MAX_REVISION_NAME, NamedRevision, NamedRevisions};
use pad_model::{Name, Refusal, Text};
use std::alloc::{AllocError, Global};
use std::process::Abort;
use std::test::Fail;

/// A name of this many characters.
fn text_of(alloc: Global, length: usize) -> Result<Text, AllocError> {
    let mut text = Text::new(alloc);
    for _ in 0..length {
        text.push('é')?;
    }
    Ok(text)
}

fn add(named: &mut NamedRevisions, alloc: Global, rev: u64, text: &Text) -> Result<(), Refusal> {
    let ann = Name::from_str(alloc, "ann")?;
    named.add(rev, &ann, 1_765_303_200_000 + rev, text)
}

fn is_named(found: &NamedRevision, rev: u64, text: &Text) -> bool {
    found.rev == rev
        && found.author.is("ann")
        && found.at == 1_765_303_200_000 + rev
        && found.text == *text
}

#[test]
fn names_are_listed_in_the_order_in_which_they_were_given(rt: HostRuntime) -> Result<(), Fail> {
    let alloc = rt.alloc();
    let mut named = NamedRevisions::new(alloc);
    let text = Text::from_str(alloc, "Approved on 9 December")?;
    let other = text_of(alloc, MAX_REVISION_NAME)?;
    assert!(rt; named.list(alloc)?.is_empty());
    assert_eq!(rt; add(&mut named, alloc, 120, &text), Ok(()));
    assert_eq!(rt; add(&mut named, alloc, 0, &other), Ok(()));
    assert_eq!(rt; add(&mut named, alloc, 120, &other), Ok(()));
    let list = named.list(alloc)?;
    assert_eq!(rt; list.len(), 3);
    assert!(rt; is_named(&list.as_slice()[0], 120, &text));
    assert!(rt; is_named(&list.as_slice()[1], 0, &other));
    assert!(rt; is_named(&list.as_slice()[2], 120, &other));
    Ok(())
}

#[test]
fn a_name_is_not_empty_and_not_too_long(rt: HostRuntime) -> Result<(), Fail> {
    let alloc = rt.alloc();
    let mut named = NamedRevisions::new(alloc);
    let empty = Text::new(alloc);
    let long = text_of(alloc, MAX_REVISION_NAME + 1)?;
    assert_eq!(rt; add(&mut named, alloc, 1, &empty), Err(Refusal::Empty));
    assert_eq!(rt; add(&mut named, alloc, 1, &long), Err(Refusal::TooMuch));
    assert!(rt; named.list(alloc)?.is_empty());
    Ok(())
}

#[test]
fn a_pad_has_two_hundred_names(rt: HostRuntime) -> Result<(), Fail> {
    let alloc = rt.alloc();
    let mut named = NamedRevisions::new(alloc);
    let text = text_of(alloc, 1)?;
    for rev in 0..MAX_NAMED_REVISIONS as u64 {
        assert_eq!(rt; add(&mut named, alloc, rev, &text), Ok(()));
    }
    assert_eq!(rt; add(&mut named, alloc, 7, &text), Err(Refusal::TooMuch));
    assert_eq!(rt; named.list(alloc)?.len(), 200);
    Ok(())
}
