//! What guests call themselves, compared with results worked out by hand.
use guests::{Guest, GuestBook, MAX_GUEST_DISPLAY, MAX_GUESTS};
use pad_model::{Name, Refusal, Text};
use std::alloc::{AllocError, Global};
use std::process::Abort;
use std::test::Fail;

/// A display name of this many characters.
fn text_of(alloc: Global, length: usize) -> Result<Text, AllocError> {
    let mut text = Text::new(alloc);
    for _ in 0..length {
        text.push('é')?;
    }
    Ok(text)
}

fn introduce(
    book: &mut GuestBook,
    alloc: Global,
    name: &str,
    display: &str,
) -> Result<(), Refusal> {
    let name = Name::from_str(alloc, name)?;
    book.introduce(&name, &Text::from_str(alloc, display)?)
}

fn is_guest(alloc: Global, found: &Guest, name: &str, display: &str) -> Result<bool, AllocError> {
    Ok(found.author.is(name) && found.display == Text::from_str(alloc, display)?)
}

#[test]
fn a_guest_is_listed_where_it_first_introduced_itself(rt: HostRuntime) -> Result<(), Fail> {
    let alloc = rt.alloc();
    let mut book = GuestBook::new(alloc);
    assert!(rt; book.list()?.is_empty());
    assert_eq!(rt; introduce(&mut book, alloc, "guest-a", "Ben"), Ok(()));
    assert_eq!(rt; introduce(&mut book, alloc, "guest-b", "Änne"), Ok(()));
    assert_eq!(rt;
        introduce(&mut book, alloc, "guest-a", "Ben Müller"),
        Ok(())
    );
    let list = book.list()?;
    assert_eq!(rt; list.len(), 2);
    assert!(rt; is_guest(alloc, &list.as_slice()[0], "guest-a", "Ben Müller")?);
    assert!(rt; is_guest(alloc, &list.as_slice()[1], "guest-b", "Änne")?);
    Ok(())
}

#[test]
fn a_display_name_has_one_to_sixty_characters(rt: HostRuntime) -> Result<(), Fail> {
    let alloc = rt.alloc();
    let mut book = GuestBook::new(alloc);
    let name = Name::from_str(alloc, "guest-a")?;
    let long = text_of(alloc, MAX_GUEST_DISPLAY + 1)?;
    assert_eq!(rt;
        introduce(&mut book, alloc, "guest-a", ""),
        Err(Refusal::Empty)
    );
    assert_eq!(rt; book.introduce(&name, &long), Err(Refusal::TooMuch));
    assert!(rt; book.list()?.is_empty());
    assert_eq!(rt;
        book.introduce(&name, &text_of(alloc, MAX_GUEST_DISPLAY)?),
        Ok(())
    );
    assert_eq!(rt; book.list()?.len(), 1);
    Ok(())
}

/// A name for each number below 10,000.
fn numbered(alloc: Global, number: usize) -> Result<String, AllocError> {
    format!(in alloc; "guest-{number}")
}

#[test]
fn a_thousand_guests_have_a_display_name(rt: HostRuntime) -> Result<(), Fail> {
    let alloc = rt.alloc();
    let mut book = GuestBook::new(alloc);
    for number in 0..MAX_GUESTS {
        introduce(&mut book, alloc, numbered(alloc, number)?.as_str(), "Ben")?;
    }
    assert_eq!(rt;
        introduce(&mut book, alloc, "guest-more", "Ben"),
        Err(Refusal::TooMuch)
    );
    assert_eq!(rt; introduce(&mut book, alloc, "guest-0", "Änne"), Ok(()));
    assert_eq!(rt; book.list()?.len(), MAX_GUESTS);
    Ok(())
}
