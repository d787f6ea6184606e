//! The names of guests and of their links. Python's hashlib made the values.
use guests::{guest_name, is_guest, is_link_of, link_name, opens};
use pad_model::Name;
use sessions::{Accounts, Stranger};
use std::alloc::Global;
use std::process::Abort;
use std::test::Fail;

/// Tokens, and the names of their guests. The first 19 bytes of a name are that of the link.
const GUESTS: &[(&str, &str)] = &[
    ("open.me", "guest-dizyucsx5fvwuhczimwwmagemc"),
    ("open.you", "guest-dizyucsx5fvwubfon53tv4q6up"),
    ("shut.me", "guest-k5u23aii4gvwo6iqusoa6sssap"),
    ("open", "guest-dizyucsx5fvwudizyucsx5fvwu"),
    ("", "guest-dqecy44u23uizdqecy44u23uiz"),
    (".", "guest-dqecy44u23uiznuokkjmkdt36w"),
    ("a.b.c", "guest-kxbsk35k2crt2e6qeijc4jylc3"),
    (
        "fen-and-furrow.9f86d081",
        "guest-xoao4kkhv44ghr2yrafgxnscuk",
    ),
];

/// Secrets of links, and the names of the links.
const LINKS: &[(&str, &str)] = &[
    ("open", "guest-dizyucsx5fvwu"),
    ("shut", "guest-k5u23aii4gvwo"),
    ("", "guest-dqecy44u23uiz"),
    ("a", "guest-kxbsk35k2crt2"),
    ("fen-and-furrow", "guest-xoao4kkhv44gh"),
];

/// Names, and whether they are a guest's.
const NAMES: &[(&str, bool)] = &[
    ("guest-dizyucsx5fvwuhczimwwmagemc", true),
    ("guest---------------------------", true),
    ("guest-dizyucsx5fvwuhczimwwmagem", false),
    ("guest-dizyucsx5fvwu", false),
    ("guess-dizyucsx5fvwuhczimwwmagemc", false),
    ("guest-", false),
    ("guest", false),
    ("ann", false),
    ("", false),
];

fn a_guest_is(rt: &impl Abort, alloc: Global, token: &str, want: &str) -> Result<(), Fail> {
    let name = guest_name(alloc, token)?;
    assert!(rt; name.is(want), "{token:?}: wanted {want}, came {name:?}");
    assert!(rt; is_guest(&name), "{token:?}: {name:?} is no guest");
    for (other, _) in GUESTS {
        let came = opens(want, other);
        assert!(rt;
            came == (*other == token),
            "{other:?} at {want}: came {came}"
        );
    }
    Ok(())
}

#[test]
fn guests_have_the_names_of_their_tokens(rt: HostRuntime) -> Result<(), Fail> {
    for (token, want) in GUESTS {
        a_guest_is(&rt, rt.alloc(), token, want)?;
    }
    Ok(())
}

#[test]
fn links_have_the_names_of_their_secrets(rt: HostRuntime) -> Result<(), Fail> {
    let alloc = rt.alloc();
    for (secret, want) in LINKS {
        let link = link_name(alloc, secret)?;
        assert!(rt; link.is(want), "{secret:?}: wanted {want}, came {link:?}");
        for (token, name) in GUESTS {
            let name = Name::from_str(alloc, name)?;
            let came = is_link_of(&link, &name);
            let is_so = token.split('.').next() == Some(secret);
            assert!(rt; came == is_so, "{token:?} by {secret:?}: came {came}");
        }
    }
    Ok(())
}

#[test]
fn names_of_guests(rt: HostRuntime) -> Result<(), Fail> {
    for (text, want) in NAMES {
        let name = Name::from_str(rt.alloc(), text)?;
        let came = is_guest(&name);
        assert!(rt; came == *want, "{text}: wanted {want}, came {came}");
    }
    Ok(())
}

fn is_named(rt: &impl Abort, name: &Name, want: &str) {
    assert!(rt; name.is(want), "wanted {want}, came {name:?}");
}

#[test]
fn a_guest_and_its_link(rt: HostRuntime) -> Result<(), Fail> {
    let alloc = rt.alloc();
    let name = guest_name(alloc, "open.me")?;
    let link = link_name(alloc, "open")?;
    is_named(&rt, &name, "guest-dizyucsx5fvwuhczimwwmagemc");
    is_named(&rt, &link, "guest-dizyucsx5fvwu");
    assert!(rt; is_guest(&name), "it is no guest");
    assert!(rt; is_link_of(&link, &name), "it has another link");
    assert!(rt; opens(name.as_str(), "open.me"), "its token fails");
    Ok(())
}

/// An account has the name of the guest with the token `shut.me`, and a token of its own.
const FILE: &[u8] = b"author ann t1
author guest-k5u23aii4gvwo6iqusoa6sssap t2
";

/// A name, a token, and whether it is accepted without guests, and with them.
const LOG_INS: &[(&str, &str, bool, bool)] = &[
    ("ann", "t1", true, true),
    ("ann", "open.me", false, false),
    ("guest-dizyucsx5fvwuhczimwwmagemc", "open.me", false, true),
    ("guest-dizyucsx5fvwuhczimwwmagemc", "open.you", false, false),
    ("guest-dizyucsx5fvwuhczimwwmagemc", "open.m", false, false),
    ("guest-dizyucsx5fvwuhczimwwmagemc", "open", false, false),
    ("guest-dizyucsx5fvwuhczimwwmagemc", "t1", false, false),
    ("guest-dizyucsx5fvwuhczimwwmagem", "open.me", false, false),
    ("guest-dizyucsx5fvwu", "open.me", false, false),
    ("guest-dizyucsx5fvwu", "open", false, false),
    ("guest-k5u23aii4gvwo6iqusoa6sssap", "shut.me", false, false),
    ("guest-k5u23aii4gvwo6iqusoa6sssap", "t2", true, true),
];

#[test]
fn guests_log_in_with_their_tokens(rt: HostRuntime) -> Result<(), Fail> {
    let without = Accounts::read(rt.alloc(), FILE)?;
    let with = Accounts::read(rt.alloc(), FILE)?.with_guests(true);
    let with_none = Accounts::read(rt.alloc(), FILE)?.with_guests(false);
    for (name, token, before, after) in LOG_INS {
        let came = without.author(name, token);
        assert!(rt;
            came == *before,
            "{name} {token} without guests: came {came}"
        );
        let came = with_none.author(name, token);
        assert!(rt;
            came == *before,
            "{name} {token} with no guests: came {came}"
        );
        let came = with.author(name, token);
        assert!(rt; came == *after, "{name} {token} with guests: came {came}");
    }
    Ok(())
}

#[test]
fn no_user_of_a_proxy_is_a_guest(rt: HostRuntime) -> Result<(), Fail> {
    let alloc = rt.alloc();
    let accounts = Accounts::read(alloc, FILE)?
        .with_any_user(true)
        .with_guests(true);
    // Its name is `guest--` and 25 letters: as long as a guest's, and with the same start.
    let user = b"guest-abcdefghijklmnopqrstuvwxy";
    let found = accounts.author_or_stranger(alloc, user)?;
    assert!(rt; matches!(&found, Err(Stranger::NoName)), "came {found:?}");
    // A letter less, and it is none.
    let user = b"guest-abcdefghijklmnopqrstuvwx";
    let found = accounts.author_or_stranger(alloc, user)?;
    assert!(rt;
        matches!(&found, Ok(name) if name.is("guest--abcdefghijklmnopqrstuvwx")),
        "came {found:?}"
    );
    Ok(())
}
