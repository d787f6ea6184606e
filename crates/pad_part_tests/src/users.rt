//! The author that a user of a proxy is, and the display name of one who has no line.
use pad_model::Name;
use sessions::{Accounts, Stranger};
use std::alloc::Global;
use std::process::Abort;
use std::test::Fail;

const FILE: &[u8] = b"author ann t1
hash bea 628b49d96dcde97a430dd4f597705899e09a968f793491e4b704cae33a40dc02
person cyd cyd@example.org Cyd of the Fen
person dan-px - Dan
";

/// The author that a user is, or the reason why there is none.
#[derive(Clone, Copy, Debug, PartialEq, Eq)]
enum LookedUp {
    Author(&'static str),
    NoLine,
    NoName,
    Taken,
}

/// Users, and their authors if any user is an author, by the table of docs/RUNNING.md.
const USERS: &[(&[u8], LookedUp)] = &[
    (b"cyd@example.org", LookedUp::Author("cyd")),
    (b"eve", LookedUp::Author("eve")),
    (
        b"eve.b@example.org",
        LookedUp::Author("eve-pb-texample-porg"),
    ),
    (b"a_b+c-d", LookedUp::Author("a-ub-sc--d")),
    (b"Eve", LookedUp::Author("-x45ve")),
    (b"\xC3\xB6\x00", LookedUp::Author("-xc3-xb6-x00")),
    (
        b"@@@@@@@@@@@@@@@@",
        LookedUp::Author("-t-t-t-t-t-t-t-t-t-t-t-t-t-t-t-t"),
    ),
    (b"@@@@@@@@@@@@@@@@@", LookedUp::NoName),
    (b"", LookedUp::NoName),
    (b"ann", LookedUp::Taken),
    (b"bea", LookedUp::Taken),
    (b"cyd", LookedUp::Taken),
    (b"dan.x", LookedUp::Taken),
    (b"dan-px", LookedUp::Author("dan--px")),
];

fn user_is(
    rt: &impl Abort,
    alloc: Global,
    accounts: &Accounts,
    user: &[u8],
    want: LookedUp,
) -> Result<(), Fail> {
    let found = accounts.author_or_stranger(alloc, user)?;
    let is_so = match (&found, want) {
        (Ok(name), LookedUp::Author(text)) => name.as_str() == text,
        (Err(Stranger::NoLine), LookedUp::NoLine) => true,
        (Err(Stranger::NoName), LookedUp::NoName) => true,
        (Err(Stranger::Taken(_)), LookedUp::Taken) => true,
        _ => false,
    };
    assert!(rt;
        is_so,
        "{}: wanted {want:?}, came {found:?}",
        user.escape_ascii()
    );
    Ok(())
}

#[test]
fn any_user_is_an_author(rt: HostRuntime) -> Result<(), Fail> {
    let accounts = Accounts::read(rt.alloc(), FILE)?.with_any_user(true);
    for (user, want) in USERS {
        user_is(&rt, rt.alloc(), &accounts, user, *want)?;
    }
    Ok(())
}

#[test]
fn only_persons_are_authors(rt: HostRuntime) -> Result<(), Fail> {
    let accounts = Accounts::read(rt.alloc(), FILE)?;
    for (user, _) in USERS {
        let want = if *user == b"cyd@example.org".as_slice() {
            LookedUp::Author("cyd")
        } else {
            LookedUp::NoLine
        };
        user_is(&rt, rt.alloc(), &accounts, user, want)?;
    }
    Ok(())
}

/// Names, and their display names if any user is an author.
const SHOWN: &[(&str, Option<&str>)] = &[
    ("cyd", Some("Cyd of the Fen")),
    ("dan-px", Some("Dan")),
    ("ann", None),
    ("eve", None),
    ("eve-pb-texample-porg", Some("eve.b@example.org")),
    ("-x45ve", Some("Eve")),
    ("-x65ve", None),
    ("-xc3-xb6", Some("\u{F6}")),
    ("-xc3", None),
    ("-x00", None),
    ("eve-", None),
    ("eve-x4", None),
    ("eve-q", None),
];

#[test]
fn users_are_shown(rt: HostRuntime) -> Result<(), Fail> {
    let alloc = rt.alloc();
    let accounts = Accounts::read(alloc, FILE)?.with_any_user(true);
    for (name, want) in SHOWN {
        let name = Name::from_str(alloc, name)?;
        let word = accounts.shown_for(alloc, &name)?;
        let came = match &word {
            Some(word) => Some(word.as_str()),
            None => None,
        };
        assert!(rt; came == *want, "{name:?}: wanted {want:?}, came {came:?}");
    }
    Ok(())
}
