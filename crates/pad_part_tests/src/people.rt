//! The hashes and persons that are read from an accounts file, and their effect.
use pad_model::Name;
use sessions::{Accounts, AccountsError, Mistake};
use std::alloc::Global;
use std::process::Abort;
use std::test::Fail;

/// A file with a hash, which is that of the token `t1`, an author without a token of its own, and three persons.
const FILE: &[u8] = b"author bob t2
hash ann 628b49d96dcde97a430dd4f597705899e09a968f793491e4b704cae33a40dc02
person ann ann@example.org Ann Example
person cyd - \xC3\x89\xE2\x80\x94 \xF0\x9F\x90\xA6 of the fen\r
person dan - D";

/// An author, a token, and whether the token is accepted.
const TOKENS: &[(&str, &str, bool)] = &[
    ("ann", "t1", true),
    ("ann", "t2", false),
    ("ann", "", false),
    (
        "ann",
        "628b49d96dcde97a430dd4f597705899e09a968f793491e4b704cae33a40dc02",
        false,
    ),
    ("bob", "t2", true),
    ("bob", "t1", false),
    ("cyd", "-", false),
];

#[test]
fn hashes_and_tokens(rt: HostRuntime) -> Result<(), Fail> {
    let accounts = Accounts::read(rt.alloc(), FILE)?;
    for (name, token, want) in TOKENS {
        let came = accounts.author(name, token);
        assert!(rt;
            came == *want,
            "author {name} {token}: wanted {want}, came {came}"
        );
    }
    Ok(())
}

fn id_is_of(rt: &impl Abort, accounts: &Accounts, id: &[u8], want: Option<&str>) {
    let came = match accounts.author_of(id) {
        Some(name) => Some(name.as_str()),
        None => None,
    };
    assert!(rt;
        came == want,
        "{}: wanted {want:?}, came {came:?}",
        id.escape_ascii()
    );
}

#[test]
fn persons_by_id(rt: HostRuntime) -> Result<(), Fail> {
    let accounts = Accounts::read(rt.alloc(), FILE)?;
    id_is_of(&rt, &accounts, b"ann@example.org", Some("ann"));
    id_is_of(&rt, &accounts, b"ann@example.or", None);
    id_is_of(&rt, &accounts, b"Ann@example.org", None);
    id_is_of(&rt, &accounts, b"ann", None);
    id_is_of(&rt, &accounts, b"-", None);
    id_is_of(&rt, &accounts, b"", None);
    id_is_of(&rt, &accounts, b"\xFF", None);
    Ok(())
}

fn display_is(
    rt: &impl Abort,
    alloc: Global,
    accounts: &Accounts,
    name: &str,
    want: Option<&str>,
) -> Result<(), Fail> {
    let name = Name::from_str(alloc, name)?;
    let came = accounts.display_of(&name);
    assert!(rt; came == want, "{name:?}: wanted {want:?}, came {came:?}");
    Ok(())
}

#[test]
fn display_names(rt: HostRuntime) -> Result<(), Fail> {
    let accounts = Accounts::read(rt.alloc(), FILE)?;
    display_is(&rt, rt.alloc(), &accounts, "ann", Some("Ann Example"))?;
    display_is(&rt, rt.alloc(), &accounts, "bob", None)?;
    display_is(
        &rt,
        rt.alloc(),
        &accounts,
        "cyd",
        Some("\u{C9}\u{2014} \u{1F426} of the fen"),
    )?;
    display_is(&rt, rt.alloc(), &accounts, "dan", Some("D"))?;
    Ok(())
}

/// Files, the number of the first bad line of each, and its mistake.
const BAD_FILES: &[(&[u8], u64, Mistake)] = &[
    (b"hash\n", 1, Mistake::NoHashName),
    (b"hash ann\n", 1, Mistake::NoHash),
    (b"hash ann abc\n", 1, Mistake::HashLength),
    (
        b"hash ann 628b49d96dcde97a430dd4f597705899e09a968f793491e4b704cae33a40dc021\n",
        1,
        Mistake::HashLength,
    ),
    (
        b"hash ann 628B49D96DCDE97A430DD4F597705899E09A968F793491E4B704CAE33A40DC02\n",
        1,
        Mistake::HashDigit,
    ),
    (
        b"hash ann 628b49d96dcde97a430dd4f597705899e09a968f793491e4b704cae33a40dc0g\n",
        1,
        Mistake::HashDigit,
    ),
    (
        b"hash ann 628b49d96dcde97a430dd4f597705899e09a968f793491e4b704cae33a40dc02 x\n",
        1,
        Mistake::ExtraWord,
    ),
    (b"hash Ann abc\n", 1, Mistake::NameByte),
    (
        b"author ann t\nhash ann 628b49d96dcde97a430dd4f597705899e09a968f793491e4b704cae33a40dc02\n",
        2,
        Mistake::NameTwice,
    ),
    (
        b"hash ann 628b49d96dcde97a430dd4f597705899e09a968f793491e4b704cae33a40dc02\nauthor ann t\n",
        2,
        Mistake::NameTwice,
    ),
    (b"person\n", 1, Mistake::NoPerson),
    (b"person ann\n", 1, Mistake::NoId),
    (b"person ann -\n", 1, Mistake::NoDisplay),
    (b"person ann - \n", 1, Mistake::ExtraSpace),
    (b"person ann - Ann  Example\n", 1, Mistake::ExtraSpace),
    (b"person ann - Ann\tExample\n", 1, Mistake::Tab),
    (b"person a_n - Ann\n", 1, Mistake::NameByte),
    (
        b"person abcdefghijklmnopqrstuvwxyz1234567 - Ann\n",
        1,
        Mistake::LongName,
    ),
    (b"person ann \xC3\xA9 Ann\n", 1, Mistake::IdByte),
    (b"person ann - Ann\xC3\n", 1, Mistake::DisplayBytes),
    (b"person ann - Ann\x7F\n", 1, Mistake::DisplayControl),
    (b"person ann - Ann\xC2\x85\n", 1, Mistake::DisplayControl),
    (b"person ann - Ann\r\r\n", 1, Mistake::DisplayControl),
    (
        b"person ann - 1234567890123456789012345678901234567890123456789012345678901\n",
        1,
        Mistake::LongDisplay,
    ),
    (
        b"person ann - Ann\nperson ann x Anne\n",
        2,
        Mistake::PersonTwice,
    ),
    (b"person ann x Ann\nperson bob x Bob\n", 2, Mistake::IdTwice),
    (b"people ann x Ann\n", 1, Mistake::UnknownWord),
];

/// Returns the number and the mistake of the first bad line, if the file is refused for one.
fn bad_line(alloc: Global, text: &[u8]) -> Option<(u64, Mistake)> {
    match Accounts::read(alloc, text) {
        Err(AccountsError::BadLine { line, mistake }) => Some((line, mistake)),
        _ => None,
    }
}

#[test]
fn first_mistake(rt: HostRuntime) {
    for (text, line, mistake) in BAD_FILES {
        let came = bad_line(rt.alloc(), text);
        assert!(rt;
            came == Some((*line, *mistake)),
            "{}: wanted {line} {mistake:?}, came {came:?}",
            text.escape_ascii()
        );
    }
}

#[test]
fn longest_display_name(rt: HostRuntime) -> Result<(), Fail> {
    let long = "\u{1F426}".repeat(rt.alloc(), 60)?;
    let text = format!(in rt.alloc(); "person ann - {long}")?;
    let accounts = Accounts::read(rt.alloc(), text.as_bytes())?;
    display_is(&rt, rt.alloc(), &accounts, "ann", Some(long.as_str()))
}

/// Returns a file with this many persons, each with an ID.
fn persons(alloc: Global, count: u64) -> Result<String, Fail> {
    let mut text = String::new(alloc);
    for number in 0..count {
        let line = format!(in alloc; "person p{number} {number}@example.org Person {number}\n")?;
        text.push_str(line.as_str())?;
    }
    Ok(text)
}

#[test]
fn limit_persons(rt: HostRuntime) -> Result<(), Fail> {
    let mut text = persons(rt.alloc(), 100_000)?;
    let accounts = Accounts::read(rt.alloc(), text.as_bytes())?;
    id_is_of(&rt, &accounts, b"99999@example.org", Some("p99999"));
    display_is(&rt, rt.alloc(), &accounts, "p500", Some("Person 500"))?;
    text.push_str("author ann t\nperson ann - Ann\n")?;
    let came = bad_line(rt.alloc(), text.as_bytes());
    assert!(rt;
        came == Some((100_002, Mistake::TooManyPeople)),
        "wanted line 100002, came {came:?}"
    );
    Ok(())
}
