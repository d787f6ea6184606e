//! The accounts files that are read, and the tokens that they accept.
use sessions::{Accounts, AccountsError, Peer};
use std::alloc::Global;
use std::process::Abort;
use std::test::Fail;

fn is_peer(peer: Option<&Peer>, number: u16, token: &str, address: &str) -> bool {
    match peer {
        Some(peer) => {
            peer.number == number
                && peer.token.as_str() == token
                && peer.address.as_str() == address
        }
        None => false,
    }
}

fn peer_is(rt: &impl Abort, peer: Option<&Peer>, number: u16, token: &str, address: &str) {
    assert!(rt;
        is_peer(peer, number, token, address),
        "wanted {number} {token} {address}, came {peer:?}"
    );
}

fn knows_nobody(rt: &impl Abort, alloc: Global, text: &[u8]) -> Result<(), Fail> {
    let accounts = Accounts::read(alloc, text)?;
    assert!(rt; !accounts.author("ann", "t1"), "ann is known");
    let peers = accounts.peers();
    assert!(rt; peers.is_empty(), "wanted no peers, came {peers:?}");
    Ok(())
}

/// An author, a token, and whether the token is accepted.
const AUTHORS: &[(&str, &str, bool)] = &[
    ("ann", "t1", true),
    ("ann", "t9", false),
    ("ann", "t", false),
    ("ann", "t11", false),
    ("bob", "t1", false),
];

/// A peer, a token, and whether the token is accepted.
const PEERS: &[(u64, &str, bool)] = &[(2, "p2", true), (2, "p", false), (65_538, "p2", false)];

fn authors_are(rt: &impl Abort, accounts: &Accounts, wanted: &[(&str, &str, bool)]) {
    for (name, token, want) in wanted {
        let came = accounts.author(name, token);
        assert!(rt;
            came == *want,
            "author {name} {token}: wanted {want}, came {came}"
        );
    }
}

fn peers_are(rt: &impl Abort, accounts: &Accounts, wanted: &[(u64, &str, bool)]) {
    for (number, token, want) in wanted {
        let came = accounts.peer(*number, token);
        assert!(rt;
            came == *want,
            "peer {number} {token}: wanted {want}, came {came}"
        );
    }
}

#[test]
fn accounts_file(rt: HostRuntime) -> Result<(), Fail> {
    knows_nobody(&rt, rt.alloc(), b"")?;
    let text = b"author ann t1\npeer 2 p2 127.0.0.1:7402\n";
    let accounts = Accounts::read(rt.alloc(), text)?;
    authors_are(&rt, &accounts, AUTHORS);
    peers_are(&rt, &accounts, PEERS);
    let peers = accounts.peers();
    assert!(rt; peers.len() == 1, "wanted 1 peer, came {peers:?}");
    peer_is(&rt, peers.first(), 2, "p2", "127.0.0.1:7402");
    Ok(())
}

#[test]
fn accounts_forms(rt: HostRuntime) -> Result<(), Fail> {
    let text = b"\n\r\n#\n# \xFF\t\r\nauthor a-9 !~\r\n\npeer 65535 t :\npeer 1 t [::1]:80";
    let accounts = Accounts::read(rt.alloc(), text)?;
    authors_are(&rt, &accounts, &[("a-9", "!~", true)]);
    peers_are(&rt, &accounts, &[(65_535, "t", true), (1, "t", true)]);
    peer_is(&rt, accounts.peers().get(1), 1, "t", "[::1]:80");
    Ok(())
}

/// Files, and the number of the first bad line of each.
const BAD_FILES: &[(&[u8], u64)] = &[
    (b"author ann t\nauthor ann u\n", 2),
    (b"# x\n\nauthor Ann t\n", 3),
    (b"peer 0 t h:1\n", 1),
    (b"author ann t\r\npeer 2 t h:1\r\npeer 2 u i:2\r\n", 3),
    (b"author  ann t\n", 1),
    (b"author ann  t\n", 1),
    (b"author ann t \n", 1),
    (b" author ann t\n", 1),
    (b"author\tann t\n", 1),
    (b"author ann\tt\n", 1),
    (b"author ann t\t\n", 1),
    (b" # x\n", 1),
    (b" \n", 1),
    (b"\r", 1),
    (b"\n\r\r\n", 2),
    (b"author ann t\r", 1),
    (b"author ann t\r\r\n", 1),
    (b"author ann\n", 1),
    (b"author ann \n", 1),
    (b"author\n", 1),
    (b"author ann t x\n", 1),
    (b"author ann t h:1 x\n", 1),
    (b"author  t\n", 1),
    (b"author a_n t\n", 1),
    (b"author abcdefghijklmnopqrstuvwxyz1234567 t\n", 1),
    (b"author ann \x7F\n", 1),
    (b"author ann \xC3\xA9\n", 1),
    (b"Author ann t\n", 1),
    (b"authors ann t\n", 1),
    (b"nobody ann t\n", 1),
    (
        b"author ann 12345678901234567890123456789012345678901234567890123456789012345\n",
        1,
    ),
    (b"peer 02 t h:1\n", 1),
    (b"peer 65536 t h:1\n", 1),
    (b"peer 4294967297 t h:1\n", 1),
    (b"peer 18446744073709551617 t h:1\n", 1),
    (b"peer +2 t h:1\n", 1),
    (b"peer -2 t h:1\n", 1),
    (b"peer 2x t h:1\n", 1),
    (b"peer  t h:1\n", 1),
    (b"peer 2 t h\n", 1),
    (b"peer 2 t\n", 1),
    (b"peer 2 t h:1 x\n", 1),
    (b"peer 2 t h:1 \n", 1),
    (b"peer 2 t h: 1\n", 1),
];

/// Returns the number of the first bad line, if the file is refused for one.
fn bad_line(alloc: Global, text: &[u8]) -> Option<u64> {
    match Accounts::read(alloc, text) {
        Err(AccountsError::BadLine { line, .. }) => Some(line),
        _ => None,
    }
}

#[test]
fn first_bad_line(rt: HostRuntime) {
    for (text, want) in BAD_FILES {
        let came = bad_line(rt.alloc(), text);
        assert!(rt;
            came == Some(*want),
            "{}: wanted line {want}, came {came:?}",
            text.escape_ascii()
        );
    }
}

fn add_peer(alloc: Global, text: &mut String, number: u64) -> Result<(), Fail> {
    let line = format!(in alloc; "peer {number} t h:1\n")?;
    Ok(text.push_str(line.as_str())?)
}

fn add_peers(alloc: Global, text: &mut String) -> Result<(), Fail> {
    for number in 1..1_000 {
        add_peer(alloc, text, number)?;
    }
    Ok(())
}

/// Returns a file with an author and the peers from 1 to 999.
fn thousand_accounts(alloc: Global) -> Result<String, Fail> {
    let mut text = String::from_str(alloc, "author ann t\n")?;
    add_peers(alloc, &mut text)?;
    Ok(text)
}

fn count_peers(alloc: Global, text: &[u8]) -> Result<usize, Fail> {
    let accounts = Accounts::read(alloc, text)?;
    Ok(accounts.peers().len())
}

#[test]
fn limit_accounts(rt: HostRuntime) -> Result<(), Fail> {
    let mut text = thousand_accounts(rt.alloc())?;
    let count = count_peers(rt.alloc(), text.as_bytes())?;
    assert!(rt; count == 999, "wanted 999 peers, came {count}");
    text.push_str("# x\npeer 1000 t h:1")?;
    let came = bad_line(rt.alloc(), text.as_bytes());
    assert!(rt; came == Some(1_002), "wanted line 1002, came {came:?}");
    Ok(())
}
