//! The page that says on how many machines an edit is kept.
use std::process::Abort;
use std::test::Fail;
use web_wire::{Machines, Next, PageRequest, Site, kept_page};

// The number of machines, and the text.
const TEXTS: &[(Machines, &str)] = &[
    (Machines::Zero, "\r\n\r\n{\"machines\":0}"),
    (Machines::One, "\r\n\r\n{\"machines\":1}"),
    (Machines::Two, "\r\n\r\n{\"machines\":2}"),
];

const PARTS: &[&str] = &[
    "HTTP/1.1 200 OK\r\n",
    "content-type: application/json\r\n",
    "cache-control: no-store\r\n",
    "content-length: 14\r\n",
    "cross-origin-resource-policy: same-origin\r\n",
];

// Returns true if one text contains the other.
fn has(bytes: &[u8], part: &str) -> bool {
    match str::from_utf8(bytes) {
        Ok(text) => text.contains(part),
        Err(_) => false,
    }
}

#[test]
fn the_number_of_machines_is_told(rt: HostRuntime) -> Result<(), Fail> {
    let site = Site {
        pages: &[],
        origins: &[],
        users: None,
    };
    let alloc = rt.alloc();
    for (machines, text) in TEXTS {
        let kept = kept_page(*machines);
        let mut request = PageRequest::new(alloc);
        request.feed(b"GET /kept?now HTTP/1.1\r\nHost: a\r\n\r\n")?;
        assert!(rt; request.answer(alloc, site, &kept, true, 1)? == Next::Close(200));
        assert!(rt; has(request.output(), text), "{text:?}");
        for part in PARTS {
            assert!(rt; has(request.output(), part), "{part:?}");
        }
    }
    Ok(())
}
