//! A server with the pad `p`, or with several pads, on which ann has typed, and its side of a round.
use block_seq::BlockSeq;
use conversation::{Alone, Pads};
use pad_core::Request;
use pad_model::Refusal;
use presence::DEFAULT_PRESENT;
use relay::{PeerLines, Relayed, relay_round};
use server_core::Server;
use sessions::Accounts;
use std::alloc::Global;
use std::test::Fail;
use wire_json::read_request;
use wire_lines::{Fault, Input, Output};

const HELLO: &str = r#"{"do":"hello","name":"ann","token":"t"}"#;

const CREATE: &str = r#"{"do":"create","pad":"p"}"#;
/// The request by which ann types.
pub const TYPES: &str = r#"{"at":0,"do":"insert","pad":"p","rev":0,"text":"one"}"#;
/// Her next request, an edit of two parts.
pub const EDITS: &str =
    r#"{"do":"edit","pad":"p","parts":[{"at":0,"len":1},{"at":3,"text":"ly"}],"rev":1}"#;

/// The bytes that were written, as text.
pub fn text_of(bytes: &[u8]) -> &str {
    match str::from_utf8(bytes) {
        Ok(text) => text,
        Err(_) => "bytes that are no UTF-8",
    }
}

/// The output of a round, and its end.
#[derive(Drop)]
pub struct Talked {
    pub output: Output,
    pub ended: Result<Relayed, Fault>,
}

/// A server on which ann has typed.
pub type TypedPads = Alone<BlockSeq>;

pub fn request(alloc: Global, line: &str) -> Result<Request, Refusal> {
    read_request(alloc, line.as_bytes())
}

// Server 1 with the pad `p`, after ann has made these requests.
fn typed(alloc: Global, lines: &[&str]) -> Result<Alone<BlockSeq>, Fail> {
    let accounts = Accounts::read(alloc, b"author ann t\npeer 2 p2 host:1\n")?;
    let mut server: Server<BlockSeq> = Server::new(alloc, 1, DEFAULT_PRESENT, 1, accounts)?;
    let actor = server.open(alloc)?;
    let mut pads = Alone::new(server, actor);
    for line in [HELLO, CREATE] {
        let _reply = pads.call(alloc, &request(alloc, line)?)?;
    }
    for line in lines {
        let _reply = pads.call(alloc, &request(alloc, line)?)?;
    }
    pads.end(alloc);
    Ok(pads)
}

/// Makes a round of such a server with a peer that writes these bytes.
pub fn talk(alloc: Global, lines: &[&str], peer: &[u8]) -> Result<Talked, Fail> {
    let mut pads = typed(alloc, lines)?;
    let _session = pads.relay(alloc, 2)?;
    let mut link = PeerLines::new(alloc, Input::new(peer), Output::new(alloc))?;
    let ended = relay_round(alloc, &mut pads, &mut link, 1, "p2");
    let (_input, output) = link.into_parts();
    Ok(Talked { output, ended })
}

/// Server 1 with the pads `p0`, `p1` and so on, in a session of peer 2, after ann has typed `letters` letters on the
/// pad with number `typed`.
pub fn typed_on(alloc: Global, pads: u32, typed: u32, letters: u32) -> Result<TypedPads, Fail> {
    let accounts = Accounts::read(alloc, b"author ann t\npeer 2 p2 host:1\n")?;
    let count = pads.min(64);
    let mut server = Server::new(alloc, 1, DEFAULT_PRESENT, count, accounts)?;
    let actor = server.open(alloc)?;
    let mut alone = Alone::new(server, actor);
    let _hello = alone.call(alloc, &request(alloc, HELLO)?)?;
    create_pads(alloc, &mut alone, pads)?;
    type_letters(alloc, &mut alone, typed, letters)?;
    alone.end(alloc);
    let _session = alone.relay(alloc, 2)?;
    Ok(alone)
}

// Creates this many pads: `p0`, `p1` and so on.
fn create_pads(alloc: Global, alone: &mut TypedPads, pads: u32) -> Result<(), Fail> {
    for pad in 0..pads {
        let line = format!(in alloc; r#"{{"do":"create","pad":"p{pad}"}}"#)?;
        let _created = alone.call(alloc, &request(alloc, line.as_str())?)?;
    }
    Ok(())
}

// Types this many letters on one of the pads, each at its start.
fn type_letters(
    alloc: Global,
    alone: &mut TypedPads,
    typed: u32,
    letters: u32,
) -> Result<(), Fail> {
    for rev in 0..letters {
        let line = format!(in alloc;
            r#"{{"at":0,"do":"insert","pad":"p{typed}","rev":{rev},"text":"x"}}"#
        )?;
        let _typed = alone.call(alloc, &request(alloc, line.as_str())?)?;
    }
    Ok(())
}

/// Types a letter more at the start of the pad `p0`, which has this revision, between two visits.
pub fn type_another(alloc: Global, pads: &mut TypedPads, rev: u32) -> Result<(), Fail> {
    pads.end(alloc);
    let _hello = pads.call(alloc, &request(alloc, HELLO)?)?;
    let _joined = pads.call(alloc, &request(alloc, r#"{"do":"join","pad":"p0"}"#)?)?;
    let line = format!(in alloc; r#"{{"at":0,"do":"insert","pad":"p0","rev":{rev},"text":"x"}}"#)?;
    let _typed = pads.call(alloc, &request(alloc, line.as_str())?)?;
    pads.end(alloc);
    let _session = pads.relay(alloc, 2)?;
    Ok(())
}

/// The requests that were written, one letter for each: `g` for the greeting, `l` for a pull, `v` for a vector and `s`
/// for a push.
pub fn kinds_of(alloc: Global, written: &[u8]) -> Result<String, Fail> {
    let mut kinds = String::new(alloc);
    for line in text_of(written).lines() {
        kinds.push_str(kind_of(line))?;
    }
    Ok(kinds)
}

fn kind_of(line: &str) -> &'static str {
    if line.starts_with(r#"{"batch":256,"do":"pull","max":4,"#) {
        return "l";
    }
    if line.starts_with(r#"{"do":"vector","#) {
        return "v";
    }
    if line.starts_with(r#"{"do":"push","#) {
        return "s";
    }
    if line.starts_with(r#"{"do":"peer","#) {
        return "g";
    }
    "?"
}
