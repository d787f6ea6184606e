//! Cases that no contract covers: worked lines as a client sees them, and devices that transfer bytes in pieces and
//! fail.
ghost use Rattle.std.specs.Prelude.{◌≤◌};

use crate::shown::text_of;
use block_seq::BlockSeq;
use conversation::{Alone, Open, Pads, Served, serve_connection};
use pad_core::Request;
use pad_model::{Name, Refusal};
use presence::DEFAULT_PRESENT;
use server_core::Server;
use sessions::{Accounts, Word};
use std::alloc::Global;
use std::process::Abort;
use std::test::Fail;
use wire_lines::{Fault, Input, Output, Sink, Source};

fn hello(alloc: Global) -> Result<Request, Refusal> {
    Ok(Request::Hello {
        name: Name::from_str(alloc, "solo")?,
        token: Word::from_str(alloc, "solo")?,
    })
}

fn server(alloc: Global) -> Result<Server<BlockSeq>, Fail> {
    let accounts = Accounts::read(alloc, b"author solo solo\n")?;
    Ok(Server::new(alloc, 1, DEFAULT_PRESENT, 64, accounts)?)
}

fn opened(alloc: Global) -> Result<Alone<BlockSeq>, Fail> {
    let mut server = server(alloc)?;
    let actor = server.open(alloc)?;
    Ok(Alone::new(server, actor))
}

fn greet(alloc: Global, pads: &mut Alone<BlockSeq>) -> Result<(), Fail> {
    let hello = hello(alloc)?;
    let _reply = pads.call(alloc, &hello);
    Ok(())
}

// A fresh server of replica 1, with a session of the author solo.
fn solo(alloc: Global) -> Result<Alone<BlockSeq>, Fail> {
    let mut pads = opened(alloc)?;
    greet(alloc, &mut pads)?;
    Ok(pads)
}

// The end of a connection.
type Ended = Result<Served, Fault>;

// Serves a connection to a fresh server, and returns its end.
pub fn serve<R: Source, W: Sink>(
    alloc: Global,
    reader: &mut R,
    writer: &mut W,
) -> Result<Ended, Fail> {
    let mut pads = solo(alloc)?;
    Ok(serve_connection(alloc, &mut pads, reader, writer, 0, &Open))
}

pub const CREATE: &str = concat!(r#"{"do":"create","pad":"p"}"#, "\n");

pub const CREATED: &str = concat!(r#"{"now":0,"ok":true,"visit":1}"#, "\n");

const NOBODY: &str = concat!(r#"{"code":200,"error":"NoSession","ok":false}"#, "\n");

// The lines of a first session, with the replies.
pub const SESSION: [(&str, &str); 9] = [
    (CREATE, CREATED),
    (
        concat!(r#"{"do":"text","pad":"p"}"#, "\n"),
        concat!(r#"{"now":0,"ok":true,"rev":0,"text":""}"#, "\n"),
    ),
    (
        concat!(
            r#"{"do":"insert","pad":"p","rev":0,"at":0,"text":"hello"}"#,
            "\n"
        ),
        concat!(r#"{"name":[1,1],"now":1,"ok":true}"#, "\n"),
    ),
    (
        concat!(r#"{"do":"revs","pad":"p"}"#, "\r\n"),
        concat!(r#"{"cells":5,"length":5,"now":1,"ok":true}"#, "\n"),
    ),
    ("\n", ""),
    (
        concat!(
            r#"{"do":"insert","pad":"p","rev":1,"at":1.0,"text":"x"}"#,
            "\n"
        ),
        concat!(r#"{"code":102,"error":"NotRequest","ok":false}"#, "\n"),
    ),
    (
        concat!(r#"{"do":"text""#, "\n"),
        concat!(r#"{"code":101,"error":"NotJson","ok":false}"#, "\n"),
    ),
    (
        concat!(
            r#"{"do":"insert","pad":"p","rev":1,"at":2,"text":"XY"}"#,
            "\n"
        ),
        concat!(r#"{"name":[1,2],"now":2,"ok":true}"#, "\n"),
    ),
    (
        r#"{"do":"text","pad":"p","x":[]}"#,
        concat!(r#"{"now":2,"ok":true,"rev":2,"text":"heXYllo"}"#, "\n"),
    ),
];

// All lines, or all answers, joined.
fn joined(alloc: Global, answers: bool) -> Result<String, Fail> {
    let mut text = String::new(alloc);
    for (line, answer) in SESSION {
        text.push_str(if answers { answer } else { line })?;
    }
    Ok(text)
}

// A trial of a connection: the place where it is cut, or the size of the pieces.
type Try = (&'static str, usize);

// Asserts that a connection ended so, and wrote exactly this.
fn has_ended(
    rt: &impl Abort,
    tried: Try,
    (came, output): (Ended, &Output),
    (want, written): (Ended, &str),
) {
    let (what, number) = tried;
    assert!(rt;
        came == want,
        "{what} {number}: wanted {want:?}, came {came:?}"
    );
    assert!(rt;
        output.bytes() == written.as_bytes(),
        "{what} {number}: wanted {written}, came {}",
        text_of(output.bytes())
    );
}

// Asserts that a session whose bytes come and go in pieces is answered so, with eight lines and two delivered
// operations.
fn is_served_in_pieces(
    rt: &impl Abort,
    alloc: Global,
    piece: usize,
    lines: &str,
    answers: &str,
) -> Result<(), Fail>
    requires { 1 ≤ piece }
{
    let mut reader = Input::new(lines.as_bytes()).in_pieces(piece).interrupted();
    let mut writer = Output::new(alloc).in_pieces(piece);
    let served = serve(alloc, &mut reader, &mut writer)?;
    let all = Served {
        lines: 8,
        delivered: 2,
    };
    has_ended(
        rt,
        ("in pieces of", piece),
        (served, &writer),
        (Ok(all), answers),
    );
    Ok(())
}

#[test]
fn a_session_in_pieces(rt: HostRuntime) -> Result<(), Fail> {
    let alloc = rt.alloc();
    let lines = joined(alloc, false)?;
    let answers = joined(alloc, true)?;
    for piece in [1, 2, 30, 1000] {
        is_served_in_pieces(&rt, alloc, piece, lines.as_str(), answers.as_str())?;
    }
    Ok(())
}

// Asserts that exactly this was written when the writer fails at its second call.
fn is_cut(rt: &impl Abort, alloc: Global, taken: usize, written: &str) -> Result<(), Fail> {
    let mut reader = Input::new(CREATE.as_bytes());
    let mut writer = Output::new(alloc).in_pieces(taken).failing_at(2);
    let served = serve(alloc, &mut reader, &mut writer)?;
    has_ended(
        rt,
        ("after bytes", taken),
        (served, &writer),
        (Err(Fault::WriteFault), written),
    );
    Ok(())
}

// A writer that takes ten bytes and then fails, or takes none: a prefix was written.
#[test]
fn a_write_that_fails(rt: HostRuntime) -> Result<(), Fail> {
    for (taken, written) in [(10, r#"{"now":0,""#), (0, "")] {
        is_cut(&rt, rt.alloc(), taken, written)?;
    }
    Ok(())
}

// The end of a second connection of a session with `create` after a writer that failed, and its output.
fn after_a_fault(alloc: Global, taken: usize) -> Result<(Ended, Output), Fail> {
    let mut pads = solo(alloc)?;
    let mut reader = Input::new(CREATE.as_bytes());
    let mut writer = Output::new(alloc).in_pieces(taken).failing_at(2);
    let _fault = serve_connection(alloc, &mut pads, &mut reader, &mut writer, 0, &Open);
    let mut reader = Input::new(CREATE.as_bytes());
    let mut writer = Output::new(alloc);
    let ended = serve_connection(alloc, &mut pads, &mut reader, &mut writer, 0, &Open);
    Ok((ended, writer))
}

#[test]
fn after_a_fault_the_session_is_unauthenticated(rt: HostRuntime) -> Result<(), Fail> {
    for taken in [10, 0] {
        let (came, output) = after_a_fault(rt.alloc(), taken)?;
        let one = Served {
            lines: 1,
            delivered: 0,
        };
        has_ended(
            &rt,
            ("after bytes", taken),
            (came, &output),
            (Ok(one), NOBODY),
        );
    }
    Ok(())
}

// The first answers, one for each write.
fn first_answers(alloc: Global, count: u64) -> Result<String, Fail> {
    let mut text = String::new(alloc);
    let mut left = count;
    for (_, answer) in SESSION {
        if left > 0 && !answer.is_empty() {
            text.push_str(answer)?;
            left = left.wrapping_sub(1);
        }
    }
    Ok(text)
}

// The answers to the lines whose line feed is among the first bytes.
fn answers_within(alloc: Global, bytes: usize) -> Result<String, Fail> {
    let mut text = String::new(alloc);
    let mut end = 0_usize;
    for (line, answer) in SESSION {
        end = end.wrapping_add(line.len());
        if end <= bytes && line.ends_with('\n') {
            text.push_str(answer)?;
        }
    }
    Ok(text)
}

fn is_cut_at_write(rt: &impl Abort, alloc: Global, lines: &str, call: u64) -> Result<(), Fail> {
    let answers = first_answers(alloc, call.wrapping_sub(1))?;
    let mut reader = Input::new(lines.as_bytes());
    let mut writer = Output::new(alloc).failing_at(call);
    let served = serve(alloc, &mut reader, &mut writer)?;
    has_ended(
        rt,
        ("write", call as usize),
        (served, &writer),
        (Err(Fault::WriteFault), answers.as_str()),
    );
    Ok(())
}

// Whichever write fails, the answers before it were written, and nothing of its own answer.
#[test]
fn each_write_fails_once(rt: HostRuntime) -> Result<(), Fail> {
    let lines = joined(rt.alloc(), false)?;
    for call in 1..=8 {
        is_cut_at_write(&rt, rt.alloc(), lines.as_str(), call)?;
    }
    Ok(())
}

fn is_cut_at_read(rt: &impl Abort, alloc: Global, lines: &str, read: usize) -> Result<(), Fail> {
    let answers = answers_within(alloc, read)?;
    let call = (read as u64).wrapping_add(1);
    let mut reader = Input::new(lines.as_bytes()).in_pieces(1).failing_at(call);
    let mut writer = Output::new(alloc);
    let served = serve(alloc, &mut reader, &mut writer)?;
    has_ended(
        rt,
        ("read", read),
        (served, &writer),
        (Err(Fault::ReadFault), answers.as_str()),
    );
    Ok(())
}

// Whichever read of a byte fails, the lines whose line feed was read were answered.
#[test]
fn each_read_fails_once(rt: HostRuntime) -> Result<(), Fail> {
    let lines = joined(rt.alloc(), false)?;
    for read in 0..=lines.len() {
        is_cut_at_read(&rt, rt.alloc(), lines.as_str(), read)?;
    }
    Ok(())
}

// The output of two successive connections with a request to create `p`.
fn written_by_two(alloc: Global, pads: &mut Alone<BlockSeq>) -> Result<Output, Fail> {
    let mut writer = Output::new(alloc);
    for _ in 0..2 {
        let mut reader = Input::new(CREATE.as_bytes());
        let _served = serve_connection(alloc, pads, &mut reader, &mut writer, 0, &Open)?;
    }
    Ok(writer)
}

// Returns true if this is exactly these two lines.
pub fn are_both(written: &[u8], first: &str, second: &str) -> bool {
    written.strip_prefix(first.as_bytes()) == Some(second.as_bytes())
}

fn is_named(
    rt: &impl Abort,
    alloc: Global,
    pads: &mut Alone<BlockSeq>,
    cell: u32,
    want: &str,
) -> Result<(), Fail> {
    let came = pads.name_of(alloc, cell)?;
    let name = match &came {
        Some(name) => name.as_str(),
        None => "no name",
    };
    assert!(rt; name == want, "cell {cell}: wanted {want}, came {name}");
    Ok(())
}

// After the end the session is unauthenticated, and its pads stay.
#[test]
fn the_session_is_ended(rt: HostRuntime) -> Result<(), Fail> {
    let mut pads = solo(rt.alloc())?;
    let written = written_by_two(rt.alloc(), &mut pads)?;
    assert!(rt;
        are_both(written.bytes(), CREATED, NOBODY),
        "wanted {CREATED}{NOBODY}, came {}",
        text_of(written.bytes())
    );
    assert!(rt; pads.cells() == 64, "{} cells", pads.cells());
    is_named(&rt, rt.alloc(), &mut pads, 0, "p")?;
    is_named(&rt, rt.alloc(), &mut pads, 1, "no name")
}
