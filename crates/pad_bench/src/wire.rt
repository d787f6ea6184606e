//! Work on lines: requests are read and replies written, or `serde_json` alone reads and writes the same lines.
use pad_core::{PadReply, Pushed, Reply};
use pad_model::{Items, OpName, Refusal, Text};
use serde_json::Value;
use std::alloc::Global;
use wire_json::{read_request, reply_line};

/// The requests of a session, a line of each kind that is frequent.
const ASKED: [&str; 6] = [
    r#"{"do":"insert","pad":"minutes","rev":1204,"at":3310,"text":"x"}"#,
    r#"{"do":"insert","pad":"minutes","rev":1204,"at":3310,"text":"The council met at ten."}"#,
    r#"{"do":"delete","pad":"minutes","rev":1205,"at":3311,"len":12}"#,
    r#"{"do":"caret","pad":"minutes","rev":1206,"at":3311}"#,
    r#"{"do":"text","pad":"minutes"}"#,
    r#"{"do":"push","pad":"minutes","op":{"after":[2,1],"author":"bob","first":[5,2],"kind":"insert","name":[2,1],"seen":[[1,1]],"text":"X"}}"#,
];

// The reply to a request of a kind.
fn answered(alloc: Global, kind: usize) -> Result<Reply, Refusal> {
    let name = OpName {
        origin: 1,
        number: 1_205,
    };
    Ok(Reply::Pad(match kind {
        0 | 1 => PadReply::Made { now: 1_205, name },
        2 => PadReply::Changed {
            now: 1_206,
            name,
            hidden: 12,
        },
        3 => PadReply::Done { now: 1_206 },
        4 => PadReply::Text {
            now: 1_206,
            rev: 1_206,
            text: Text::from_str(alloc, "The council met at ten. All were present but two.")?,
        },
        _ => PadReply::Pushed {
            now: 1_207,
            state: Pushed::Delivered,
            released: 0,
            dropped: 0,
        },
    }))
}

// The bytes of all answers, where each line is read as a request and each answer written as a reply, `rounds` times.
fn by_wire(alloc: Global, rounds: u64) -> Result<u64, Refusal> {
    let mut answers = Items::new(alloc);
    for kind in 0..ASKED.len() {
        answers.push(Ok(answered(alloc, kind)?))?;
    }
    let mut bytes = 0_u64;
    for _ in 0..rounds {
        bytes = bytes.wrapping_add(round_by_wire(alloc, answers.as_slice())?);
    }
    Ok(bytes)
}

fn round_by_wire(alloc: Global, answers: &[Result<Reply, Refusal>]) -> Result<u64, Refusal> {
    let mut bytes = 0_u64;
    for (line, answer) in ASKED.iter().zip(answers.iter()) {
        bytes = bytes.wrapping_add(line_by_wire(alloc, line, answer)?);
    }
    Ok(bytes)
}

fn line_by_wire(
    alloc: Global,
    line: &str,
    answer: &Result<Reply, Refusal>,
) -> Result<u64, Refusal> {
    let _request = read_request(alloc, line.as_bytes())?;
    let text = reply_line(alloc, answer)?;
    Ok(text.len() as u64)
}

// The same by `serde_json` alone.
fn by_json(alloc: Global, rounds: u64) -> Result<u64, Refusal> {
    let mut answers = Items::new(alloc);
    for kind in 0..ASKED.len() {
        answers.push(answered_value(alloc, kind)?)?;
    }
    let mut bytes = 0_u64;
    for _ in 0..rounds {
        bytes = bytes.wrapping_add(round_by_json(alloc, answers.as_slice())?);
    }
    Ok(bytes)
}

fn answered_value(alloc: Global, kind: usize) -> Result<Value, Refusal> {
    let answer = Ok(answered(alloc, kind)?);
    let line = reply_line(alloc, &answer)?;
    value_of(alloc, line.as_str())
}

fn round_by_json(alloc: Global, answers: &[Value]) -> Result<u64, Refusal> {
    let mut bytes = 0_u64;
    for (line, answer) in ASKED.iter().zip(answers.iter()) {
        bytes = bytes.wrapping_add(line_by_json(alloc, line, answer)?);
    }
    Ok(bytes)
}

fn line_by_json(alloc: Global, line: &str, answer: &Value) -> Result<u64, Refusal> {
    let _value = value_of(alloc, line)?;
    let mut text = answer.to_string(alloc)?;
    text.push('\n')?;
    Ok(text.len() as u64)
}

fn value_of(alloc: Global, line: &str) -> Result<Value, Refusal> {
    match Value::from_slice(alloc, line.as_bytes()) {
        Ok(value) => Ok(value),
        Err(_) => Err(Refusal::NotJson),
    }
}

fn told(alloc: Global, rounds: u64, bytes: u64) -> Result<String, Refusal> {
    let lines = rounds.wrapping_mul(ASKED.len() as u64);
    Ok(format!(in alloc; "lines {lines}, bytes {bytes}")?)
}

/// Reads requests and writes replies.
pub fn wire(alloc: Global, size: u32, times: u32) -> Result<String, Refusal> {
    let rounds = u64::from(size).wrapping_mul(u64::from(times));
    told(alloc, rounds, by_wire(alloc, rounds)?)
}

/// Has `serde_json` read and write the same lines.
pub fn json(alloc: Global, size: u32, times: u32) -> Result<String, Refusal> {
    let rounds = u64::from(size).wrapping_mul(u64::from(times));
    told(alloc, rounds, by_json(alloc, rounds)?)
}
