//! Parts of a reply line.
use pad_model::{Op, Refusal};
use serde_json::Value;
use std::alloc::Global;
use wire_json::read_op;

/// The number after these characters.
pub fn number_behind(line: &str, key: &str) -> Option<u64> {
    let (_, rest) = line.split_once(key)?;
    let mut number = 0_u64;
    for character in rest.chars() {
        let Some(digit) = character.to_digit(10) else {
            break;
        };
        number = number.saturating_mul(10).saturating_add(u64::from(digit));
    }
    Some(number)
}

/// The number of characters of a reply's text, in which none may be escaped.
pub fn text_len(line: &str) -> u64 {
    match line.split_once(r#""text":""#) {
        Some((_, rest)) => rest.chars().count().saturating_sub(3) as u64,
        None => 0,
    }
}

/// The part of a line between two others.
pub fn between<'a>(line: &'a str, front: &str, back: &str) -> Option<&'a str> {
    let (_, rest) = line.split_once(front)?;
    let (part, _) = rest.split_once(back)?;
    Some(part)
}

pub fn is_refusal(line: &str) -> bool {
    line.starts_with(r#"{"code":"#)
}

fn value_of(alloc: Global, line: &str) -> Result<Value, Refusal> {
    match Value::from_str(alloc, line) {
        Ok(value) => Ok(value),
        Err(_) => Err(Refusal::NotJson),
    }
}

/// The operations of a reply, each as JSON.
pub fn ops_in(alloc: Global, line: &str) -> Result<Vec<String>, Refusal> {
    let value = value_of(alloc, line)?;
    if let Some(ops) = value.get("ops")
        && let Some(ops) = ops.as_array()
    {
        texts_of(alloc, ops)
    } else {
        Ok(Vec::new(alloc))
    }
}

fn texts_of(alloc: Global, ops: &[Value]) -> Result<Vec<String>, Refusal> {
    let mut texts = Vec::new(alloc);
    for op in ops {
        texts.push(op.to_string(alloc)?)?;
    }
    Ok(texts)
}

/// The operation of a JSON text.
pub fn op_of(alloc: Global, text: &str) -> Result<Op, Refusal> {
    let value = value_of(alloc, text)?;
    read_op(alloc, &value)
}
