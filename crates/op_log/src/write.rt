//! Operations are written.
ghost use Rattle.std.specs.Prelude.{◌≡◌, ◌++◌, ◌≤◌, ◌<◌, ◌^◌, length, flat_map, IfOk, OnOk};
ghost use Rattle.std.specs.List.{AllByRecursion};
ghost use Rattle.std.specs.Char.{IsScalar};
ghost use Rattle.op_log.specs.Number.{number_bytes};
ghost use Rattle.op_log.specs.Packed.{op_bytes, name_bytes, stamp_bytes, parent_bytes, text_bytes, span_bytes, part_bytes, counted_bytes, seen_bytes};
ghost use Rattle.op_log.specs.Fits.{IsFitting, FitsName, FitsStamp, FitsParent, FitsText, FitsSpan, FitsSpans, FitsPart, FitsCounted, FitsSeen};

use crate::number::push_number;
use pad_model::{Counted, Op, OpName, Part, Run, Seen, Span, Stamp};
use std::alloc::{AllocError, Global};

/// The bytes of most operations.
const USUAL: usize = 32;

/// An operation as bytes, with the place of its author's name in a table.
pub fn pack(alloc: Global, author: u64, op: &Op) -> Result<Vec<u8>, AllocError>
    ensures bytes { IfOk result (λ bytes. bytes.items ≡ op_bytes author op.now) }
    ensures fits { OnOk result (IsFitting op.now) }
    ensures author { author < 2 ^ 64 }
{
    let mut bytes = Vec::with_capacity(alloc, USUAL)?;
    push_name(&mut bytes, op.name)?;
    push_seen(&mut bytes, &op.seen)?;
    push_number(&mut bytes, author)?;
    let parts = op.parts.as_slice();
    push_number(&mut bytes, parts.len() as u64)?;
    push_parts(&mut bytes, parts)?;
    Ok(bytes)
}

fn push_origin(bytes: &mut Vec<u8>, origin: u16) -> Result<(), AllocError>
    ensures ok { OnOk result (bytes.new.items ≡ bytes.old.items ++ number_bytes origin) }
    ensures bound { origin ≤ 65535 }
{
    push_number(bytes, origin as u64)
}

fn push_name(bytes: &mut Vec<u8>, name: OpName) -> Result<(), AllocError>
    ensures ok { OnOk result (bytes.new.items ≡ bytes.old.items ++ name_bytes name) }
    ensures fits { FitsName name }
{
    push_origin(bytes, name.origin)?;
    push_number(bytes, name.number)
}

fn push_seen(bytes: &mut Vec<u8>, seen: &Seen) -> Result<(), AllocError>
    ensures ok { OnOk result (bytes.new.items ≡ bytes.old.items ++ seen_bytes seen.now) }
    ensures fits { OnOk result (FitsSeen seen.now) }
{
    let pairs = seen.pairs();
    push_number(bytes, pairs.len() as u64)?;
    push_pairs(bytes, pairs)
}

fn push_pairs(bytes: &mut Vec<u8>, pairs: &[Counted]) -> Result<(), AllocError>
    ensures ok { OnOk result (bytes.new.items
        ≡ bytes.old.items ++ flat_map counted_bytes pairs.now) }
    ensures fits { OnOk result (AllByRecursion FitsCounted pairs.now) }
{
    for pair in pairs {
        push_counted(bytes, *pair)?;
    }
    Ok(())
}

fn push_counted(bytes: &mut Vec<u8>, pair: Counted) -> Result<(), AllocError>
    ensures ok { OnOk result (bytes.new.items ≡ bytes.old.items ++ counted_bytes pair) }
    ensures fits { FitsCounted pair }
{
    push_origin(bytes, pair.origin)?;
    push_number(bytes, pair.count)
}

fn push_stamp(bytes: &mut Vec<u8>, stamp: Stamp) -> Result<(), AllocError>
    ensures ok { OnOk result (bytes.new.items ≡ bytes.old.items ++ stamp_bytes stamp) }
    ensures fits { FitsStamp stamp }
{
    push_number(bytes, stamp.counter())?;
    push_origin(bytes, stamp.replica())
}

fn push_parent(bytes: &mut Vec<u8>, parent: Option<Stamp>) -> Result<(), AllocError>
    ensures ok { OnOk result (bytes.new.items ≡ bytes.old.items ++ parent_bytes parent) }
    ensures fits { OnOk result (FitsParent parent) }
{
    match parent {
        None => push_number(bytes, 0),
        Some(stamp) => {
            push_number(bytes, 1)?;
            push_stamp(bytes, stamp)
        }
    }
}

fn push_text(bytes: &mut Vec<u8>, text: &[char]) -> Result<(), AllocError>
    ensures ok { OnOk result (bytes.new.items ≡ bytes.old.items ++ text_bytes text.now) }
    ensures fits { OnOk result (FitsText text.now) }
{
    push_number(bytes, text.len() as u64)?;
    push_characters(bytes, text)
}

fn push_characters(bytes: &mut Vec<u8>, text: &[char]) -> Result<(), AllocError>
    ensures ok { OnOk result (bytes.new.items ≡ bytes.old.items ++ flat_map number_bytes text.now) }
    ensures fits { OnOk result (AllByRecursion IsScalar text.now) }
{
    for character in text {
        push_character(bytes, *character)?;
    }
    Ok(())
}

fn push_character(bytes: &mut Vec<u8>, character: char) -> Result<(), AllocError>
    ensures ok { OnOk result (bytes.new.items ≡ bytes.old.items ++ number_bytes character) }
    ensures fits { IsScalar character }
{
    push_number(bytes, character as u64)
}

fn push_parts(bytes: &mut Vec<u8>, parts: &[Part]) -> Result<(), AllocError>
    ensures ok { OnOk result (bytes.new.items ≡ bytes.old.items ++ flat_map part_bytes parts.now) }
    ensures fits { OnOk result (AllByRecursion FitsPart parts.now) }
{
    for part in parts {
        push_part(bytes, part)?;
    }
    Ok(())
}

fn push_part(bytes: &mut Vec<u8>, part: &Part) -> Result<(), AllocError>
    ensures ok { OnOk result (bytes.new.items ≡ bytes.old.items ++ part_bytes part.now) }
    ensures fits { OnOk result (FitsPart part.now) }
{
    match part {
        Part::Insert(run) => {
            push_number(bytes, 0)?;
            push_run(bytes, run)
        }
        Part::Delete(spans) => {
            push_number(bytes, 1)?;
            push_spans(bytes, spans.as_slice())
        }
        Part::Comment { first, last, text } => {
            push_number(bytes, 2)?;
            push_stamp(bytes, *first)?;
            push_stamp(bytes, *last)?;
            push_text(bytes, text.as_slice())
        }
        Part::Resolve { comment } => {
            push_number(bytes, 3)?;
            push_name(bytes, *comment)
        }
    }
}

fn push_run(bytes: &mut Vec<u8>, run: &Run) -> Result<(), AllocError>
    ensures ok { OnOk result (bytes.new.items
        ≡ bytes.old.items ++ (stamp_bytes run.now.first
        ++ (parent_bytes run.now.after ++ text_bytes run.now.text))) }
    ensures fits { OnOk result (FitsStamp run.now.first × FitsParent run.now.after
        × FitsText run.now.text) }
{
    push_stamp(bytes, run.first)?;
    push_parent(bytes, run.after)?;
    push_text(bytes, run.text.as_slice())
}

fn push_spans(bytes: &mut Vec<u8>, spans: &[Span]) -> Result<(), AllocError>
    ensures ok { OnOk result (bytes.new.items
        ≡ bytes.old.items ++ (number_bytes (length spans.now) ++ flat_map span_bytes spans.now)) }
    ensures fits { OnOk result (FitsSpans spans.now) }
{
    push_number(bytes, spans.len() as u64)?;
    push_each_span(bytes, spans)
}

fn push_each_span(bytes: &mut Vec<u8>, spans: &[Span]) -> Result<(), AllocError>
    ensures ok { OnOk result (bytes.new.items ≡ bytes.old.items ++ flat_map span_bytes spans.now) }
    ensures fits { OnOk result (AllByRecursion FitsSpan spans.now) }
{
    for span in spans {
        push_span(bytes, *span)?;
    }
    Ok(())
}

fn push_span(bytes: &mut Vec<u8>, span: Span) -> Result<(), AllocError>
    ensures ok { OnOk result (bytes.new.items ≡ bytes.old.items ++ span_bytes span) }
    ensures fits { FitsSpan span }
{
    push_stamp(bytes, span.first)?;
    push_number(bytes, span.len)
}
