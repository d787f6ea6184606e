//! The answers of a standby.
ghost use Rattle.std.specs.Prelude.{◌≡◌, ◌≢◌, ℕ, IfNone, IfOk, IfSome, option_and_then, string_bytes};
ghost use Rattle.file_copies.specs.declared.answer.StandbyAnswer.TheVariants as answer;
ghost use Rattle.serde_json.specs.View.{view};
ghost use Rattle.wire_json.specs.Reading.{IsForm, IsLine, IsRead};
ghost use Rattle.file_copies.specs.Requests.{answer_in, answer_said, copy_data, copy_in, done_in, kept_data, line_of, ok_in, outcome_in, refused_data, told_data};

use crate::line::{line_text, read_value};
use pad_model::{Name, Refusal};
use serde_json::{Value, json};
use sessions::Word;
use std::alloc::{AllocError, Global};
use wire_json::{name_field, number_field, str_field};

/// An answer of a standby.
#[derive(Debug, Drop)]
pub enum StandbyAnswer {
    /// The copy of a pad's file has `bytes` bytes, and its last line has this sum.
    Copy { pad: Name, bytes: u64, sum: Word },
    /// All copies have been reported; or the standby is promoted.
    Told,
    /// Everything up to this mark is on the disk.
    Kept { mark: u64 },
    /// The request is refused, with this number.
    Refused { code: u64 },
}

/// A standby has said that everything up to a mark is on its disk. Only `StandbyAnswer::heard` gives this.
#[derive(Debug, Drop)]
pub struct HeardMark {
    mark: u64,
}

impl HeardMark {
    /// The mark.
    pub fn mark(&self) -> u64
        ensures { result ≡ self.now.mark }
    {
        self.mark
    }
}

impl StandbyAnswer {
    /// Returns the mark that the answer confirms, if it confirms one.
    pub fn heard(&self) -> Option<HeardMark>
        ensures some { IfSome result (λ heard. self.now ≡ answer.Kept heard.mark) }
        ensures none { IfNone result ((mark : ℕ) → self.now ≢ answer.Kept mark) }
    {
        match self {
            StandbyAnswer::Kept { mark } => Some(HeardMark { mark: *mark }),
            StandbyAnswer::Copy { .. } | StandbyAnswer::Told | StandbyAnswer::Refused { .. } =>
                None,
        }
    }
}

/// The line that reports the progress of the copy of a pad's file.
pub fn copy_line(alloc: Global, pad: &Name, bytes: u64, sum: &str) -> Result<String, AllocError>
    ensures { IfOk result (λ line. string_bytes line ≡ line_of (copy_data pad.now bytes sum.now)) }
{
    let value = copy_value(alloc, pad, bytes, sum)?;
    line_text(alloc, &value)
}

fn copy_value(alloc: Global, pad: &Name, bytes: u64, sum: &str) -> Result<Value, AllocError>
    ensures { IfOk result (λ value. view value ≡ copy_data pad.now bytes sum.now) }
{
    json!(in alloc; {"bytes": bytes, "pad": pad.as_str(), "sum": sum})
}

/// The line after those of all copies. It also answers a promotion.
pub fn told_line(alloc: Global) -> Result<String, AllocError>
    ensures { IfOk result (λ line. string_bytes line ≡ line_of told_data) }
{
    let value = told_value(alloc)?;
    line_text(alloc, &value)
}

fn told_value(alloc: Global) -> Result<Value, AllocError>
    ensures { IfOk result (λ value. view value ≡ told_data) }
{
    json!(in alloc; {"ok": true})
}

/// The line that reports that everything up to a mark is on the disk.
pub fn kept_line(alloc: Global, mark: u64) -> Result<String, AllocError>
    ensures { IfOk result (λ line. string_bytes line ≡ line_of (kept_data mark)) }
{
    let value = kept_value(alloc, mark)?;
    line_text(alloc, &value)
}

fn kept_value(alloc: Global, mark: u64) -> Result<Value, AllocError>
    ensures { IfOk result (λ value. view value ≡ kept_data mark) }
{
    json!(in alloc; {"mark": mark, "ok": true})
}

/// The line of a refusal with this number and this name.
pub fn refused_line(alloc: Global, code: u16, name: &str) -> Result<String, AllocError>
    ensures { IfOk result (λ line. string_bytes line ≡ line_of (refused_data code name.now)) }
{
    let value = refused_value(alloc, code, name)?;
    line_text(alloc, &value)
}

fn refused_value(alloc: Global, code: u16, name: &str) -> Result<Value, AllocError>
    ensures { IfOk result (λ value. view value ≡ refused_data code name.now) }
{
    json!(in alloc; {"code": code, "error": name, "ok": false})
}

impl StandbyAnswer {
    /// Reads a line as an answer; 101 if it is not JSON, 102 if it is no answer of a standby.
    pub fn read(alloc: Global, line: &[u8]) -> Result<StandbyAnswer, Refusal>
        ensures { IsLine (answer_said line.now) result }
    {
        let value = read_value(alloc, line)?;
        read_answer(alloc, &value)
    }
}

fn read_answer(alloc: Global, value: &Value) -> Result<StandbyAnswer, Refusal>
    ensures { IsRead (answer_in (view value.now)) result }
{
    match value.get("pad") {
        Some(_) => read_copy(alloc, value),
        None => Ok(read_outcome(value)?),
    }
}

fn read_copy(alloc: Global, value: &Value) -> Result<StandbyAnswer, Refusal>
    ensures { IsRead (copy_in (view value.now)) result }
{
    let pad = name_field(alloc, value, "pad")?;
    let bytes = number_field(value, "bytes")?;
    let sum = Word::from_str(alloc, str_field(value, "sum")?)?;
    Ok(StandbyAnswer::Copy { pad, bytes, sum })
}

fn read_outcome(value: &Value) -> Result<StandbyAnswer, Refusal>
    ensures { IsForm (option_and_then (λ ok. outcome_in ok (view value.now)) (ok_in (view value.now))) result }
{
    let Some(ok) = value.get("ok") else {
        return Err(Refusal::NotRequest);
    };
    match ok.as_bool() {
        Some(true) => read_done(value),
        Some(false) => Ok(StandbyAnswer::Refused {
            code: number_field(value, "code")?,
        }),
        None => Err(Refusal::NotRequest),
    }
}

fn read_done(value: &Value) -> Result<StandbyAnswer, Refusal>
    ensures { IsForm (done_in (view value.now)) result }
{
    match value.get("mark") {
        Some(_) => Ok(StandbyAnswer::Kept {
            mark: number_field(value, "mark")?,
        }),
        None => Ok(StandbyAnswer::Told),
    }
}
