//! From a JSON value to an act.
ghost use Rattle.serde_json.specs.View.{view};
ghost use Rattle.std.specs.Prelude.{◌≡◌, IfOk};
ghost use Rattle.wire_json.specs.Reading.{IsForm, IsRead, grantee_in, invited_in, right_in, field};
ghost use Rattle.wire_json.specs.Words.{grantee_of};
ghost use Rattle.wire_json.specs.Requests.{act_of, change_of, change_in, linked};

use crate::act_words::ActWord;
use crate::field::{
    field, flag_field, name_field, number_field, optional_limited_field, optional_number_field,
    str_field, text_field,
};
use crate::guest_forms::{is_plain, is_secret};
use crate::list::{FromJson, list_field};
use crate::op_read::read_op;
use crate::read_forms::{op_name_field, seen_field};
use crate::word::{granted_by, invited_by};
use guests::link_name;
use pad_core::{Act, Change, MAX_BATCH};
use pad_model::{Name, Refusal};
use rights::{Grantee, Right};
use serde_json::Value;
use std::alloc::{AllocError, Global};

fn read_insert(alloc: Global, value: &Value) -> Result<Act, Refusal>
    ensures { IsRead (act_of ActWord.Insert (view value.now)) result }
{
    let rev = number_field(value, "rev")?;
    let at = number_field(value, "at")?;
    let text = text_field(alloc, value, "text")?;
    Ok(Act::Insert { rev, at, text })
}

fn read_delete(value: &Value) -> Result<Act, Refusal>
    ensures { IsForm (act_of ActWord.Delete (view value.now)) result }
{
    let rev = number_field(value, "rev")?;
    let at = number_field(value, "at")?;
    let len = number_field(value, "len")?;
    Ok(Act::Delete { rev, at, len })
}

impl FromJson for Change {
    ghost form = { change_in };

    /// A change has either a text or a length.
    fn from_json(alloc: Global, value: &Value) -> Result<Change, Refusal> {
        let at = number_field(value, "at")?;
        let has_text = value.get("text").is_some();
        let has_len = value.get("len").is_some();
        change_at(alloc, at, has_text, has_len, value)
    }
}

fn change_at(
    alloc: Global,
    at: u64,
    has_text: bool,
    has_len: bool,
    value: &Value,
) -> Result<Change, Refusal>
    ensures { IsRead (change_of has_text has_len at (view value.now)) result }
{
    match (has_text, has_len) {
        (true, false) => Ok(Change::Insert {
            at,
            text: text_field(alloc, value, "text")?,
        }),
        (false, true) => Ok(Change::Delete {
            at,
            len: number_field(value, "len")?,
        }),
        _ => Err(Refusal::NotRequest),
    }
}

fn read_edit(alloc: Global, value: &Value) -> Result<Act, Refusal>
    ensures { IsRead (act_of ActWord.Edit (view value.now)) result }
{
    let rev = number_field(value, "rev")?;
    let changes = list_field(alloc, value, "parts")?;
    Ok(Act::Edit { rev, changes })
}

fn read_comment(alloc: Global, value: &Value) -> Result<Act, Refusal>
    ensures { IsRead (act_of ActWord.Comment (view value.now)) result }
{
    let rev = number_field(value, "rev")?;
    let at = number_field(value, "at")?;
    let len = number_field(value, "len")?;
    let text = text_field(alloc, value, "text")?;
    Ok(Act::Comment { rev, at, len, text })
}

fn read_resolve(value: &Value) -> Result<Act, Refusal>
    ensures { IsForm (act_of ActWord.Resolve (view value.now)) result }
{
    let comment = op_name_field(value, "comment")?;
    Ok(Act::Resolve { comment })
}

fn read_changes(value: &Value) -> Result<Act, Refusal>
    ensures { IsForm (act_of ActWord.Changes (view value.now)) result }
{
    let rev = number_field(value, "rev")?;
    let to = optional_number_field(value, "to")?;
    let wait = optional_number_field(value, "wait")?.unwrap_or(0);
    Ok(Act::Changes { rev, to, wait })
}

fn read_entries(value: &Value) -> Result<Act, Refusal>
    ensures { IsForm (act_of ActWord.Entries (view value.now)) result }
{
    let from = number_field(value, "from")?;
    let count = number_field(value, "count")?;
    let times = flag_field(value, "times")?;
    Ok(Act::Entries { from, count, times })
}

fn read_times(alloc: Global, value: &Value) -> Result<Act, Refusal>
    ensures { IsRead (act_of ActWord.Times (view value.now)) result }
{
    if value.get("at").is_some() {
        let moments = list_field(alloc, value, "at")?;
        return Ok(Act::RevsAt { moments });
    }
    let from = number_field(value, "from")?;
    let step = number_field(value, "step")?;
    let count = number_field(value, "count")?;
    Ok(Act::Times { from, step, count })
}

fn read_birth(value: &Value) -> Result<Act, Refusal>
    ensures { IsForm (act_of ActWord.Birth (view value.now)) result }
{
    let rev = number_field(value, "rev")?;
    let at = number_field(value, "at")?;
    Ok(Act::Birth { rev, at })
}

fn read_caret(value: &Value) -> Result<Act, Refusal>
    ensures { IsForm (act_of ActWord.Caret (view value.now)) result }
{
    let rev = number_field(value, "rev")?;
    let at = number_field(value, "at")?;
    Ok(Act::Caret { rev, at })
}

/// Whom a right is granted to: `*` is everyone.
#[tactic(auto, using(crate::proofs::Fields::grantee_of_string))]
fn grantee_field(alloc: Global, value: &Value, key: &str) -> Result<Grantee, Refusal>
    ensures { IsRead (field grantee_in key.now (view value.now)) result }
{
    Ok(grantee_of(alloc, str_field(value, key)?)?)
}

fn grantee_of(alloc: Global, word: &str) -> Result<Grantee, AllocError>
    ensures { IfOk result (λ grantee. grantee ≡ grantee_of word.now) }
{
    match word {
        "*" => Ok(Grantee::Everyone),
        name => Ok(Grantee::Author(Name::from_str(alloc, name)?)),
    }
}

/// The right to grant, or None to revoke it.
#[tactic(auto, using(crate::proofs::Fields::right_of_string))]
fn right_field(value: &Value, key: &str) -> Result<Option<Right>, Refusal>
    ensures { IsForm (field right_in key.now (view value.now)) result }
{
    match granted_by(str_field(value, key)?) {
        Some(granted) => Ok(granted),
        None => Err(Refusal::NotRequest),
    }
}

fn read_grant(alloc: Global, value: &Value) -> Result<Act, Refusal>
    ensures { IsRead (act_of ActWord.Grant (view value.now)) result }
{
    let right = right_field(value, "right")?;
    let grantee = grantee_field(alloc, value, "author")?;
    Ok(Act::Grant { grantee, right })
}

/// The right of an invitation, which is not to own.
#[tactic(auto, using(crate::proofs::Fields::invited_of_string))]
fn invited_field(value: &Value, key: &str) -> Result<Right, Refusal>
    ensures { IsForm (field invited_in key.now (view value.now)) result }
{
    match invited_by(str_field(value, key)?) {
        Some(right) => Ok(right),
        None => Err(Refusal::NotRequest),
    }
}

/// The name of the link with a secret.
fn linked(alloc: Global, secret: &str) -> Result<Grantee, Refusal>
    ensures { IsRead (linked secret.now) result }
{
    if is_secret(secret.as_bytes()) {
        Ok(Grantee::Author(link_name(alloc, secret)?))
    } else {
        Err(Refusal::NotRequest)
    }
}

/// An invitation grants a right to the name of the link with a secret.
fn read_invite(alloc: Global, value: &Value) -> Result<Act, Refusal>
    ensures { IsRead (act_of ActWord.Invite (view value.now)) result }
{
    let right = Some(invited_field(value, "right")?);
    let grantee = linked(alloc, str_field(value, "secret")?)?;
    Ok(Act::Grant { grantee, right })
}

fn read_hand(alloc: Global, value: &Value) -> Result<Act, Refusal>
    ensures { IsRead (act_of ActWord.Hand (view value.now)) result }
{
    let author = name_field(alloc, value, "author")?;
    Ok(Act::Hand { author })
}

fn read_mark(alloc: Global, value: &Value) -> Result<Act, Refusal>
    ensures { IsRead (act_of ActWord.Mark (view value.now)) result }
{
    let rev = number_field(value, "rev")?;
    let text = text_field(alloc, value, "text")?;
    Ok(Act::Mark { rev, text })
}

fn read_introduce(alloc: Global, value: &Value) -> Result<Act, Refusal>
    ensures { IsRead (act_of ActWord.Introduce (view value.now)) result }
{
    let display = text_field(alloc, value, "as")?;
    if is_plain(&display) {
        Ok(Act::Introduce { display })
    } else {
        Err(Refusal::NotRequest)
    }
}

fn read_push(alloc: Global, value: &Value) -> Result<Act, Refusal>
    ensures { IsRead (act_of ActWord.Push (view value.now)) result }
{
    let op = read_op(alloc, field(value, "op")?)?;
    Ok(Act::Push { op })
}

fn read_pull(alloc: Global, value: &Value) -> Result<Act, Refusal>
    ensures { IsRead (act_of ActWord.Pull (view value.now)) result }
{
    let max = number_field(value, "max")?;
    let batch = optional_limited_field(value, "batch", MAX_BATCH)?;
    let seen = seen_field(alloc, value, "seen")?;
    Ok(Act::Pull { seen, max, batch })
}

fn read_text(value: &Value) -> Result<Act, Refusal>
    ensures { IsForm (act_of ActWord.Text (view value.now)) result }
{
    let rev = optional_number_field(value, "rev")?;
    Ok(Act::Text { rev })
}

fn read_join(value: &Value) -> Result<Act, Refusal>
    ensures { IsForm (act_of ActWord.Join (view value.now)) result }
{
    Ok(match optional_number_field(value, "instead")? {
        Some(old) => Act::Rejoin { old },
        None => Act::Join,
    })
}

fn read_runs(value: &Value) -> Result<Act, Refusal>
    ensures { IsForm (act_of ActWord.Runs (view value.now)) result }
{
    let rev = optional_number_field(value, "rev")?;
    Ok(Act::Runs { rev })
}

fn read_comments(value: &Value) -> Result<Act, Refusal>
    ensures { IsForm (act_of ActWord.Comments (view value.now)) result }
{
    let rev = optional_number_field(value, "rev")?;
    Ok(Act::Comments { rev })
}

/// The act that a request's word names, from the fields that it needs.
pub fn read_act(alloc: Global, word: ActWord, value: &Value) -> Result<Act, Refusal>
    ensures { IsRead (act_of word (view value.now)) result }
{
    match word {
        ActWord::Join => read_join(value),
        ActWord::Leave => Ok(Act::Leave),
        ActWord::Insert => read_insert(alloc, value),
        ActWord::Delete => read_delete(value),
        ActWord::Edit => read_edit(alloc, value),
        ActWord::Text => read_text(value),
        ActWord::Runs => read_runs(value),
        ActWord::Comment => read_comment(alloc, value),
        ActWord::Resolve => read_resolve(value),
        ActWord::Comments => read_comments(value),
        ActWord::Changes => read_changes(value),
        ActWord::Revs => Ok(Act::Revs),
        ActWord::Entries => read_entries(value),
        ActWord::Times => read_times(alloc, value),
        ActWord::Birth => read_birth(value),
        ActWord::Caret => read_caret(value),
        ActWord::Who => Ok(Act::Who),
        ActWord::Grant => read_grant(alloc, value),
        ActWord::Invite => read_invite(alloc, value),
        ActWord::Hand => read_hand(alloc, value),
        ActWord::Rights => Ok(Act::Rights),
        ActWord::Close => Ok(Act::SetClosed { closed: true }),
        ActWord::Reopen => Ok(Act::SetClosed { closed: false }),
        ActWord::Mark => read_mark(alloc, value),
        ActWord::Marks => Ok(Act::Marks),
        ActWord::Introduce => read_introduce(alloc, value),
        ActWord::Guests => Ok(Act::Guests),
        ActWord::Vector => Ok(Act::Vector),
        ActWord::Push => read_push(alloc, value),
        ActWord::Pull => read_pull(alloc, value),
    }
}
