//! Insertions and deletions of authors.
ghost use Rattle.std.specs.Prelude.{◌≡◌, ◌≤◌, ◌+◌, ◌||◌, ◌==◌, nat_lt, ◌∷◌, [], length, sum_by, min, IsTrue, None, MatchResult};
ghost use Rattle.std.specs.List.{list_any};
ghost use Rattle.pad_model.specs.Answers.{Answers};
ghost use Rattle.pad_model.specs.Checked.{is_checked, is_name};
ghost use Rattle.pad_model.specs.declared.limits.TheConstants.{MAX_PARTS, MAX_TEXT};
ghost use Rattle.pad_core.specs.Counts.{op_of};
ghost use Rattle.pad_core.specs.Counts as counts;
ghost use Rattle.pad_core.specs.Delivered.{IsDelivered, delivery_refusal};
ghost use Rattle.pad_core.specs.declared.act.Change.TheVariants.{Insert};
ghost use Rattle.pad_core.specs.Edits.{appended, edit_refusal, edited};
ghost use Rattle.pad_core.specs.Edits as edits;

use crate::act::Change;
use crate::append::append;
use crate::demand::{Demand, first_refusal};
use crate::ledger::Ledger;
use crate::make::{make_insertion, make_parts};
use crate::reply::PadReply;
use crate::writer::{Passage, Writer};
use op_log::MadeList;
use pad_model::{Items, MAX_PARTS, MAX_TEXT, Op, OpName, Part, Refusal, Sequence, Text};
use std::alloc::Global;

/// An edit that was made: its name, and how many visible characters it hides.
#[derive(Clone, Copy)]
pub struct Edited {
    pub name: OpName,
    pub hidden: u64,
}

/// Inserts a text at a place of a revision.
pub fn insert<S: Sequence>(
    alloc: Global,
    ledger: &mut Ledger<S>,
    made: &mut MadeList,
    writer: Writer<'_>,
    rev: u64,
    at: u64,
    text: &Text,
) -> Result<PadReply, Refusal>
    requires replica { 1 ≤ writer.replica }
    requires author { IsTrue (is_name writer.author.now) }
    requires room { length ledger.old ≤ made.old.room }
    ensures answer { Answers ledger.old (edits.insert writer.entry.replica writer.entry.author.now rev at
        text.now ledger.old) result ledger.new }
    ensures made { made.new.made ≡ made.old.made }
    ensures grown { length ledger.old ≤ length ledger.new }
    ensures room { length ledger.new ≤ made.new.room }
{
    if let Some(refusal) = refuse_insert(ledger, rev, at, text) {
        return Err(refusal);
    }
    let parts = make_insertion(alloc, ledger, writer.replica, rev, at, text)?;
    let edit = append_parts(alloc, ledger, made, writer, parts)?;
    Ok(PadReply::Made {
        now: ledger.len(),
        name: edit.name,
    })
}

/// Erases a passage.
pub fn delete<S: Sequence>(
    alloc: Global,
    ledger: &mut Ledger<S>,
    made: &mut MadeList,
    writer: Writer<'_>,
    passage: Passage,
) -> Result<PadReply, Refusal>
    requires replica { 1 ≤ writer.replica }
    requires author { IsTrue (is_name writer.author.now) }
    requires room { length ledger.old ≤ made.old.room }
    ensures answer { Answers ledger.old (edits.delete writer.entry.replica writer.entry.author.now passage.rev
        passage.at passage.len ledger.old) result ledger.new }
    ensures made { made.new.made ≡ made.old.made }
    ensures grown { length ledger.old ≤ length ledger.new }
    ensures room { length ledger.new ≤ made.new.room }
{
    let Passage { rev, at, len } = passage;
    let changes = [Change::Delete { at, len }];
    edit(alloc, ledger, made, writer, rev, changes.as_slice())
}

/// Makes several changes of a revision as one operation.
pub fn edit<S: Sequence>(
    alloc: Global,
    ledger: &mut Ledger<S>,
    made: &mut MadeList,
    writer: Writer<'_>,
    rev: u64,
    changes: &[Change],
) -> Result<PadReply, Refusal>
    requires replica { 1 ≤ writer.replica }
    requires author { IsTrue (is_name writer.author.now) }
    requires room { length ledger.old ≤ made.old.room }
    ensures answer { Answers ledger.old (edits.edit writer.entry.replica writer.entry.author.now rev
        changes.now ledger.old) result ledger.new }
    ensures made { made.new.made ≡ made.old.made }
    ensures grown { length ledger.old ≤ length ledger.new }
    ensures room { length ledger.new ≤ made.new.room }
{
    let edit = make_edit(alloc, ledger, made, writer, rev, changes)?;
    Ok(PadReply::Changed {
        now: ledger.len(),
        name: edit.name,
        hidden: edit.hidden,
    })
}

/// Makes the operation of some changes and delivers it, unless it is refused.
fn make_edit<S: Sequence>(
    alloc: Global,
    ledger: &mut Ledger<S>,
    made: &mut MadeList,
    writer: Writer<'_>,
    rev: u64,
    changes: &[Change],
) -> Result<Edited, Refusal>
    requires replica { 1 ≤ writer.replica }
    requires author { IsTrue (is_name writer.author.now) }
    requires room { length ledger.old ≤ made.old.room }
    ensures answer { Answers ledger.old (edited writer.entry.replica writer.entry.author.now rev
        changes.now ledger.old) result ledger.new }
    ensures made { made.new.made ≡ made.old.made }
    ensures grown { length ledger.old ≤ length ledger.new }
    ensures room { length ledger.new ≤ made.new.room }
{
    if let Some(refusal) = refuse_edit(ledger, rev, changes) {
        return Err(refusal);
    }
    let parts = make_parts(alloc, ledger, writer.replica, rev, changes)?;
    append_parts(alloc, ledger, made, writer, parts)
}

/// Delivers the next operation of an author, to which no refusal applies.
fn append_parts<S: Sequence>(
    alloc: Global,
    ledger: &mut Ledger<S>,
    made: &mut MadeList,
    writer: Writer<'_>,
    parts: Items<Part>,
) -> Result<Edited, Refusal>
    requires checked { IsTrue (is_checked
        (op_of writer.replica writer.author.now parts ledger.old)) }
    requires allowed { delivery_refusal (op_of writer.replica writer.author.now parts ledger.old)
        ledger.old ≡ None }
    requires room { length ledger.old ≤ made.old.room }
    ensures answer { Answers ledger.old (appended writer.entry.replica writer.entry.author.now parts
        ledger.old) result ledger.new }
    ensures made { made.new.made ≡ made.old.made }
    ensures grown { length ledger.old ≤ length ledger.new }
    ensures room { length ledger.new ≤ made.new.room }
{
    let op = make_op(ledger, writer, parts)?;
    let name = op.name;
    let hidden = append(alloc, ledger, made, op)?;
    Ok(Edited { name, hidden })
}

/// The name of the next operation of a replica.
pub fn next_name<S: Sequence>(ledger: &Ledger<S>, replica: u16) -> OpName
    ensures { result ≡ counts.next_name replica ledger.now }
{
    // No count is above the number of operations, which its contract bounds.
    let _operations = ledger.len();
    OpName {
        origin: replica,
        number: ledger.seen().count(replica) + 1,
    }
}

/// The next operation of an author on this replica.
pub fn make_op<S: Sequence>(
    ledger: &Ledger<S>,
    writer: Writer<'_>,
    parts: Items<Part>,
) -> Result<Op, Refusal>
    ensures { MatchResult result (λ op. op
        ≡ op_of writer.entry.replica writer.entry.author.now parts ledger.now)
        (λ e. e ≡ Refusal.Memory) }
{
    let mut seen = ledger.seen().clone()?;
    seen.set(writer.replica, 0)?;
    Ok(Op {
        name: next_name(ledger, writer.replica),
        seen,
        author: writer.author.clone()?,
        parts,
    })
}

/// Returns the reason changes of a revision are refused, or None.
fn refuse_edit<S: Sequence>(ledger: &Ledger<S>, rev: u64, changes: &[Change]) -> Option<Refusal>
    ensures value { result ≡ edit_refusal rev changes.now ledger.now }
    ensures sound { IsDelivered ledger.now }
{
    let demand = Demand {
        is_outside: is_any_outside(ledger.len_at(rev), changes),
        is_idle: are_idle(changes),
        is_too_much: are_too_much(changes),
        growth: total_growth(changes),
    };
    first_refusal(ledger, rev, demand)
}

/// The same for one insertion, before its text is copied.
fn refuse_insert<S: Sequence>(ledger: &Ledger<S>, rev: u64, at: u64, text: &Text) -> Option<Refusal>
    ensures value { result ≡ edit_refusal rev (Insert at text.now ∷ []) ledger.now }
    ensures sound { IsDelivered ledger.now }
{
    let growth = text.len() as u64;
    let demand = Demand {
        is_outside: ledger.len_at(rev) < at,
        is_idle: growth == 0,
        is_too_much: MAX_TEXT < growth,
        growth,
    };
    first_refusal(ledger, rev, demand)
}

fn is_any_outside(shown: u64, changes: &[Change]) -> bool
    ensures { result ≡ list_any (edits.is_outside shown) changes.now }
{
    changes.iter().any(|change| is_outside(shown, change))
}

/// Returns true if there is no change, or one that does nothing.
fn are_idle(changes: &[Change]) -> bool
    ensures { result ≡ (length changes.now == 0 || list_any edits.is_blank changes.now) }
{
    changes.is_empty() || is_any_blank(changes)
}

fn is_any_blank(changes: &[Change]) -> bool
    ensures { result ≡ list_any edits.is_blank changes.now }
{
    changes.iter().any(is_blank)
}

fn are_too_much(changes: &[Change]) -> bool
    ensures { result ≡ (nat_lt MAX_PARTS (length changes.now)
        || nat_lt MAX_TEXT (sum_by edits.size_of changes.now)) }
{
    MAX_PARTS < changes.len() as u64 || MAX_TEXT < total_size(changes)
}

fn is_outside(shown: u64, change: &Change) -> bool
    ensures { result ≡ edits.is_outside shown change.now }
{
    match change {
        Change::Insert { at, .. } => shown < *at,
        Change::Delete { at, len } => shown < *at || shown - *at < *len,
    }
}

fn is_blank(change: &Change) -> bool
    ensures { result ≡ edits.is_blank change.now }
{
    size_of(change) == 0
}

fn size_of(change: &Change) -> u64
    ensures { result ≡ edits.size_of change.now }
{
    match change {
        Change::Insert { text, .. } => text.len() as u64,
        Change::Delete { len, .. } => *len,
    }
}

/// The number of characters that the changes insert or erase together, or `u64::MAX` if it is greater.
fn total_size(changes: &[Change]) -> u64
    ensures { result ≡ min (sum_by edits.size_of changes.now) u64.MAX }
{
    changes
        .iter()
        .fold(0, |total, change| total.saturating_add(size_of(change)))
}

pub fn growth_of(change: &Change) -> u64
    ensures { result ≡ edits.growth_of change.now }
{
    match change {
        Change::Insert { text, .. } => text.len() as u64,
        Change::Delete { .. } => 0,
    }
}

/// The number of characters that the changes insert together, or `u64::MAX` if it is greater.
fn total_growth(changes: &[Change]) -> u64
    ensures { result ≡ min (sum_by edits.growth_of changes.now) u64.MAX }
{
    changes
        .iter()
        .fold(0, |total, change| total.saturating_add(growth_of(change)))
}
