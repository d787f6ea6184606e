//! Loads a pad from the bytes of its file.
ghost use Rattle.std.specs.Prelude.{◌≡◌, ◌⊎◌, ◌≤◌, ◌+◌, ℕ, List, [], length, true, false, bytes_eq, string_bytes, IfOk, IfSome, MatchOption, MatchResult, Some, None, Ok, Err};
ghost use Rattle.serde_json.specs.Written.{compact_text};
ghost use Rattle.pad_model.specs.declared.refusal.Refusal.{Refusal};
ghost use Rattle.pad_core.specs.Machine.{name_of};
ghost use Rattle.store_records.specs.Records.{unnamed};
ghost use Rattle.store_records.specs.Records as records;
ghost use Rattle.wire_json.specs.Lines as lines_spec;
ghost use Rattle.store_format.specs.Entries.{entry_said};
ghost use Rattle.store_format.specs.Files.{Read, first_read, if_called, pad_read, said_at, so_far, text_read, unbegun};
ghost use Rattle.store_format.specs.Forms.{IsSayableRecord, record_data};
ghost use Rattle.store_format.specs.Laws.{Tells};
ghost use Rattle.store_format.specs.Lines.{text_behind};
ghost use Rattle.store_format.specs.declared.reader.Damage.TheVariants.{Memory};

use crate::entry::{StoreLine, read_entry, value_of};
use crate::form::record_value;
use crate::header::Header;
use crate::line::text_of;
use crate::loading::Loading;
use pad_core::Pad;
use pad_model::{Refusal, Sequence};
use std::alloc::{AllocError, Global};
use store_records::{Record, replay};
use thiserror::Error;

/// The reason a file cannot be loaded.
#[derive(Clone, Copy, Debug, PartialEq, Eq, Error)]
pub enum Damage {
    #[error("out of memory")]
    Memory,
    #[error("no pad was named")]
    Empty,
    #[error("line {line}: it was changed, or lines before it are missing")]
    Unlinked { line: u64 },
    #[error("line {line}: it is no record")]
    Unknown { line: u64 },
    #[error("line {line}: {} {}", .refusal.code(), .refusal.name())]
    Refused { line: u64, refusal: Refusal },
    #[error("it is the file of another pad")]
    OtherPad,
}

/// The first bytes of every pad's file.
const BEGINNING: &[u8] = b"[{\"format\":";

/// A pad that was loaded from its file.
#[derive(Drop)]
pub struct Loaded<S: Sequence> {
    pub pad: Pad<S>,
    /// The last header of the file.
    pub header: Header,
    /// The sum of the last line that was read.
    pub sum: String,
    /// The number of bytes of the lines that were read.
    pub whole: u64,
    /// The number of bytes after those lines: a part of a line, or the remains of lines that were never synced.
    pub cut: u64,
}

/// The state that the next line follows: the last header, the sum of the last line, and the number of bytes of the
/// lines.
#[derive(Drop)]
pub struct Tail {
    pub header: Header,
    pub sum: String,
    pub whole: u64,
}

/// The text of a record's line. `at` is the time in seconds since 1970, and `together` tells whether it is written
/// together with an earlier line that is not yet synced. An operation within the limits will be read as it was written.
pub fn record_text(
    alloc: Global,
    at: u64,
    together: bool,
    kept: &Record,
) -> Result<String, AllocError>
    ensures text { IfOk result (λ text. string_bytes text ≡ compact_text (record_data at together kept.now)) }
    ensures value { IfOk result (λ text. lines_spec.value_of (string_bytes text)
        ≡ Some (record_data at together kept.now)) }
    ensures tells { IfOk result (λ text. IsSayableRecord kept.now
        → Tells (StoreLine.Record kept.now) (string_bytes text)) }
{
    let value = record_value(alloc, at, together, kept)?;
    value.to_string(alloc)
}

/// Loads the pad with this name from the bytes of its file, for the server with this replica number, with `present` as
/// the limit of visits. What a crash left at the end of the file is ignored.
pub fn load<S: Sequence>(
    alloc: Global,
    replica: u16,
    present: u64,
    name: &str,
    bytes: &[u8],
) -> Result<Loaded<S>, Damage>
    requires { 1 ≤ replica }
    ensures read { MatchResult result (λ loaded. pad_read replica present name.now bytes.now
        ≡ Ok (record {
          pad = loaded.pad;
          header = loaded.header;
          sum = string_bytes loaded.sum;
          whole = loaded.whole;
        })) (λ e. (e ≡ Damage.Memory)
        ⊎ (pad_read replica present name.now bytes.now ≡ Err e)) }
    ensures cut { IfOk result (λ loaded. loaded.whole + loaded.cut ≡ length bytes.now) }
{
    let loading = Loading::new(alloc, replica, present)?;
    loading.finish(alloc, name, bytes)
}

/// Checks that a pad has this name.
pub fn check_name<S: Sequence>(pad: &Pad<S>, name: &str) -> Result<(), Damage>
    ensures { MatchResult result (λ _. (read : Read)
        → if_called name.now read (name_of pad.now.owned) ≡ Ok read)
        (λ e. (read : Read) → if_called name.now read (name_of pad.now.owned) ≡ Err e) }
{
    match pad.name() {
        None => Err(Damage::Empty),
        Some(own) if own != name => Err(Damage::OtherPad),
        Some(_) => Ok(()),
    }
}

/// Applies what the text of one more line says.
pub fn enter<S: Sequence>(
    alloc: Global,
    pad: &mut Pad<S>,
    name: &str,
    behind: Tail,
    text: &[u8],
    number: u64,
) -> Result<Tail, Damage>
    ensures read { MatchResult result (λ next. text_read number name.now (so_far pad.old behind)
        text.now ≡ Ok (so_far pad.new next))
        (λ e. (e ≡ Damage.Memory) ⊎ (text_read number name.now (so_far pad.old behind) text.now
        ≡ Err e)) }
    ensures within { IfOk result (λ next. next.whole ≡ behind.whole) }
{
    match entry_of(alloc, text, number)? {
        StoreLine::Header(header) => Ok(Tail {
            header: checked(header, name)?,
            sum: behind.sum,
            whole: behind.whole,
        }),
        StoreLine::Record(kept) => {
            replay_record(alloc, pad, kept, number)?;
            Ok(behind)
        }
    }
}

/// The damage of a file that does not begin with a whole line of a pad: its first write was lost, or it was never a
/// pad's.
pub fn damage_of_front(bytes: &[u8]) -> Damage
    ensures { result ≡ unbegun bytes.now }
{
    if bytes.starts_with(BEGINNING) || BEGINNING.starts_with(bytes) || bytes.starts_with(&[0]) {
        Damage::Empty
    } else {
        Damage::Unlinked { line: 1 }
    }
}

// Returns a header, if it is that of the pad with this name.
fn checked(header: Header, name: &str) -> Result<Header, Damage>
    ensures { MatchResult result (λ same. (same ≡ header) × (bytes_eq header.pad name.now ≡ true))
        (λ e. (e ≡ Damage.OtherPad) × (bytes_eq header.pad name.now ≡ false)) }
{
    if header.pad.as_str() == name {
        Ok(header)
    } else {
        Err(Damage::OtherPad)
    }
}

/// Reads the first line, which is a header. None: it is not linked.
pub fn first_line(alloc: Global, name: &str, line: &[u8]) -> Result<Option<Tail>, Damage>
    ensures read { MatchResult result (λ found. MatchOption found (text_behind [] line.now ≡ None)
        (λ first. (replica present : ℕ) (lines : List (List ℕ)) →
        first_read replica present name.now line.now lines
        ≡ Ok (so_far (unnamed replica present) first)))
        (λ e. (e ≡ Damage.Memory) ⊎ ((replica present : ℕ) (lines : List (List ℕ)) →
        first_read replica present name.now line.now lines ≡ Err e)) }
    ensures within { IfOk result (λ found. IfSome found
        (λ first. first.whole ≡ length line.now + 1)) }
{
    let Some((text, sum)) = text_of(alloc, "", line)? else {
        return Ok(None);
    };
    match entry_of(alloc, text, 1)? {
        StoreLine::Header(header) => Ok(Some(Tail {
            header: checked(header, name)?,
            sum,
            whole: line.len() as u64 + 1,
        })),
        StoreLine::Record(_) => Err(Damage::Unknown { line: 1 }),
    }
}

// Reads the text of the line with this number.
fn entry_of(alloc: Global, text: &[u8], number: u64) -> Result<StoreLine, Damage>
    ensures { MatchResult result (λ entry. said_at number (entry_said text.now) ≡ Ok entry)
        (λ e. (e ≡ Damage.Memory) ⊎ (said_at number (entry_said text.now) ≡ Err e)) }
{
    let Some(value) = value_of(alloc, text)? else {
        return Err(Damage::Unknown { line: number });
    };
    match read_entry(alloc, &value) {
        Ok(entry) => Ok(entry),
        Err(Refusal::Memory) => Err(Damage::Memory),
        Err(_) => Err(Damage::Unknown { line: number }),
    }
}

fn replay_record<S: Sequence>(
    alloc: Global,
    pad: &mut Pad<S>,
    kept: Record,
    number: u64,
) -> Result<(), Damage>
    ensures { MatchResult result (λ _. records.replay kept pad.old ≡ (Ok tt, pad.new))
        (λ e. (e ≡ Damage.Memory) ⊎ ((refusal : Refusal) × (e ≡ Damage.Refused number refusal)
        × (records.replay kept pad.old ≡ (Err refusal, pad.new)))) }
{
    match replay(alloc, pad, kept) {
        Ok(()) => Ok(()),
        Err(Refusal::Memory) => Err(Damage::Memory),
        Err(refusal) => Err(Damage::Refused {
            line: number,
            refusal,
        }),
    }
}

impl From<AllocError> for Damage {
    ghost from_gives = { λ _ damage. damage ≡ Memory };

    fn from(_error: AllocError) -> Damage {
        Damage::Memory
    }
}
