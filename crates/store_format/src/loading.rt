//! Loads a pad from its file piece by piece.
ghost use Rattle.std.specs.Prelude.{◌≡◌, ◌⊎◌, ◌≤◌, ◌<◌, ◌+◌, ◌-◌, ℕ, List, [], ◌++◌, length, take, drop, string_bytes, IfOk, MatchResult, Result, Ok, Err};
ghost use Rattle.store_records.specs.Records.{unnamed};
ghost use Rattle.store_format.specs.Files.{Read, if_named, pad_read, so_far, unbegun};
ghost use Rattle.store_format.specs.Lines.{whole_lines};
ghost use Rattle.store_format.specs.declared.reader.Damage.{Damage};
ghost use Rattle.store_format.specs.Pieces.{AreDamaged, AreLines, IsBegun, IsFresh, IsWithin, LeadOn, bytes_from, rest_read, unless_begun};

use crate::batch::has_beginning;
use crate::line::{find_feed, text_of};
use crate::reader::{Damage, Loaded, Tail, check_name, damage_of_front, enter, first_line};
use pad_core::Pad;
use pad_model::Sequence;
use std::alloc::Global;
use std::marker::Model;

/// A pad that is loaded while its file is read piece by piece. `take` reads the whole lines of a piece, and `finish` ends
/// with the bytes that are left. The result is that of `load` for all bytes together, wherever the pieces are cut.
#[derive(Drop)]
pub struct Loading<S: Sequence> {
    pad: Pad<S>,
    stage: LoadStage,
    /// The number of bytes that were taken.
    taken: u64,
}

impl<S: Sequence> Model for Loading<S> {
    ghost use Rattle.store_format.specs.Pieces.{IsFresh, IsWithin, Progress};

    ghost Value = { Progress };

    ghost view = { λ l. record {
      taken = l.taken;
      pad = l.pad;
      stage = l.stage;
    } };

    ghost invariant = { λ l. IsFresh l.pad l.stage × IsWithin l.taken l.stage };
}

// The progress in reading the lines of a file.
#[derive(Drop)]
enum LoadStage {
    /// No line was read.
    Start,
    /// All lines so far are linked; `number` counts them.
    Linked { tail: Tail, number: u64 },
    /// The line with this number is the first that is not linked, and no line from there on begins a batch so far. `tail` is
    /// that of the lines before it.
    Torn { tail: Tail, number: u64 },
    /// The first line is not linked. This is the damage, unless a line begins a batch; none does so far.
    Unbegun { damage: Damage },
}

impl<S: Sequence> Loading<S> {
    /// Starts to load a pad for the server with this replica number, with `present` as the limit of visits.
    pub fn new(alloc: Global, replica: u16, present: u64) -> Result<Loading<S>, Damage>
        requires { 1 ≤ replica }
        ensures read { MatchResult result (λ loading. (name bytes : List ℕ) →
            rest_read name loading bytes ≡ pad_read replica present name bytes)
            (λ e. e ≡ Damage.Memory) }
        ensures taken { IfOk result (λ loading. loading.taken ≡ 0) }
    {
        match Pad::new(alloc, replica, present) {
            Ok(pad) => Ok(Loading {
                pad,
                stage: LoadStage::Start,
                taken: 0,
            }),
            Err(_) => Err(Damage::Memory),
        }
    }

    /// The number of bytes that were taken.
    pub fn taken(&self) -> u64
        ensures { result ≡ self.now.taken }
    {
        self.taken
    }

    /// Reads the whole lines of the next bytes of the file, and returns the number of bytes they have: the next call
    /// begins with the bytes after them. An error is returned as soon as no later line can change it.
    pub fn take(
        self,
        alloc: Global,
        name: &str,
        bytes: &[u8],
    ) -> Result<(Loading<S>, usize), Damage>
        requires room { self.taken + length bytes.now ≤ 18446744073709551615 }
        ensures read { MatchResult result (λ done. (later : List ℕ) →
            rest_read name.now self (bytes.now ++ later)
            ≡ rest_read name.now done.0 (drop done.1 bytes.now ++ later))
            (λ e. (e ≡ Damage.Memory) ⊎ ((later : List ℕ) →
            rest_read name.now self (bytes.now ++ later) ≡ Err e)) }
        ensures taken { IfOk result (λ done. done.0.taken ≡ self.taken + done.1) }
        ensures within { IfOk result (λ done. done.1 ≤ length bytes.now) }
        ensures all { IfOk result (λ done. whole_lines (drop done.1 bytes.now) ≡ []) }
    {
        let end = whole_length(bytes);
        if end == 0 {
            return Ok((self, 0));
        }
        let taken = self.taken + end as u64;
        let mut pad = self.pad;
        let stage = read_piece(alloc, &mut pad, name, self.stage, &bytes[..end])?;
        Ok((Loading { pad, stage, taken }, end))
    }

    /// Reads the last bytes of the file. What a crash left at the end of the file is ignored.
    pub fn finish(self, alloc: Global, name: &str, bytes: &[u8]) -> Result<Loaded<S>, Damage>
        requires room { self.taken + length bytes.now ≤ 18446744073709551615 }
        ensures read { MatchResult result (λ loaded. rest_read name.now self bytes.now
            ≡ Ok (record {
              pad = loaded.pad;
              header = loaded.header;
              sum = string_bytes loaded.sum;
              whole = loaded.whole;
            })) (λ e. (e ≡ Damage.Memory)
            ⊎ (rest_read name.now self bytes.now ≡ Err e)) }
        ensures cut { IfOk result (λ loaded. loaded.whole + loaded.cut
            ≡ self.taken + length bytes.now) }
    {
        let all = self.taken + bytes.len() as u64;
        let (last, end) = self.take(alloc, name, bytes)?;
        last.end(name, &bytes[end..], all)
    }

    // The result for a file of `all` bytes that ends with these, which have no line feed.
    fn end(self, name: &str, bytes: &[u8], all: u64) -> Result<Loaded<S>, Damage>
        requires unfed { whole_lines bytes.now ≡ [] }
        requires within { self.taken ≤ all }
        ensures read { MatchResult result (λ loaded. rest_read name.now self bytes.now
            ≡ Ok (record {
              pad = loaded.pad;
              header = loaded.header;
              sum = string_bytes loaded.sum;
              whole = loaded.whole;
            })) (λ e. rest_read name.now self bytes.now ≡ Err e) }
        ensures cut { IfOk result (λ loaded. loaded.whole + loaded.cut ≡ all) }
    {
        let pad = self.pad;
        match self.stage {
            LoadStage::Start => Err(damage_of_front(bytes)),
            LoadStage::Linked { tail, .. } => loaded_with(pad, name, tail, all),
            LoadStage::Torn { tail, .. } => loaded_with(pad, name, tail, all),
            LoadStage::Unbegun { damage } => Err(damage),
        }
    }
}

// The pad of a file of `all` bytes, if it has this name.
fn loaded_with<S: Sequence>(
    pad: Pad<S>,
    name: &str,
    tail: Tail,
    all: u64,
) -> Result<Loaded<S>, Damage>
    requires { tail.whole ≤ all }
    ensures read { MatchResult result (λ loaded. if_named name.now (so_far pad tail)
        ≡ Ok (record {
          pad = loaded.pad;
          header = loaded.header;
          sum = string_bytes loaded.sum;
          whole = loaded.whole;
        })) (λ e. if_named name.now (so_far pad tail) ≡ Err e) }
    ensures cut { IfOk result (λ loaded. loaded.whole + loaded.cut ≡ all) }
{
    match check_name(&pad, name) {
        Ok(()) => Ok(loaded_to(pad, tail, all)),
        Err(damage) => Err(damage),
    }
}

// The pad of a file of `all` bytes, whose whole lines end so.
fn loaded_to<S: Sequence>(pad: Pad<S>, tail: Tail, all: u64) -> Loaded<S>
    requires { tail.whole ≤ all }
    ensures read { result ≡ record {
      pad = pad;
      header = tail.header;
      sum = tail.sum;
      whole = tail.whole;
      cut = all - tail.whole;
    } }
{
    let Tail { header, sum, whole } = tail;
    Loaded {
        pad,
        header,
        sum,
        whole,
        cut: all - whole,
    }
}

// Reads whole lines, at least one.
fn read_piece<S: Sequence>(
    alloc: Global,
    pad: &mut Pad<S>,
    name: &str,
    stage: LoadStage,
    lines: &[u8],
) -> Result<LoadStage, Damage>
    requires some { whole_lines lines.now ≡ [] → ⊥ }
    requires fresh { IsFresh pad.old stage }
    requires room { IsWithin (18446744073709551615 - length lines.now) stage }
    ensures read { MatchResult result (λ next. LeadOn name.now pad.old stage (whole_lines lines.now)
        pad.new next)
        (λ e. AreDamaged name.now pad.old stage (whole_lines lines.now) e) }
    ensures begun { IfOk result (λ next. IsBegun next) }
    ensures within { IfOk result (λ next. (most : ℕ) → length lines.now ≤ most →
        IsWithin (most - length lines.now) stage → IsWithin most next) }
{
    match stage {
        LoadStage::Start => begin(alloc, pad, name, lines),
        LoadStage::Linked { tail, number } => replay_lines(alloc, pad, name, tail, number, lines),
        LoadStage::Torn { tail, number } => {
            check_torn(alloc, lines, number)?;
            Ok(LoadStage::Torn { tail, number })
        }
        LoadStage::Unbegun { damage } => {
            check_torn(alloc, lines, 1)?;
            Ok(LoadStage::Unbegun { damage })
        }
    }
}

// Reads the first lines of a file, at least one.
fn begin<S: Sequence>(
    alloc: Global,
    pad: &mut Pad<S>,
    name: &str,
    bytes: &[u8],
) -> Result<LoadStage, Damage>
    requires some { whole_lines bytes.now ≡ [] → ⊥ }
    requires fresh { IsFresh pad.old LoadStage.Start }
    ensures read { MatchResult result (λ next. LeadOn name.now pad.old LoadStage.Start
        (whole_lines bytes.now) pad.new next)
        (λ e. AreDamaged name.now pad.old LoadStage.Start (whole_lines bytes.now) e) }
    ensures begun { IfOk result (λ next. IsBegun next) }
    ensures within { IfOk result (λ next. IsWithin (length bytes.now) next) }
{
    let Some(end) = find_feed(bytes) else {
        return Ok(LoadStage::Start);
    };
    let line = &bytes[..end];
    let Some(first) = first_line(alloc, name, line)? else {
        check_torn(alloc, bytes, 1)?;
        return Ok(LoadStage::Unbegun {
            damage: damage_of_front(line),
        });
    };
    replay_lines(alloc, pad, name, first, 1, &bytes[end + 1..])
}

// Replays lines, up to the first that is not linked. `before` lines of the file come before them.
fn replay_lines<S: Sequence>(
    alloc: Global,
    pad: &mut Pad<S>,
    name: &str,
    first: Tail,
    before: u64,
    bytes: &[u8],
) -> Result<LoadStage, Damage>
    requires room { IsWithin (18446744073709551615 - length bytes.now) (LoadStage.Linked first before) }
    ensures read { MatchResult result (λ next. LeadOn name.now pad.old (LoadStage.Linked first before)
        (whole_lines bytes.now) pad.new next)
        (λ e. AreDamaged name.now pad.old (LoadStage.Linked first before) (whole_lines bytes.now) e) }
    ensures begun { IfOk result (λ next. IsBegun next) }
    ensures within { IfOk result (λ next. (most : ℕ) → length bytes.now ≤ most →
        IsWithin (most - length bytes.now) (LoadStage.Linked first before) → IsWithin most next) }
{
    let mut last = first;
    let mut rest = bytes;
    let mut number = before;
    while let Some(end) = find_feed(rest) {
        let Some((text, sum)) = text_of(alloc, last.sum.as_str(), &rest[..end])? else {
            let torn = number + 1;
            check_torn(alloc, rest, torn)?;
            return Ok(LoadStage::Torn {
                tail: last,
                number: torn,
            });
        };
        number += 1;
        let behind = Tail {
            header: last.header,
            sum,
            whole: last.whole + end as u64 + 1,
        };
        last = enter(alloc, pad, name, behind, text, number)?;
        rest = &rest[end + 1..];
    }
    Ok(LoadStage::Linked { tail: last, number })
}

// Checks that no line begins a batch: then the lines are what a crash left of lines that were never synced. The line with
// this number is the first that is not linked.
fn check_torn(alloc: Global, bytes: &[u8], number: u64) -> Result<(), Damage>
    ensures { MatchResult result (λ _. (found : Result Read Damage) (later : List (List ℕ)) →
        unless_begun number found (whole_lines bytes.now ++ later)
        ≡ unless_begun number found later) (λ e. (e ≡ Damage.Memory)
        ⊎ ((found : Result Read Damage) (later : List (List ℕ)) →
        unless_begun number found (whole_lines bytes.now ++ later) ≡ Err e)) }
{
    if has_beginning(alloc, bytes)? {
        Err(Damage::Unlinked { line: number })
    } else {
        Ok(())
    }
}

// The number of bytes up to the last line feed, including it; 0 without one.
fn whole_length(bytes: &[u8]) -> usize
    ensures within { result ≤ length bytes.now }
    ensures lines { AreLines (take result bytes.now) }
    ensures rest { whole_lines (drop result bytes.now) ≡ [] }
{
    let mut end = bytes.len();
    while end > 0 {
        if bytes[end - 1] == b'\n' {
            return end;
        }
        end -= 1;
    }
    0
}
