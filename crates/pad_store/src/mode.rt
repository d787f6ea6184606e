//! The command that the program runs, by its command line.
ghost use Rattle.std.specs.Prelude.{◌≡◌};
ghost use Rattle.pad_store.specs.Modes.{compare, compare_stores, done_with, export_or_find, has_revision, list, misuse_of, mode_of, needless, show, with_deed};
ghost use Rattle.pad_store.specs.Modes as modes;

use crate::args::StoreArguments;
use crate::log_filter::LogFilter;
use crate::moment::moment_of;
use crate::revision_choice::RevisionChoice;
use crate::view::View;
use thiserror::Error;

/// A command of the program.
#[derive(Clone, Copy)]
pub enum Deed {
    Check,
    Show,
    Log,
    Diff,
    Export,
    Beyond,
}

/// A command with its arguments.
#[derive(Clone, Copy)]
pub enum StoreMode<'a> {
    /// Verifies a file, or each file of a folder.
    Check {
        path: &'a str,
    },
    /// Prints a revision.
    Show {
        path: &'a str,
        rev: RevisionChoice,
        view: View,
    },
    /// Prints who did what and when, of the operations that are listed.
    Log {
        path: &'a str,
        filter: LogFilter<'a>,
    },
    /// Prints the difference between two revisions.
    Diff {
        path: &'a str,
        rev: RevisionChoice,
        to: RevisionChoice,
    },
    /// Prints the operations, up to a revision.
    Export {
        path: &'a str,
        rev: RevisionChoice,
    },
    /// Prints the number of the line with a sum, if there is one.
    Find {
        path: &'a str,
        sum: &'a str,
    },
    /// Prints the lines that an older store, or a file of one, has beyond a newer one.
    Beyond {
        old: &'a str,
        new: &'a str,
    },
}

/// An error in a command line that clap accepts.
#[derive(Clone, Copy, Debug, Error)]
pub enum StoreMisuse {
    #[error("the command is check, show, log, diff, export or beyond")]
    NoCommand,
    #[error("diff needs two revisions: numbers, or moments as 2026-12-09 or '2026-12-09 20:00'")]
    NoRevisions,
    #[error("only diff takes two more words, and only beyond takes one")]
    Words,
    #[error("beyond needs two stores, or two files")]
    NoStores,
    #[error("--rev <N> is for show and export")]
    Rev,
    #[error("--at <MOMENT> is for show and export")]
    At,
    #[error("--from <N> is for log")]
    From,
    #[error("--by <AUTHOR>, --since <MOMENT> and --until <MOMENT> are for log")]
    Filter,
    #[error("--sum <SUM> is for export, without --rev <N> and --at <MOMENT>")]
    Sum,
    #[error("--authors, --comments and --markdown are for show")]
    View,
    #[error("--rev <N> and --at <MOMENT> each name a revision: give only one of them")]
    Both,
    #[error("a moment is a date from 1970 on, as 2026-12-09, '2026-12-09 20:00' or 2026-12-09T20:00:00+01:00")]
    Moment,
}

impl<'a> StoreArguments<'a> {
    /// The command with its arguments. Each option has to belong to the command.
    pub fn mode(self) -> Result<StoreMode<'a>, StoreMisuse>
        ensures { result ≡ mode_of self.entry }
    {
        match (self.command, self.path) {
            (Some(command), Some(path)) => self.mode_with(path, deed_of(command)),
            _ => Err(StoreMisuse::NoCommand),
        }
    }

    // A command of the program.
    fn mode_with(self, path: &'a str, deed: Option<Deed>) -> Result<StoreMode<'a>, StoreMisuse>
        ensures { result ≡ with_deed self.entry path.entry deed }
    {
        let Some(deed) = deed else {
            return Err(StoreMisuse::NoCommand);
        };
        match self.misuse(deed) {
            Some(misuse) => Err(misuse),
            None => self.done(path, deed),
        }
    }

    // The mode of a command with its options.
    fn done(self, path: &'a str, deed: Deed) -> Result<StoreMode<'a>, StoreMisuse>
        ensures { result ≡ done_with self.entry path.entry deed }
    {
        match deed {
            Deed::Check => Ok(StoreMode::Check { path }),
            Deed::Show => self.shown(path),
            Deed::Log => self.listed(path),
            Deed::Diff => self.compared(path),
            Deed::Export => self.exported(path),
            Deed::Beyond => both_stores(path, self.other),
        }
    }

    // The revision that is shown, and how.
    fn shown(self, path: &'a str) -> Result<StoreMode<'a>, StoreMisuse>
        ensures { result ≡ show self.entry path.entry }
    {
        let view = View {
            authors: self.authors,
            comments: self.comments,
            markdown: self.markdown,
        };
        match chosen(self.rev, self.at) {
            Ok(rev) => Ok(StoreMode::Show { path, rev, view }),
            Err(misuse) => Err(misuse),
        }
    }

    // The operations that are listed.
    fn listed(self, path: &'a str) -> Result<StoreMode<'a>, StoreMisuse>
        ensures { result ≡ list self.entry path.entry }
    {
        match (moment_if_any(self.since), moment_if_any(self.until)) {
            (Ok(since), Ok(until)) => {
                let filter = LogFilter {
                    from: self.from,
                    by: self.by,
                    since,
                    until,
                };
                Ok(StoreMode::Log { path, filter })
            }
            _ => Err(StoreMisuse::Moment),
        }
    }

    // A comparison, which needs two revisions.
    fn compared(self, path: &'a str) -> Result<StoreMode<'a>, StoreMisuse>
        ensures { result ≡ compare self.entry path.entry }
    {
        match (named(self.first, self.other), named(self.second, self.last)) {
            (Some(rev), Some(to)) => Ok(StoreMode::Diff { path, rev, to }),
            _ => Err(StoreMisuse::NoRevisions),
        }
    }

    // An export of the operations, or a search for a sum if one is given.
    fn exported(self, path: &'a str) -> Result<StoreMode<'a>, StoreMisuse>
        ensures { result ≡ export_or_find self.entry path.entry }
    {
        if let Some(sum) = self.sum {
            return Ok(StoreMode::Find { path, sum });
        }
        match chosen(self.rev, self.at) {
            Ok(rev) => Ok(StoreMode::Export { path, rev }),
            Err(misuse) => Err(misuse),
        }
    }

    // The error in the options of a command, if any.
    fn misuse(self, deed: Deed) -> Option<StoreMisuse>
        ensures { result ≡ misuse_of deed self.entry }
    {
        match deed {
            Deed::Check => self.needless(true, true, true, true, true),
            Deed::Show => self.needless(false, true, true, false, true),
            Deed::Log => self.needless(true, false, true, true, true),
            Deed::Diff => self.needless(true, true, true, true, false),
            Deed::Export => self.needless(false, true, self.has_revision(), true, true),
            Deed::Beyond => self.needless(true, true, true, true, self.last.is_some()),
        }
    }

    // Returns true if a revision is given, by its number or by a moment.
    fn has_revision(self) -> bool
        ensures { result ≡ has_revision self.entry }
    {
        self.rev.is_some() || self.at.is_some()
    }

    // The first option that is given although the command has none.
    fn needless(
        self,
        no_rev: bool,
        no_log: bool,
        no_sum: bool,
        no_view: bool,
        no_words: bool,
    ) -> Option<StoreMisuse>
        ensures { result ≡ needless no_rev no_log no_sum no_view no_words self.entry }
    {
        if no_rev && self.rev.is_some() {
            Some(StoreMisuse::Rev)
        } else if no_rev && self.at.is_some() {
            Some(StoreMisuse::At)
        } else if no_log && self.from.is_some() {
            Some(StoreMisuse::From)
        } else if no_log && (self.by.is_some() || self.since.is_some() || self.until.is_some()) {
            Some(StoreMisuse::Filter)
        } else if no_sum && self.sum.is_some() {
            Some(StoreMisuse::Sum)
        } else if no_view && (self.authors || self.comments || self.markdown) {
            Some(StoreMisuse::View)
        } else if no_words && (self.other.is_some() || self.last.is_some()) {
            Some(StoreMisuse::Words)
        } else {
            None
        }
    }
}

// The revision of a number or of a moment; without both it is the present one.
fn chosen(rev: Option<u32>, at: Option<&str>) -> Result<RevisionChoice, StoreMisuse>
    ensures { result ≡ modes.chosen rev at.entry }
{
    match (rev, at) {
        (None, None) => Ok(RevisionChoice::Present),
        (Some(rev), None) => Ok(RevisionChoice::Number(rev)),
        (None, Some(at)) => match moment_of(at) {
            Some(moment) => Ok(RevisionChoice::At(moment)),
            None => Err(StoreMisuse::Moment),
        },
        (Some(_), Some(_)) => Err(StoreMisuse::Both),
    }
}

// The moment of a text, if there is a text.
fn moment_if_any(text: Option<&str>) -> Result<Option<u64>, StoreMisuse>
    ensures { result ≡ modes.moment_if_any text.entry }
{
    match text {
        Some(text) => match moment_of(text) {
            Some(moment) => Ok(Some(moment)),
            None => Err(StoreMisuse::Moment),
        },
        None => Ok(None),
    }
}

// The revision that a word names, by its number if it is one, and otherwise by a moment.
fn named(number: Option<u32>, word: Option<&str>) -> Option<RevisionChoice>
    ensures { result ≡ modes.named number word.entry }
{
    match (number, word) {
        (Some(rev), _) => Some(RevisionChoice::Number(rev)),
        (None, Some(word)) => match moment_of(word) {
            Some(moment) => Some(RevisionChoice::At(moment)),
            None => None,
        },
        (None, None) => None,
    }
}

// A comparison of two stores, which needs both.
fn both_stores<'a>(old: &'a str, new: Option<&'a str>) -> Result<StoreMode<'a>, StoreMisuse>
    ensures { result ≡ compare_stores old.entry new.entry }
{
    match new {
        Some(new) => Ok(StoreMode::Beyond { old, new }),
        None => Err(StoreMisuse::NoStores),
    }
}

// The command with this name.
fn deed_of(command: &str) -> Option<Deed>
    ensures { result ≡ modes.deed_of command.now }
{
    match command {
        "check" => Some(Deed::Check),
        "show" => Some(Deed::Show),
        "log" => Some(Deed::Log),
        "diff" => Some(Deed::Diff),
        "export" => Some(Deed::Export),
        "beyond" => Some(Deed::Beyond),
        _ => None,
    }
}
