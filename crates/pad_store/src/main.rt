//! Verifies the files in which a server keeps pads, and prints their contents. It changes nothing.
#![tactic(auto)]

mod args;
mod beyond;
mod chain;
mod check;
mod diff;
mod export;
mod failure;
mod file_names;
mod files;
mod inspected_pad;
mod log;
mod log_filter;
mod mode;
mod moment;
mod operation;
mod options;
mod other_line;
mod parting;
mod pieces;
mod progress_report;
mod revision_choice;
mod show;
mod trouble;
mod view;

use args::parse;
use beyond::beyond;
use check::check;
use command_line::report;
use diff::diff;
use export::{export, find};
use failure::StoreFailure;
use files::read_file;
use mode::StoreMode;
use revision_choice::RevisionChoice;
use show::show;
use std::alloc::Global;
use std::io;
use std::io::{BufWriter, IsTerminal, Write};
use std::process::ExitCode;
use view::{View, viewed};

fn main(rt: HostRuntime) -> ExitCode {
    let alloc = rt.alloc();
    let words = match words_of(&rt, alloc) {
        Ok(words) => words,
        Err(cause) => return end(&rt, StoreFailure::of_arguments(cause)),
    };
    let asked = match parse(alloc, words.as_slice()) {
        Ok(asked) => asked,
        Err(error) => return report(&rt, "pad_store", &error),
    };
    let mode = match asked.mode() {
        Ok(mode) => mode,
        Err(misuse) => {
            let _told = eprintln!(rt; "pad_store: {misuse}");
            return ExitCode::from(2);
        }
    };
    match run(&rt, alloc, mode) {
        Ok(status) => status,
        Err(failure) => end(&rt, failure),
    }
}

/// The words of the command line.
fn words_of(rt: &HostRuntime, alloc: Global) -> io::Result<Vec<String>> {
    Ok(std::env::args(rt)?.collect(alloc)?)
}

/// Prints why the program ends, unless its output has lost its reader, and returns the exit status.
fn end(rt: &HostRuntime, failure: StoreFailure<'_>) -> ExitCode {
    if failure.is_end() {
        return ExitCode::SUCCESS;
    }
    let _told = eprintln!(rt; "pad_store: {failure}");
    failure.status()
}

/// Does what the command line asks for, and flushes the output.
fn run<'a>(
    rt: &HostRuntime,
    alloc: Global,
    mode: StoreMode<'a>,
) -> Result<ExitCode, StoreFailure<'a>> {
    let mut out = BufWriter::new(alloc, std::io::writer(rt))?;
    let status = perform(rt, mode, &mut out)?;
    out.flush()?;
    Ok(status)
}

/// Does what the command line asks for.
fn perform<'a, W: Write>(
    rt: &HostRuntime,
    mode: StoreMode<'a>,
    out: &mut W,
) -> Result<ExitCode, StoreFailure<'a>> {
    match mode {
        StoreMode::Check { path } => {
            if check(rt, path, out)? {
                Ok(ExitCode::SUCCESS)
            } else {
                Ok(ExitCode::FAILURE)
            }
        }
        StoreMode::Beyond { old, new } => {
            if beyond(rt, old, new, out)? {
                Ok(ExitCode::SUCCESS)
            } else {
                Ok(ExitCode::FAILURE)
            }
        }
        StoreMode::Show { path, .. }
        | StoreMode::Log { path, .. }
        | StoreMode::Diff { path, .. }
        | StoreMode::Export { path, .. }
        | StoreMode::Find { path, .. } => {
            let bytes = read_file(rt, path)?;
            tell(rt, path, bytes.as_slice(), mode, out)?;
            Ok(ExitCode::SUCCESS)
        }
    }
}

/// Writes what the command line asks for about the bytes of a file.
fn tell<'a, W: Write>(
    rt: &HostRuntime,
    path: &'a str,
    bytes: &[u8],
    mode: StoreMode<'_>,
    out: &mut W,
) -> Result<(), StoreFailure<'a>> {
    let alloc = rt.alloc();
    let text = match mode {
        StoreMode::Show { rev, view, .. } => shown(alloc, bytes, rev, view),
        StoreMode::Diff { rev, to, .. } => {
            match diff(alloc, bytes, rev, to, rt.stdout().is_terminal()) {
                Ok(Some(text)) => Ok(text),
                Ok(None) => return Err(StoreFailure::Backwards),
                Err(trouble) => Err(trouble),
            }
        }
        StoreMode::Log { filter, .. } => return log::log(rt, path, bytes, filter, out),
        StoreMode::Export { rev, .. } => return export(rt, path, bytes, rev, out),
        StoreMode::Find { sum, .. } => return find(alloc, path, bytes, sum, out),
        StoreMode::Check { .. } | StoreMode::Beyond { .. } => return Ok(()),
    };
    match text {
        Ok(text) => Ok(out.write_all(text.as_bytes())?),
        Err(trouble) => Err(StoreFailure::of_pad(path, trouble)),
    }
}

/// The revision that is asked for, as a view shows it.
fn shown(
    alloc: Global,
    bytes: &[u8],
    asked: RevisionChoice,
    view: View,
) -> Result<String, trouble::Trouble> {
    if view.is_plain() {
        show(alloc, bytes, asked)
    } else {
        viewed(alloc, bytes, asked, view)
    }
}
