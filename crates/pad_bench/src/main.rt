//! Does the work of benchmarks and prints its counts, never a time: `bench/run` at the top takes those.
//!
//! A line of its input names the work, its size, and the number of times that the timed part is done. Plain Rust in
//! `bench/twin` does the same work and prints the same.
#![tactic(auto)]

mod index;
mod pull;
mod tree;
mod typing;
mod wire;

use pad_model::Refusal;
use std::alloc::Global;
use std::io;
use std::process::ExitCode;
use typing::Trace;

// The seed of each work's dice; the twin has the same.
const SEED: u64 = 2026;

// The trace that a work is named for.
fn trace(work: &str) -> Option<Trace> {
    Some(match work {
        "append" => Trace::Append,
        "forward" => Trace::Forward,
        "backward" => Trace::Backward,
        "random" => Trace::Random,
        "stale1" => Trace::Stale(1),
        "stale4" => Trace::Stale(4),
        "stale64" => Trace::Stale(64),
        "stale1000" => Trace::Stale(1_000),
        _ => return None,
    })
}

// The counts of the work that a line names, or none where there is no such work.
fn counts(alloc: Global, line: &str) -> Result<Option<String>, Refusal> {
    let words: Vec<&str> = line.split_whitespace().collect(alloc)?;
    let [work, size, times] = words.as_slice() else {
        return Ok(None);
    };
    let (Ok(size), Ok(times)) = (size.parse::<u32>(), times.parse::<u32>()) else {
        return Ok(None);
    };
    if let Some(trace) = trace(work) {
        return Ok(Some(typing::edits(alloc, trace, size, times)?));
    }
    if let Some(trace) = work.strip_prefix("plain-").and_then(trace) {
        return Ok(Some(typing::plain_edits(alloc, trace, size, times)?));
    }
    let counts = match *work {
        "insert" => tree::insert(alloc, size, times),
        "iterate" => tree::iterate(alloc, size, times),
        "locate" => index::locate(alloc, size, times),
        "pull" => pull::pull(alloc, size, times),
        "wire" => wire::wire(alloc, size, times),
        "json" => wire::json(alloc, size, times),
        _ => return Ok(None),
    };
    Ok(Some(counts?))
}

fn main(rt: HostRuntime) -> io::Result<ExitCode> {
    for line in rt.lines(rt.alloc()) {
        let line = line?;
        match counts(rt.alloc(), line.as_str()) {
            Ok(Some(counts)) => println!(rt; "{line}: {counts}")?,
            Ok(None) => {
                eprintln!(rt; "pad_bench: no such work: {line}")?;
                return Ok(ExitCode::from(2));
            }
            Err(refusal) => {
                eprintln!(rt; "pad_bench: {} {}", refusal.code(), refusal.name())?;
                return Ok(ExitCode::FAILURE);
            }
        }
    }
    Ok(ExitCode::SUCCESS)
}
