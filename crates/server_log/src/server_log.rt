//! The log: lines on standard error, each with the time in UTC.
ghost use Rattle.std.specs.Prelude.{Some, []};
ghost use Rattle.log.specs.Level.{allows};
ghost use Rattle.log.specs.declared.level.LevelFilter.TheVariants.{Info};

use jiff::Timestamp;
use log::kv::Source;
use log::span::Spans;
use log::{Level, LevelFilter, Log, Metadata, Record};
use std::fmt;
use std::fmt::{Display, Formatter};
use std::time::Clock;

/// Writes each record to the standard error of a runtime, as `2026-11-25T17:16:03Z pad_server: warning: the text`. A line
/// that cannot be written is lost.
#[derive(Drop)]
pub struct ServerLog<'a, R>(pub &'a R);

impl<R: Clock + Eprint> Log for ServerLog<'_, R> {
    ghost enables = { λ _ level _. Some (allows Info level) };

    ghost target_of = { λ _. Some [] };

    fn enabled(&self, metadata: &Metadata<'_>) -> bool {
        LevelFilter::Info.allows(metadata.level())
    }

    fn log<D: Display, K: Source, S: Spans>(&self, record: &Record<'_, D, K, S>) {
        if LevelFilter::Info.allows(record.level()) {
            let _lost = self.0.eprintln(Message {
                at: now(self.0),
                record,
            });
        }
    }

    fn flush(&self) {}

    fn target(&self) -> &str {
        ""
    }
}

// The present time, in whole seconds; None if the clock fails.
fn now<R: Clock>(clock: &R) -> Option<Timestamp> {
    let now = Timestamp::now(clock).ok()?;
    Timestamp::from_second(now.as_second()).ok()
}

// A record as a line of the log.
#[derive(Drop)]
struct Message<'a, 'r, D, K, S> {
    at: Option<Timestamp>,
    record: &'a Record<'r, D, K, S>,
}

impl<D: Display, K, S> Display for Message<'_, '_, D, K, S> {
    fn fmt<W: fmt::Write>(&self, f: &mut Formatter<W>) -> fmt::Result {
        if let Some(at) = self.at {
            write!(f, "{at} ")?;
        }
        let level = word(self.record.level());
        write!(f, "pad_server: {level}: {}", self.record.args())
    }
}

// The word for a level.
fn word(level: Level) -> &'static str {
    match level {
        Level::Error => "error",
        Level::Warn => "warning",
        Level::Info | Level::Debug | Level::Trace => "note",
    }
}
