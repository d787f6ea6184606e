//! The text of `/kept`.
ghost use Rattle.std.specs.Prelude.{◌≡◌, IfOk, string_bytes};
ghost use Rattle.server_counts.specs.Kept.{kept_text, whole_text, word_of};

use std::alloc::{AllocError, Global};

/// The reported state of a standby.
#[derive(Clone, Copy)]
pub struct KeptStandby<'a> {
    /// The value of `--confirm`, or `never`.
    pub confirm: &'a str,
    /// True if it has everything that is synced here.
    pub has_all: bool,
    /// The number of notes it lacks, as far as is known.
    pub lag: u64,
}

/// Writes the number of machines that keep what is answered now, and the state of the standby: one line of JSON, with
/// keys in byte order.
pub fn kept_text(
    alloc: Global,
    machines: u32,
    standby: Option<KeptStandby<'_>>,
) -> Result<String, AllocError>
    ensures { IfOk result (λ text. string_bytes text ≡ kept_text machines standby.entry) }
{
    match standby {
        None => format!(in alloc; "{{\"machines\":{machines}}}\n"),
        Some(standby) => with_standby(alloc, machines, standby),
    }
}

// The same with a standby.
fn with_standby(
    alloc: Global,
    machines: u32,
    standby: KeptStandby<'_>,
) -> Result<String, AllocError>
    ensures { IfOk result (λ text. string_bytes text ≡ whole_text machines standby.entry) }
{
    let (confirm, lag) = (standby.confirm, standby.lag);
    let word = word_of(standby.has_all);
    format!(in alloc;
        "{{\"caught_up\":{word},\"confirm\":\"{confirm}\",\"lag\":{lag},\"machines\":{machines}}}\n"
    )
}

// A truth value in JSON.
fn word_of(value: bool) -> &'static str
    ensures { result.now ≡ word_of value }
{
    if value { "true" } else { "false" }
}
