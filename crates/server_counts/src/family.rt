//! The families of samples.
ghost use Rattle.std.specs.Prelude.{◌≡◌, Some};
ghost use Rattle.server_counts.specs.Families.{help_of, kind_of, kind_text, name_of};

use std::fmt;
use std::fmt::{Display, Formatter};

/// The kind of the samples of a family.
#[derive(Clone, Copy)]
pub enum FamilyKind {
    /// It only grows, until the server ends.
    Counter,
    /// It may grow and shrink.
    Gauge,
    /// Times in buckets.
    Histogram,
}

impl Display for FamilyKind {
    ghost output = { λ kind. Some (kind_text kind) };

    fn fmt<W: fmt::Write>(&self, f: &mut Formatter<W>) -> fmt::Result {
        f.write_str(match self {
            FamilyKind::Counter => "counter",
            FamilyKind::Gauge => "gauge",
            FamilyKind::Histogram => "histogram",
        })
    }
}

/// A family of samples.
#[derive(Clone, Copy)]
pub enum Family {
    Build,
    Uptime,
    Resident,
    Clients,
    Visits,
    PageRequests,
    PageConnections,
    Pads,
    Requests,
    Operations,
    Refusals,
    Notes,
    Synced,
    Syncs,
    Machines,
    Confirms,
    Confirmed,
    LagNotes,
    LagBytes,
    LagSeconds,
    Silence,
}

impl Family {
    /// Its name, without `vindrughe_`.
    pub fn name(self) -> &'static str
        ensures { result.now ≡ name_of self }
    {
        match self {
            Family::Build => "build_info",
            Family::Uptime => "uptime_seconds",
            Family::Resident => "resident_memory_bytes",
            Family::Clients => "clients",
            Family::Visits => "visits",
            Family::PageRequests => "page_requests",
            Family::PageConnections => "page_connections_total",
            Family::Pads => "pads",
            Family::Requests => "requests_total",
            Family::Operations => "operations_total",
            Family::Refusals => "refusals_total",
            Family::Notes => "notes_total",
            Family::Synced => "notes_synced_total",
            Family::Syncs => "sync_seconds",
            Family::Machines => "machines",
            Family::Confirms => "confirms",
            Family::Confirmed => "notes_confirmed_total",
            Family::LagNotes => "standby_lag_notes",
            Family::LagBytes => "standby_lag_bytes",
            Family::LagSeconds => "standby_lag_seconds",
            Family::Silence => "standby_silence_seconds",
        }
    }

    /// Returns its help text: one line without a backslash.
    pub fn help(self) -> &'static str
        ensures { result.now ≡ help_of self }
    {
        match self {
            Family::Build => "The build of the program; always 1.",
            Family::Uptime => "Seconds since the server began to serve.",
            Family::Resident => "Memory of the process that is in RAM.",
            Family::Clients =>
                "Clients that are connected: those that speak lines, and sockets of browsers.",
            Family::Visits => "Visits of clients: each is one client's presence on one pad.",
            Family::PageRequests => "Requests of browsers that are read or answered now.",
            Family::PageConnections =>
                "Connections at the address of the page; each has one request.",
            Family::Pads => "Pads of the server.",
            Family::Requests => "Lines that were answered, refusals too.",
            Family::Operations =>
                "Operations that were delivered on pads: edits and comments, of authors and of peers.",
            Family::Refusals =>
                "Lines that were refused, by the number of the refusal; 201 is a wrong token.",
            Family::Notes =>
                "Notes of what is to be kept: one for each answer that leaves something.",
            Family::Synced => "Notes that are synced to the disk.",
            Family::Syncs => "Syncs of the files of pads, by how long they took.",
            Family::Machines => "On how many machines what is answered now is kept.",
            Family::Confirms =>
                "1 while replies wait until the standby has what they reveal, otherwise 0.",
            Family::Confirmed => "Notes that the standby has synced.",
            Family::LagNotes =>
                "Notes that are synced here and that the standby is not known to have.",
            Family::LagBytes =>
                "Bytes of files that are synced here and that the standby is not known to have.",
            Family::LagSeconds =>
                "Seconds since the standby last had everything, or 0 if it has everything.",
            Family::Silence => "Seconds since the standby last answered; it is asked each second.",
        }
    }

    /// Returns the kind of its samples.
    pub fn kind(self) -> FamilyKind
        ensures { result ≡ kind_of self }
    {
        match self {
            Family::PageConnections
            | Family::Requests
            | Family::Operations
            | Family::Refusals
            | Family::Notes
            | Family::Synced
            | Family::Confirmed => FamilyKind::Counter,
            Family::Syncs => FamilyKind::Histogram,
            _ => FamilyKind::Gauge,
        }
    }
}
