//! The text of `/metrics`.
ghost use Rattle.std.specs.Prelude.{◌≡◌, ◌++◌, OnOk, IfOk, string_bytes};
ghost use Rattle.server_counts.specs.Metrics.{answered_text, clients_text, confirms_text, connected_text, done_text, lag_text, notes_text, metrics_text, process_text, refused_text, standby_text, standbys_text, store_text, stores_text, resident_text};

use crate::family::Family;
use crate::histogram::TimeCounts;
use crate::refusals::CodeCount;
use crate::samples::{put_build, put_codes, put_one, put_times};
use std::alloc::{AllocError, Global};

/// The build of the program.
#[derive(Clone, Copy)]
pub struct Build<'a> {
    /// Its version, such as `0.1.0`.
    pub version: &'a str,
    /// `yes` or `no`.
    pub proved: &'a str,
}

/// Numbers of the clients, and of their requests.
#[derive(Drop)]
pub struct ClientNumbers {
    /// Connected now.
    pub clients: u64,
    /// Visits that these have.
    pub visits: u64,
    /// Read or answered now.
    pub page_requests: u64,
    /// Connections that browsers opened, since the start.
    pub page_connections: u64,
    pub pads: u64,
    /// Lines answered since the start.
    pub requests: u64,
    /// Operations delivered since the start.
    pub operations: u64,
    /// Refusals since the start.
    pub refusals: Vec<CodeCount>,
}

/// Numbers of a store, since the start.
#[derive(Drop)]
pub struct StoreNumbers {
    pub notes: u64,
    pub synced: u64,
    /// The times of syncs.
    pub syncs: TimeCounts,
    /// The number of machines that keep what is answered now.
    pub machines: u64,
    /// None: no standby has a copy.
    pub standby: Option<StandbyNumbers>,
}

/// Numbers of a standby.
#[derive(Clone, Copy)]
pub struct StandbyNumbers {
    /// 1 while replies wait until the standby has what they reveal, otherwise 0.
    pub confirms: u64,
    /// The notes that it has.
    pub confirmed: u64,
    /// The lag: the notes and bytes that are synced here and that it lacks.
    pub lag_notes: u64,
    pub lag_bytes: u64,
    pub lag_seconds: u64,
    /// Since it last answered.
    pub silence_seconds: u64,
}

/// The reported numbers of a server: a snapshot of its counts.
#[derive(Drop)]
pub struct Numbers<'a> {
    pub build: Build<'a>,
    pub uptime_seconds: u64,
    /// None: the system does not say.
    pub resident_bytes: Option<u64>,
    pub clients: ClientNumbers,
    /// None: the pads are kept nowhere.
    pub store: Option<StoreNumbers>,
}

/// The text of all numbers, in Prometheus' text form, version 0.0.4.
pub fn metrics_text(alloc: Global, numbers: &Numbers<'_>) -> Result<String, AllocError>
    ensures { IfOk result (λ text. string_bytes text ≡ metrics_text numbers.now) }
{
    let mut text = String::new(alloc);
    put_process(&mut text, numbers)?;
    put_clients(&mut text, &numbers.clients)?;
    put_stores(&mut text, &numbers.store)?;
    Ok(text)
}

// Appends the numbers of the process.
fn put_process(text: &mut String, numbers: &Numbers<'_>) -> Result<(), AllocError>
    ensures { OnOk result (string_bytes text.new ≡ string_bytes text.old ++ process_text numbers.now) }
{
    put_build(
        text,
        Family::Build,
        numbers.build.version,
        numbers.build.proved,
    )?;
    put_one(text, Family::Uptime, numbers.uptime_seconds)?;
    put_resident(text, numbers.resident_bytes)
}

fn put_resident(text: &mut String, bytes: Option<u64>) -> Result<(), AllocError>
    ensures { OnOk result (string_bytes text.new ≡ string_bytes text.old ++ resident_text bytes) }
{
    match bytes {
        Some(bytes) => put_one(text, Family::Resident, bytes),
        None => Ok(()),
    }
}

// Appends what concerns clients.
fn put_clients(text: &mut String, numbers: &ClientNumbers) -> Result<(), AllocError>
    ensures { OnOk result (string_bytes text.new ≡ string_bytes text.old ++ clients_text numbers.now) }
{
    put_connected(text, numbers)?;
    put_done(text, numbers)
}

// Appends what was answered, and what was refused.
fn put_done(text: &mut String, numbers: &ClientNumbers) -> Result<(), AllocError>
    ensures { OnOk result (string_bytes text.new ≡ string_bytes text.old ++ done_text numbers.now) }
{
    put_answered(text, numbers)?;
    put_refused(text, numbers)
}

// Appends what was refused.
fn put_refused(text: &mut String, numbers: &ClientNumbers) -> Result<(), AllocError>
    ensures { OnOk result (string_bytes text.new ≡ string_bytes text.old ++ refused_text numbers.now) }
{
    put_codes(text, Family::Refusals, numbers.refusals.as_slice())
}

// Appends who is connected.
fn put_connected(text: &mut String, numbers: &ClientNumbers) -> Result<(), AllocError>
    ensures { OnOk result (string_bytes text.new ≡ string_bytes text.old ++ connected_text numbers.now) }
{
    put_one(text, Family::Clients, numbers.clients)?;
    put_one(text, Family::Visits, numbers.visits)?;
    put_one(text, Family::PageRequests, numbers.page_requests)?;
    put_one(text, Family::PageConnections, numbers.page_connections)
}

// Appends what was answered.
fn put_answered(text: &mut String, numbers: &ClientNumbers) -> Result<(), AllocError>
    ensures { OnOk result (string_bytes text.new ≡ string_bytes text.old ++ answered_text numbers.now) }
{
    put_one(text, Family::Pads, numbers.pads)?;
    put_one(text, Family::Requests, numbers.requests)?;
    put_one(text, Family::Operations, numbers.operations)
}

// Appends what concerns the store, if there is one.
fn put_stores(text: &mut String, store: &Option<StoreNumbers>) -> Result<(), AllocError>
    ensures { OnOk result (string_bytes text.new ≡ string_bytes text.old ++ stores_text store.now) }
{
    match store {
        Some(numbers) => put_store(text, numbers),
        None => put_one(text, Family::Machines, 0),
    }
}

fn put_store(text: &mut String, numbers: &StoreNumbers) -> Result<(), AllocError>
    ensures { OnOk result (string_bytes text.new ≡ string_bytes text.old ++ store_text numbers.now) }
{
    put_notes(text, numbers)?;
    put_one(text, Family::Machines, numbers.machines)?;
    put_standbys(text, numbers.standby)
}

// Appends what was noted and synced.
fn put_notes(text: &mut String, numbers: &StoreNumbers) -> Result<(), AllocError>
    ensures { OnOk result (string_bytes text.new ≡ string_bytes text.old ++ notes_text numbers.now) }
{
    put_one(text, Family::Notes, numbers.notes)?;
    put_one(text, Family::Synced, numbers.synced)?;
    put_times(text, Family::Syncs, &numbers.syncs)
}

// Appends what concerns the standby, if there is one.
fn put_standbys(text: &mut String, standby: Option<StandbyNumbers>) -> Result<(), AllocError>
    ensures { OnOk result (string_bytes text.new ≡ string_bytes text.old ++ standbys_text standby) }
{
    match standby {
        Some(numbers) => put_standby(text, numbers),
        None => Ok(()),
    }
}

fn put_standby(text: &mut String, numbers: StandbyNumbers) -> Result<(), AllocError>
    ensures { OnOk result (string_bytes text.new ≡ string_bytes text.old ++ standby_text numbers) }
{
    put_confirms(text, numbers)?;
    put_lag(text, numbers)
}

// Appends the numbers that the standby confirms.
fn put_confirms(text: &mut String, numbers: StandbyNumbers) -> Result<(), AllocError>
    ensures { OnOk result (string_bytes text.new ≡ string_bytes text.old ++ confirms_text numbers) }
{
    put_one(text, Family::Confirms, numbers.confirms)?;
    put_one(text, Family::Confirmed, numbers.confirmed)
}

// Appends the lag of the standby.
fn put_lag(text: &mut String, numbers: StandbyNumbers) -> Result<(), AllocError>
    ensures { OnOk result (string_bytes text.new ≡ string_bytes text.old ++ lag_text numbers) }
{
    put_one(text, Family::LagNotes, numbers.lag_notes)?;
    put_one(text, Family::LagBytes, numbers.lag_bytes)?;
    put_one(text, Family::LagSeconds, numbers.lag_seconds)?;
    put_one(text, Family::Silence, numbers.silence_seconds)
}
