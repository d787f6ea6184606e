//! The clients of a worker, and the work of a turn.
use crate::buffers::Buffers;
use crate::client::Client;
use crate::hub::{Connected, Hub};
use crate::settle::{Reach, Settle};
use mio::{Events, Interest, Registry, Token};
use sessions::Accounts;
use slab::Slab;
use std::alloc::{AllocError, Global};
use std::sync::Arc;
use std::{io, mem};

/// The token of a worker's waker.
pub const WAKING: Token = Token(usize::MAX);

/// The clients of a worker, by key.
#[derive(Drop)]
pub struct Clients {
    pub all: Slab<Client>,
    /// The clients that are served in this turn, and in the next.
    pub queue: Vec<usize>,
    pub later: Vec<usize>,
    /// The clients that may have replies to be written.
    pub owed: Vec<usize>,
    /// True if one of them has replies to be written.
    pub owes: bool,
    /// The clients that are held back, and the time at which the first is released, in milliseconds of a `Ticker`.
    pub held: Vec<usize>,
    pub deadline: Option<u64>,
    /// The clients whose replies wait for more than is settled, and the least number that one of them waits for.
    pub awaiting: Vec<usize>,
    least: u64,
    /// The number that the replies of the last turn wait for.
    due: u64,
    pub buffers: Buffers,
    /// The accounts that may log in from now on, if they have changed.
    pub accounts: Option<Arc<Accounts, Global>>,
}

/// A client that could not be added, and why.
#[derive(Drop)]
pub struct NotServed {
    pub client: Client,
    pub cause: io::Error,
}

impl Clients {
    /// Creates an empty set of clients.
    pub fn new(alloc: Global) -> Result<Clients, AllocError> {
        Ok(Clients {
            all: Slab::new(alloc),
            queue: Vec::new(alloc),
            later: Vec::new(alloc),
            owed: Vec::new(alloc),
            owes: false,
            held: Vec::new(alloc),
            deadline: None,
            awaiting: Vec::new(alloc),
            least: 0,
            due: 0,
            buffers: Buffers::new(alloc)?,
            accounts: None,
        })
    }

    /// Adds a client, which is served in this turn. If it cannot be served, it is returned with the cause.
    pub fn insert(&mut self, registry: &Registry, mut client: Client) -> Result<(), NotServed> {
        client.settle_in();
        if let Err(cause) = self.register(registry, &mut client) {
            return Err(NotServed { client, cause });
        }
        match self.all.insert(client) {
            Ok(_) => Ok(()),
            Err(failed) => Err(NotServed {
                client: failed.value,
                cause: io::Error::from(AllocError),
            }),
        }
    }

    // Makes room for a client, registers its socket and queues it under the next key.
    fn register(&mut self, registry: &Registry, client: &mut Client) -> io::Result<()> {
        self.reserve()?;
        let key = self.all.vacant_key();
        let interests = Interest::READABLE | Interest::WRITABLE | Interest::PRIORITY;
        client.party.register(registry, Token(key), interests)?;
        self.queue.push(key)?;
        Ok(())
    }

    // Allocates room for one more client in each list, so that no list runs out of memory in a turn.
    fn reserve(&mut self) -> Result<(), AllocError> {
        self.all.reserve(1)?;
        let most = self.all.len().saturating_add(1).min(1 << 32);
        self.queue.reserve(2 * most)?;
        self.later.reserve(2 * most)?;
        self.owed.reserve(5 * most)?;
        self.awaiting.reserve(2 * most)?;
        self.held.reserve(2 * most)
    }

    /// Notes which sockets are ready. Returns whether the worker was woken.
    pub fn note(&mut self, events: &Events) -> Result<bool, AllocError> {
        let mut is_woken = false;
        for event in events {
            let token = event.token();
            if token == WAKING {
                is_woken = true;
                continue;
            }
            let Some(client) = self.all.get_mut(token.0) else {
                continue;
            };
            if event.is_writable() && client.owes() {
                self.owes = true;
                self.owed.push(token.0)?;
            }
            let ends = event.is_read_closed() || event.is_error();
            let reads_on = ends || event.is_priority();
            if (event.is_readable() || ends) && client.note_readable(reads_on) {
                self.queue.push(token.0)?;
            }
        }
        Ok(is_woken)
    }

    /// Holds back a client until this time.
    pub fn delay(&mut self, key: usize, until: u64) -> Result<(), AllocError> {
        self.deadline = Some(self.deadline.map_or(until, |first| first.min(until)));
        if let Some(client) = self.all.get_mut(key) {
            if client.list() {
                self.held.push(key)?;
            }
        }
        Ok(())
    }

    /// Releases the clients whose time is over, or whose pad has reached the revision that they wait for, and updates
    /// the deadline.
    pub fn release(&mut self, hub: &Hub, place: usize, now: u64) -> Result<(), AllocError> {
        let mut kept = 0;
        let mut deadline: Option<u64> = None;
        for index in 0..self.held.len() {
            let Some(key) = self.held.get(index).copied() else {
                break;
            };
            let Some(client) = self.all.get_mut(key) else {
                continue;
            };
            let delay = client.delay();
            let Some(until) = delay.until() else {
                client.unlist();
                continue;
            };
            if until <= now || !hub.holds(place, delay) {
                client.unlist();
                if client.release() {
                    self.owes = true;
                    self.owed.push(key)?;
                } else if client.queue() {
                    self.queue.push(key)?;
                }
                continue;
            }
            deadline = Some(deadline.map_or(until, |first| first.min(until)));
            if let Some(slot) = self.held.get_mut(kept) {
                *slot = key;
                kept += 1;
            }
        }
        self.held.truncate(kept);
        self.deadline = deadline;
        Ok(())
    }

    /// Has everything stored by this server that the replies to be written can reveal, and returns how far replies may go by
    /// now. None: there are no replies that may be written.
    pub fn settle<T: Settle>(
        &mut self,
        settle: &T,
        hub: &Hub,
        place: usize,
    ) -> io::Result<Option<Reach<T::Settled>>> {
        if mem::replace(&mut self.owes, false) {
            self.due = settle.settle()?;
        } else if self.awaiting.is_empty() {
            return Ok(None);
        }
        let mut reach = settle.reach(self.due)?;
        if !reaches(&reach, self.due) {
            // Whoever lets replies go further wakes the workers that wait. This one waits before it looks again, so that it
            // cannot miss that.
            hub.await_reach(place);
            reach = settle.reach(self.due)?;
        }
        if let Some(reach) = &reach {
            self.resume(reach.number)?;
        }
        Ok(reach)
    }

    // Has the replies that wait looked at again, if some of them may be written now.
    fn resume(&mut self, reached: u64) -> Result<(), AllocError> {
        if self.awaiting.is_empty() || reached < self.least {
            return Ok(());
        }
        for index in 0..self.awaiting.len() {
            let Some(key) = self.awaiting.get(index).copied() else {
                break;
            };
            if let Some(client) = self.all.get_mut(key) {
                client.end_await();
                self.owed.push(key)?;
            }
        }
        self.awaiting.clear();
        Ok(())
    }

    /// Writes a client's replies, if they may go so far. If not, the client is listed as one whose replies wait.
    pub fn write<T: Settle>(
        &mut self,
        key: usize,
        reach: &Option<Reach<T::Settled>>,
    ) -> Result<(), AllocError> {
        let Some(client) = self.all.get_mut(key) else {
            return Ok(());
        };
        client.wait_for(match client.connected() {
            Connected::Client => self.due,
            // A file of the page reveals nothing that was noted.
            Connected::PageRequest => 0,
        });
        let mut reached = None;
        if let Some(reach) = reach {
            client.write::<T>(reach);
            reached = Some(reach.number);
        }
        if client.waits_beyond(reached) && client.await_reach() {
            let due = client.due().unwrap_or(self.due);
            self.least = if self.awaiting.is_empty() {
                due
            } else {
                self.least.min(due)
            };
            self.awaiting.push(key)?;
        }
        Ok(())
    }

    /// A client is taken out whose replies waited.
    pub fn forget_awaiting(&mut self, key: usize) {
        self.awaiting.retain(|other| *other != key);
    }

    /// Begins the next turn.
    pub fn turn_over(&mut self) {
        self.owed.clear();
        mem::swap(&mut self.queue, &mut self.later);
    }
}

// Returns true if replies that wait for this number may be written.
fn reaches<P>(reach: &Option<Reach<P>>, number: u64) -> bool {
    match reach {
        Some(reach) => number <= reach.number,
        None => false,
    }
}
