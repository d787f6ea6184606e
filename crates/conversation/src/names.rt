//! The names of a row's pads, by which a request finds its cell.
ghost use Rattle.std.specs.Prelude.{◌≡◌, IfErr, OnErr, OnOk, length};
ghost use Rattle.shared_pads.specs.LockedPad.{IsNamed};
ghost use Rattle.conversation.specs.Names.{Starts, counted, fewer, is_known, place_of, start_of, with_name};

use indexmap::IndexSet;
use pad_core::Request;
use pad_model::{Name, Refusal, Sequence};
use shared_pads::SharedPad;
use std::alloc::Global;
use std::marker::Model;
use std::sync::{Mutex, Wait};

/// The names of a row's first cells, in the order of the cells, and the number of creations under way.
#[derive(Drop)]
struct NameBook {
    names: IndexSet<Name>,
    creations: u64,
}

impl Model for NameBook {
    ghost use Rattle.conversation.specs.Names.{AreNames, NameBook};

    ghost Value = { NameBook };

    ghost view = { λ b. record { names = b.names.keys; creations = b.creations } };

    ghost invariant = { λ b. AreNames 0 b.names.keys };
}

impl NameBook {
    // Creates an empty book: no name is known, and no creation is under way.
    fn new(alloc: Global) -> NameBook {
        NameBook {
            names: IndexSet::new(alloc),
            creations: 0,
        }
    }

    // The number of known names.
    fn count(&self) -> usize
        ensures { result ≡ length self.now.names }
    {
        self.names.len()
    }

    // Returns true if a cell is known to have this name.
    fn is_known(&self, pad: &Name) -> bool
        ensures { result ≡ is_known pad.now self.now.names }
    {
        self.names.contains(pad)
    }

    // The first cell with this name, or else the first cell whose name is not known.
    fn place_of(&self, pad: &Name) -> usize
        ensures { result ≡ place_of pad.now self.now.names }
    {
        match self.names.get_index_of(pad) {
            Some(place) => place,
            None => self.names.len(),
        }
    }

    // The first cell at which to try a request on the pad of this name; None if no cell can have that name.
    fn start_of(&self, pad: &Name, request: &Request) -> Option<usize>
        ensures { result ≡ start_of pad.now request.now self.now }
    {
        let place = self.place_of(pad);
        if let Request::Create { .. } = request {
            return Some(place);
        }
        if self.is_known(pad) || self.creations > 0 {
            return Some(place);
        }
        None
    }

    // The same, and counts the request as under way if it is a creation.
    fn start(&mut self, pad: &Name, request: &Request) -> Option<usize>
        ensures start { result ≡ start_of pad.now request.now self.old }
        ensures starts { Starts pad.now request.now result }
        ensures book { self.new ≡ record {
          names = self.old.names;
          creations = counted request.now self.old.creations;
        } }
    {
        let start = self.start_of(pad, request);
        if let Request::Create { .. } = request {
            self.creations = self.creations.saturating_add(1);
        }
        start
    }

    // Counts a creation as ended. A count that has reached its maximum stays there.
    fn end(&mut self)
        ensures { self.new ≡ record self.old { creations = fewer self.old.creations } }
    {
        if self.creations < u64::MAX {
            self.creations = self.creations.saturating_sub(1);
        }
    }

    // Adds the name of a cell, if it is the next cell.
    fn learn(&mut self, cell: u32, name: Name) -> Result<(), Refusal>
        requires { IsNamed cell name }
        ensures learned { OnOk result (self.new
            ≡ record {
              names = with_name cell name self.old.names;
              creations = self.old.creations;
            }) }
        ensures memory { IfErr result (λ e. e ≡ Refusal.Memory) }
        ensures refused { OnErr result (self.new ≡ self.old) }
    {
        if self.names.len() == cell as usize {
            self.names.insert(name)?;
        }
        Ok(())
    }
}

/// The names of a row's pads, under a lock of their own. It is held only for a look-up or to add one name.
///
/// Whenever the lock is free, each name is that of the pad in the cell at its index.
#[derive(Drop)]
pub struct Names {
    book: Mutex<NameBook>,
}

impl Names {
    /// Collects the names of a row's pads, up to the first cell without one. No creation is counted. Refusal: 900.
    pub fn fill<S: Sequence, R: Wait>(
        rt: &R,
        alloc: Global,
        cells: &[SharedPad<S>],
    ) -> Result<Names, Refusal>
        ensures { IfErr result (λ e. e ≡ Refusal.Memory) }
    {
        let names = Names {
            book: Mutex::new(NameBook::new(alloc)),
        };
        names.learn(rt, alloc, cells, cells.len())?;
        Ok(names)
    }

    // The first cell at which to try a request on the pad of this name, by the known names. A creation is counted as
    // under way.
    pub(crate) fn start<R: Wait>(&self, rt: &R, pad: &Name, request: &Request) -> Option<usize>
        ensures { Starts pad.now request.now result }
    {
        self.book.lock(rt).start(pad, request)
    }

    // Ends a creation that made a pad in a cell, or in none. It stays counted if the names up to that cell cannot be
    // learned.
    pub(crate) fn conclude<S: Sequence, R: Wait>(
        &self,
        rt: &R,
        alloc: Global,
        cells: &[SharedPad<S>],
        made: Option<u32>,
    ) {
        if let Some(cell) = made {
            let end = cell as usize + 1;
            if self.learn(rt, alloc, cells, end).is_err() || self.count(rt) < end {
                return;
            }
        }
        self.book.lock(rt).end();
    }

    // Adds the names of the cells before `end`, up to the first cell without a name.
    fn learn<S: Sequence, R: Wait>(
        &self,
        rt: &R,
        alloc: Global,
        cells: &[SharedPad<S>],
        end: usize,
    ) -> Result<(), Refusal>
        ensures { IfErr result (λ e. e ≡ Refusal.Memory) }
    {
        for place in self.count(rt)..end.min(cells.len()) {
            let cell = &cells[place];
            let Some(name) = cell.name(rt, alloc)? else {
                break;
            };
            self.book.lock(rt).learn(cell.cell(), name)?;
        }
        Ok(())
    }

    // The number of known names.
    fn count<R: Wait>(&self, rt: &R) -> usize {
        self.book.lock(rt).count()
    }
}
