//! A visit to the cells of a list.
ghost use Rattle.std.specs.Prelude.{◌≡◌, IfErr, IfOk};
ghost use Rattle.relay.specs.Breaks.{Breaks};
ghost use Rattle.relay.specs.Kept.{ready, Visited};
ghost use Rattle.relay.specs.Listed.{by_place, count_of};
ghost use Rattle.relay.specs.Round.Stage.{Next};

use crate::exchanged::Exchanged;
use crate::known_vectors::KnownVectors;
use crate::peer_lines::LineExchange;
use crate::round::visit_cells;
use conversation::Pads;
use pad_core::{Reply, Request};
use pad_model::{Name, Refusal, Version};
use std::alloc::Global;
use wire_lines::Fault;

/// Exchanges the operations of only the pads of the listed cells, in the order of the list, as `visit_cells` does for
/// all cells. It skips cells without a pad, and numbers that are not those of cells. For an empty list, nothing is
/// written and nothing is read. What the peer is known to have is by the positions in the list.
///
/// Of a list of more than 4,294,967,295 numbers, which is more than there can be cells, only the first 4,294,967,295
/// count.
pub fn visit_listed<P: Pads, L: LineExchange>(
    alloc: Global,
    pads: &mut P,
    link: &mut L,
    version: Version,
    cells: &[u32],
    known: KnownVectors,
) -> Result<Exchanged, Fault>
    // The stages are those of a visit whose cells are the positions in the list.
    ensures all { IfOk result (λ done. Visited P.calls (by_place cells.now P.names)
        (ready version (count_of cells.now) known pads.old (L.wire link.old)) done
        (L.wire link.new) pads.new) }
    ensures fault { IfErr result (λ fault. Breaks P.calls (by_place cells.now P.names) fault Next
        (ready version (count_of cells.now) known pads.old (L.wire link.old)) pads.new
        (L.wire link.new)) }
{
    let mut chosen = Chosen { pads, cells };
    visit_chosen(alloc, &mut chosen, link, version, known)
}

// The same for pads that are borrowed, and stay so.
fn visit_chosen<P: Pads, L: LineExchange>(
    alloc: Global,
    chosen: &mut Chosen<'_, P>,
    link: &mut L,
    version: Version,
    known: KnownVectors,
) -> Result<Exchanged, Fault>
    ensures same_reference { chosen.new.pads.ghost_name ≡ chosen.old.pads.ghost_name }
    ensures all { IfOk result (λ done. Visited P.calls (by_place chosen.old.cells.now P.names)
        (ready version (count_of chosen.old.cells.now) known chosen.old.pads.now (L.wire link.old))
        done (L.wire link.new) chosen.new.pads.now) }
    ensures fault { IfErr result (λ fault. Breaks P.calls (by_place chosen.old.cells.now P.names)
        fault Next
        (ready version (count_of chosen.old.cells.now) known chosen.old.pads.now (L.wire link.old))
        chosen.new.pads.now (L.wire link.new)) }
{
    visit_cells(alloc, chosen, link, version, known)
}

/// The pads of the listed cells, in the order of the list: here the number of a cell is its position in the list.
#[derive(Drop)]
struct Chosen<'a, P> {
    pads: &'a mut P,
    cells: &'a [u32],
}

impl<'a, P: Pads> Pads for Chosen<'a, P> {
    ghost use Rattle.relay.specs.Chosen.{CallsChosen, IsSame, NamesChosen};

    ghost calls = { λ old request answer new. CallsChosen P.calls old request answer new };

    ghost relays = { λ old number answer new. P.relays old.pads.now number answer new.pads.now
        × IsSame old new };

    ghost ends = { λ old new. P.ends old.pads.now new.pads.now × IsSame old new };

    ghost names = { λ old place answer new. NamesChosen P.names old place answer new };

    ghost width = { λ c. count_of c.cells.now };

    fn call(&mut self, alloc: Global, request: &Request) -> Result<Reply, Refusal> {
        self.pads.call(alloc, request)
    }

    fn relay(&mut self, alloc: Global, number: u16) -> Result<Reply, Refusal> {
        self.pads.relay(alloc, number)
    }

    fn end(&mut self, alloc: Global) {
        self.pads.end(alloc);
    }

    fn name_of(&mut self, alloc: Global, cell: u32) -> Result<Option<Name>, Refusal> {
        match self.cells.get(cell as usize) {
            Some(listed) => self.pads.name_of(alloc, *listed),
            None => Ok(None),
        }
    }

    fn cells(&self) -> u32 {
        u32::try_from(self.cells.len()).unwrap_or(u32::MAX)
    }
}
