//! A relay round.
ghost use Rattle.std.specs.Prelude.{◌≡◌, ◌<◌, IfOk, IfErr, OnOk};
ghost use Rattle.relay.specs.Breaks.{Breaks};
ghost use Rattle.relay.specs.Kept.{begun, ready, Greets, IsUnsent, Made, MissesGreeting, Visited, world};
ghost use Rattle.relay.specs.Round.{Reaches, first_of, known_at, line_of};
ghost use Rattle.relay.specs.Wire.{Writes};
ghost use Rattle.wire_json.specs.Peers.{peer_request};
ghost use Rattle.relay.specs.Round.Stage.{Greeting, Next, Over};
ghost use Rattle.conversation.specs.Connection.{ThenEnds};

use crate::ask::name_in;
use crate::exchanged::Exchanged;
use crate::hear::hear_version;
use crate::known_vectors::KnownVectors;
use crate::peer_lines::LineExchange;
use crate::pull::pull_pad;
use crate::push::push_pad;
use crate::relayed::Relayed;
use crate::talk::Talk;
use conversation::Pads;
use pad_model::{Name, Version};
use std::alloc::Global;
use wire_json::{Told, peer_line};
use wire_lines::Fault;

/// Exchanges the operations of all pads with a peer, over a new connection: greets the peer with this server's number
/// and the shared token, and then pulls and pushes pad by pad. Afterwards, or after a fault, it ends the session, which
/// has to be a peer's (`Pads::relay`). What was delivered stays.
///
/// `PeerReply`: the peer refused the greeting, or one of its lines was not a reply.
pub fn relay_round<P: Pads, L: LineExchange>(
    alloc: Global,
    pads: &mut P,
    link: &mut L,
    own: u16,
    token: &str,
) -> Result<Relayed, Fault>
    // On success, all stages of the round were made, and what was written and heard is theirs.
    ensures all { IfOk result (λ relayed. ThenEnds (Made P.calls P.names own token.now
        (begun (P.width pads.old) pads.old (L.wire link.old)) relayed (L.wire link.new)) P.ends
        pads.new) }

    // On a fault, some of them were made, and a prefix of what they write was written.
    ensures fault { IfErr result (λ fault. ThenEnds
        (λ last. Breaks P.calls P.names fault (Greeting own token.now)
        (begun (P.width pads.old) pads.old (L.wire link.old)) last (L.wire link.new)) P.ends
        pads.new) }
{
    let relayed = make_round(alloc, pads, link, own, token);
    pads.end(alloc);
    relayed
}

// A greeting and a visit to all cells.
fn make_round<P: Pads, L: LineExchange>(
    alloc: Global,
    pads: &mut P,
    link: &mut L,
    own: u16,
    token: &str,
) -> Result<Relayed, Fault>
    ensures all { IfOk result (λ relayed. Made P.calls P.names own token.now
        (begun (P.width pads.old) pads.old (L.wire link.old)) relayed (L.wire link.new) pads.new) }
    ensures fault { IfErr result (λ fault. Breaks P.calls P.names fault (Greeting own token.now)
        (begun (P.width pads.old) pads.old (L.wire link.old)) pads.new (L.wire link.new)) }
{
    let version = greet(alloc, link, own, token)?;
    let done = visit_cells(alloc, pads, link, version, KnownVectors::new(alloc))?;
    Ok(done.relayed)
}

/// Logs in at the peer, with this server's number and the shared token, and returns the version that the peer reads.
/// The session lasts as long as the link: any number of visits may follow.
///
/// `PeerReply`: the peer refused the greeting, or its line was not a reply.
pub fn greet<L: LineExchange>(
    alloc: Global,
    link: &mut L,
    own: u16,
    token: &str,
) -> Result<Version, Fault>
    // By `greeting_law` these are the first two stages of a round, over any pads.
    ensures greeted { IfOk result (λ version. Greets own token.now version (L.wire link.old)
        (L.wire link.new)) }
    ensures fault { IfErr result (λ fault. MissesGreeting own token.now fault (L.wire link.old)
        (L.wire link.new)) }
{
    send_greeting(alloc, link, own, token)?;
    match hear_version(alloc, link)? {
        Some(Told::Said(version)) => Ok(version),
        Some(Told::Refused) => Err(Fault::PeerReply),
        None => Err(Fault::PeerReply),
    }
}

/// Exchanges the operations of the pads of all cells with a peer that was greeted and reads this version: pulls and
/// pushes pad by pad. A pad of which it is known what the peer has is only pushed, and the peer is asked nothing: a letter
/// is one request. It ends neither session, so another visit may follow over the same link, with what is then known; after
/// a visit that broke off, the link is of no more use. `visit_listed` visits only the cells of a list.
///
/// `PeerReply`: a line of the peer was not a reply.
pub fn visit_cells<P: Pads, L: LineExchange>(
    alloc: Global,
    pads: &mut P,
    link: &mut L,
    version: Version,
    known: KnownVectors,
) -> Result<Exchanged, Fault>
    // On success, all stages from the first cell on were made, and what was written, heard and learned is theirs.
    ensures all { IfOk result (λ done. Visited P.calls P.names
        (ready version (P.width pads.old) known pads.old (L.wire link.old)) done (L.wire link.new)
        pads.new) }

    // On a fault, some of them were made, and a prefix of what they write was written.
    ensures fault { IfErr result (λ fault. Breaks P.calls P.names fault Next
        (ready version (P.width pads.old) known pads.old (L.wire link.old)) pads.new
        (L.wire link.new)) }
{
    let mut talk = Talk {
        cells: pads.cells(),
        cell: 0,
        version,
        relayed: Relayed::new(),
        known,
    };
    while talk.cell < talk.cells {
        exchange_cell(alloc, pads, link, &mut talk)?;
        talk.cell += 1;
    }
    Ok(Exchanged {
        relayed: talk.relayed,
        known: talk.known,
    })
}

/// Sends the greeting.
fn send_greeting<L: LineExchange>(
    alloc: Global,
    link: &mut L,
    own: u16,
    token: &str,
) -> Result<(), Fault>
    ensures sent { OnOk result (Writes (line_of (peer_request own token.now)) (L.wire link.old)
        (L.wire link.new)) }
    ensures unsent { IfErr result (λ fault. IsUnsent fault (line_of (peer_request own token.now))
        (L.wire link.old) (L.wire link.new)) }
{
    let line = peer_line(alloc, own, token)?;
    link.send(line.as_str())
}

/// Exchanges the pad of a cell, if there is one.
fn exchange_cell<P: Pads, L: LineExchange>(
    alloc: Global,
    pads: &mut P,
    link: &mut L,
    talk: &mut Talk,
) -> Result<(), Fault>
    requires { talk.old.cell < talk.old.cells }
    ensures goes { IfOk result (λ _. Reaches P.calls P.names Next
        (world talk.old pads.old (L.wire link.old))
        Over (world talk.new pads.new (L.wire link.new))) }
    ensures breaks { IfErr result (λ fault. Breaks P.calls P.names fault Next
        (world talk.old pads.old (L.wire link.old)) pads.new (L.wire link.new)) }
    ensures cell { (talk.new.cell ≡ talk.old.cell) × (talk.new.cells ≡ talk.old.cells) }
{
    match name_in(pads.name_of(alloc, talk.cell))? {
        Some(pad) => exchange_pad(alloc, pads, link, talk, &pad),
        None => Ok(()),
    }
}

/// Exchanges a pad: first pulls what the peer has, then pushes what it lacks. If it is known what the peer has, it only
/// pushes.
fn exchange_pad<P: Pads, L: LineExchange>(
    alloc: Global,
    pads: &mut P,
    link: &mut L,
    talk: &mut Talk,
    pad: &Name,
) -> Result<(), Fault>
    ensures goes { IfOk result (λ _. Reaches P.calls P.names
        (first_of pad.now (known_at talk.old.known talk.old.cell))
        (world talk.old pads.old (L.wire link.old))
        Over (world talk.new pads.new (L.wire link.new))) }
    ensures breaks { IfErr result (λ fault. Breaks P.calls P.names fault
        (first_of pad.now (known_at talk.old.known talk.old.cell))
        (world talk.old pads.old (L.wire link.old)) pads.new (L.wire link.new)) }
    ensures cell { (talk.new.cell ≡ talk.old.cell) × (talk.new.cells ≡ talk.old.cells) }
{
    if talk.is_known() {
        return push_pad(alloc, pads, link, talk, pad);
    }
    if !pull_pad(alloc, pads, link, talk, pad)? {
        return Ok(());
    }
    push_pad(alloc, pads, link, talk, pad)
}
