//! The outcome of a visit to a peer.
use crate::known_vectors::KnownVectors;
use crate::relayed::Relayed;

/// The outcome of a visit to cells.
#[derive(Drop)]
pub struct Exchanged {
    /// The results.
    pub relayed: Relayed,
    /// What the peer is now known to have of each pad, by the places of the cells in the visit.
    pub known: KnownVectors,
}
