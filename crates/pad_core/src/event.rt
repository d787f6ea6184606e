//! One step of a pad: who does what, and what became of a claim.
use crate::act::Act;
use pad_model::Who;

/// An act on the pad of a name, by somebody who may have a visit.
#[derive(Clone, Copy, Debug)]
pub struct PadEvent<'a> {
    pub pad: &'a str,
    pub who: &'a Who,
    pub visit: Option<u64>,
    pub act: &'a Act,
}

/// The outcome of a claim.
#[derive(Clone, Copy, Debug, PartialEq, Eq)]
pub enum Claim {
    /// The pad has the name now, and its owner this visit.
    Created { visit: u64 },
    /// The pad had the name before.
    Exists,
    /// The pad has another name.
    Other,
}
