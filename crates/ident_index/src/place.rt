use pad_model::Stamp;

/// The index's entry for a block: its number of characters, and the label that orders it among the others.
#[derive(Clone, Copy, Debug, PartialEq, Eq)]
pub struct BlockEntry {
    pub len: u64,
    pub label: u64,
}

/// The place of a character: the first stamp and the label of its block, and the number of characters before it there.
#[derive(Clone, Copy, Debug, PartialEq, Eq)]
pub struct Place {
    pub first: Stamp,
    pub offset: u64,
    pub label: u64,
}
