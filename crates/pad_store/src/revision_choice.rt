//! The revision of a pad that is asked for.

/// The revision of a pad that is asked for.
#[derive(Clone, Copy)]
pub enum RevisionChoice {
    /// The present one.
    Present,
    /// The one with this number.
    Number(u32),
    /// The last one that was made not later than a moment, in milliseconds since 1970.
    At(u64),
}
