//! Whoever keeps copies of the files of pads.
ghost use Rattle.std.specs.Prelude.{◌≡◌, ◌++◌, [], ℕ, List, OnOk, Option};
ghost use Rattle.std.specs.Io.KnownBytes.{Appends};
ghost use Rattle.file_copies.specs.Requests.{line_of, sync_data};
ghost use Rattle.file_copies.specs.Rounds.{stretch_bytes};

use file_copies::HeardMark;
use pad_model::Name;
use sessions::Word;
use std::alloc::Global;
use wire_lines::Fault;

/// The place that the copy of a pad's file has reached.
#[derive(Debug, Drop)]
pub struct CopyPlace {
    pub pad: Name,
    /// The number of its bytes.
    pub bytes: u64,
    /// The sum of its last line.
    pub sum: Word,
}

/// An answer of whoever keeps copies.
#[derive(Debug, Drop)]
pub enum CopiesAnswer {
    /// Everything up to a mark is kept, as whoever keeps the copies has said.
    Kept(HeardMark),
    /// Nothing is kept any more, for the reason with this number: the copy has another past, there is no room or no memory
    /// for more, or it is no copy any more, since a server runs on it.
    Refused { code: u64 },
}

/// Whoever keeps copies of the files of pads: a standby over the network, or a list in memory in tests. A round is some calls
/// of `put`, at most one for each pad, then `flush` and `hear`.
pub trait Copies {
    /// The bytes of the round so far.
    ghost round: { Self → List ℕ };

    /// The bytes that were written to whoever keeps the copies, where they are known.
    ghost written: { Self → Option (List ℕ) };

    /// Returns the place of each copy, for those that have anything. None: whoever is asked keeps no copies.
    fn begin(&mut self, alloc: Global) -> Result<Option<Vec<CopyPlace>>, Fault>;

    /// Adds bytes of a pad's file to the round. They stand there from byte `from` on, and are whole lines.
    fn put(&mut self, alloc: Global, pad: &Name, from: u64, lines: &[u8]) -> Result<(), Fault>
        ensures put { OnOk result (Self.round self.new ≡ Self.round self.old ++ stretch_bytes pad.now from lines.now) };

    /// Ends the round, which belongs to this mark.
    fn flush(&mut self, alloc: Global, mark: u64) -> Result<(), Fault>
        ensures written { OnOk result (Appends (Self.written self.old) (Self.written self.new)
            (Self.round self.old ++ line_of (sync_data mark))) }
        ensures empty { OnOk result (Self.round self.new ≡ []) };

    /// Waits until the round is kept or refused.
    fn hear(&mut self, alloc: Global) -> Result<CopiesAnswer, Fault>;
}
