//! A round: stretches of the files of pads, each after the line that announces it.
ghost use Rattle.std.specs.Prelude.{◌≡◌, ◌++◌, IfOk, OnOk};
ghost use Rattle.file_copies.specs.Rounds.{round_bytes, stretch_bytes};

use crate::request::keep_line;
use pad_model::Name;
use std::alloc::{AllocError, Global};

/// Bytes of a pad's file, which stand there from byte `from` on.
#[derive(Debug, Drop)]
pub struct FileStretch {
    pub pad: Name,
    pub from: u64,
    pub lines: Vec<u8>,
}

/// Adds bytes of a pad's file to those of a round, after the line that announces them. They stand in the file from byte
/// `from` on.
pub fn put_stretch(
    alloc: Global,
    round: &mut Vec<u8>,
    pad: &Name,
    from: u64,
    lines: &[u8],
) -> Result<(), AllocError>
    ensures { OnOk result (round.new.items ≡ round.old.items ++ stretch_bytes pad.now from lines.now) }
{
    let line = keep_line(alloc, pad, from, lines.len() as u64)?;
    round.extend_from_slice(line.as_bytes())?;
    round.extend_from_slice(lines)
}

/// The bytes of a round.
pub fn round_text(alloc: Global, round: &[FileStretch]) -> Result<Vec<u8>, AllocError>
    ensures { IfOk result (λ bytes. bytes.items ≡ round_bytes round.now) }
{
    let mut bytes = Vec::new(alloc);
    for stretch in round {
        put_stretch(
            alloc,
            &mut bytes,
            &stretch.pad,
            stretch.from,
            stretch.lines.as_slice(),
        )?;
    }
    Ok(bytes)
}
