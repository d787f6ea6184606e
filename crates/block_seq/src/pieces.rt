//! The fewest pieces that lead from one revision to another: lists that grow at their end, and the walk along cells.
ghost use Rattle.std.specs.Prelude.{◌≡◌, [], ◌+◌, ◌≤◌, length, sum_by, IfOk, OnOk};
ghost use Rattle.pad_model.specs.Pieces.{are_alike, old_len};
ghost use Rattle.pad_model.specs.Pieces as pieces_spec;
ghost use Rattle.block_seq.specs.PieceLists.{dropped_in, kept_in, longer_by, with_piece};
ghost use Rattle.block_seq.specs.Plain.{AreKnown, cells_of};

use crate::place::PlainCell;
use crate::readers::is_shown;
use pad_model::{Author, Piece, Text};
use std::alloc::{AllocError, Global};

/// Returns the number of characters that a piece keeps, if it keeps any.
fn kept_by(piece: &Piece) -> Option<u64>
    ensures { result ≡ kept_in piece.now }
{
    match piece {
        Piece::Keep(len) => Some(*len),
        Piece::Drop(_) => None,
        Piece::Insert { .. } => None,
    }
}

/// Returns the number of characters that a piece drops, if it drops any.
fn dropped_by(piece: &Piece) -> Option<u64>
    ensures { result ≡ dropped_in piece.now }
{
    match piece {
        Piece::Keep(_) => None,
        Piece::Drop(len) => Some(*len),
        Piece::Insert { .. } => None,
    }
}

/// Returns true if a piece inserts characters of an author.
fn inserts_of(piece: &Piece, author: &Author) -> bool
    ensures { result ≡ are_alike piece.now (Piece.Insert author.now []) }
{
    match piece {
        Piece::Keep(_) => false,
        Piece::Drop(_) => false,
        Piece::Insert { author: by, .. } => by == author,
    }
}

/// An insertion with more characters.
fn extended(piece: Piece, more: &[char]) -> Result<Piece, AllocError>
    ensures { IfOk result (λ longer. longer ≡ longer_by piece more.now) }
{
    match piece {
        Piece::Keep(len) => Ok(Piece::Keep(len)),
        Piece::Drop(len) => Ok(Piece::Drop(len)),
        Piece::Insert { author, mut text } => {
            text.extend(more)?;
            Ok(Piece::Insert { author, text })
        }
    }
}

/// Adds characters that stay.
pub fn add_kept(pieces: &mut Vec<Piece>, len: u64) -> Result<(), AllocError>
    requires { sum_by old_len pieces.old.items + len ≤ u64.MAX }
    ensures { OnOk result (pieces.new.items ≡ with_piece pieces.old.items (Piece.Keep len)) }
{
    if let Some(last) = pieces.pop() {
        if let Some(kept) = kept_by(&last) {
            pieces.push(Piece::Keep(kept + len))?;
            return Ok(());
        }
        pieces.push(last)?;
    }
    pieces.push(Piece::Keep(len))?;
    Ok(())
}

/// Adds characters that went.
pub fn add_dropped(pieces: &mut Vec<Piece>, len: u64) -> Result<(), AllocError>
    requires { sum_by old_len pieces.old.items + len ≤ u64.MAX }
    ensures { OnOk result (pieces.new.items ≡ with_piece pieces.old.items (Piece.Drop len)) }
{
    if let Some(last) = pieces.pop() {
        if let Some(dropped) = dropped_by(&last) {
            pieces.push(Piece::Drop(dropped + len))?;
            return Ok(());
        }
        pieces.push(last)?;
    }
    pieces.push(Piece::Drop(len))?;
    Ok(())
}

/// Adds characters of an author that came.
pub fn add_inserted(
    alloc: Global,
    pieces: &mut Vec<Piece>,
    author: &Author,
    more: &[char],
) -> Result<(), AllocError>
    ensures { OnOk result (pieces.new.items
        ≡ with_piece pieces.old.items (Piece.Insert author.now more.now)) }
{
    if let Some(last) = pieces.pop() {
        if inserts_of(&last, author) {
            pieces.push(extended(last, more)?)?;
            return Ok(());
        }
        pieces.push(last)?;
    }
    let author = author.clone()?;
    let text = Text::from_vec(Vec::from_slice(alloc, more)?);
    pieces.push(Piece::Insert { author, text })?;
    Ok(())
}

/// Lists the pieces that lead from one revision to another, by one walk along the cells.
pub fn plain_pieces(
    alloc: Global,
    cells: &[PlainCell],
    authors: &[Author],
    rev: u64,
    to: u64,
) -> Result<Vec<Piece>, AllocError>
    requires { AreKnown authors.now cells.now }
    ensures { IfOk result (λ pieces. pieces.items
        ≡ pieces_spec.changes rev to (cells_of authors.now cells.now)) }
{
    let mut pieces = Vec::new(alloc);
    for cell in cells {
        let stays = is_shown(cell, to);
        if is_shown(cell, rev) {
            if stays {
                add_kept(&mut pieces, 1)?;
            } else {
                add_dropped(&mut pieces, 1)?;
            }
        } else if stays {
            add_inserted(alloc, &mut pieces, &authors[cell.author], &[cell.character])?;
        }
    }
    Ok(pieces)
}
