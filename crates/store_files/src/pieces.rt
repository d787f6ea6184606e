//! Loads a pad from its file piece by piece: the whole file is never in memory beside its pad.
ghost use Rattle.std.specs.Prelude.{◌≡◌, ◌≤◌, ◌+◌, IsTrue, drop, vec_len};

use crate::earlier::note_numbers;
use crate::owner::Owner;
use pad_model::Sequence;
use std::alloc::Global;
use std::fs::File;
use std::io;
use std::io::{ErrorKind, Read};
use store_format::{Damage, Loaded, Loading};

/// The number of bytes of a file that are read at once.
const PIECE: usize = 262_144;

/// Loads the pad with this name from its file, and adds the numbers of the servers that wrote the file, each once.
pub fn load_pieces<S: Sequence>(
    files: &HostRuntime,
    path: &str,
    name: &str,
    owner: &Owner,
    numbers: &mut Vec<u16>,
) -> io::Result<Result<Loaded<S>, Damage>> {
    let mut file = File::open(files, path)?;
    match Loading::new(files.alloc(), owner.replica(), owner.present()) {
        Ok(loading) => load_from(files.alloc(), &mut file, loading, name, PIECE, numbers),
        Err(damage) => Ok(Err(damage)),
    }
}

/// Loads the pad with this name from the rest of a source, in pieces of `piece` bytes. Within a longer line, each piece is
/// as long as the part of the line before it, so that a line is searched for its end only a few times. The numbers of the
/// servers that wrote it are added to `numbers`, each once.
pub fn load_from<R: Read, S: Sequence>(
    alloc: Global,
    source: &mut R,
    begun: Loading<S>,
    name: &str,
    piece: usize,
    numbers: &mut Vec<u16>,
) -> io::Result<Result<Loaded<S>, Damage>> {
    let mut loading = begun;
    let mut bytes = Vec::new(alloc);
    for _ in 0..u64::MAX {
        let count = read_some(source, &mut bytes, piece)?;
        if !has_room(&loading, bytes.len()) {
            break;
        }
        if count == 0 {
            return Ok(loading.finish(alloc, name, bytes.as_slice()));
        }
        match take_lines(alloc, loading, name, &mut bytes, numbers)? {
            Ok(next) => loading = next,
            Err(damage) => return Ok(Err(damage)),
        }
    }
    Err(io::Error::from(ErrorKind::FileTooLarge))
}

// Takes the whole lines at the front of these bytes, and drops them there.
fn take_lines<S: Sequence>(
    alloc: Global,
    loading: Loading<S>,
    name: &str,
    bytes: &mut Vec<u8>,
    numbers: &mut Vec<u16>,
) -> io::Result<Result<Loading<S>, Damage>>
    requires { loading.taken + vec_len bytes.old ≤ 18446744073709551615 }
{
    match loading.take(alloc, name, bytes.as_slice()) {
        Ok((next, taken)) => {
            note_numbers(numbers, &bytes.as_slice()[..taken])?;
            drop_front(bytes, taken);
            Ok(Ok(next))
        }
        Err(damage) => Ok(Err(damage)),
    }
}

// Returns true if the number of bytes fits its type.
fn has_room<S: Sequence>(loading: &Loading<S>, more: usize) -> bool
    ensures { IsTrue result → loading.now.taken + more ≤ 18446744073709551615 }
{
    loading.taken().checked_add(more as u64).is_some()
}

// Appends one more piece to these bytes, and returns its length: 0 at the end.
fn read_some<R: Read>(source: &mut R, bytes: &mut Vec<u8>, piece: usize) -> io::Result<usize> {
    let most = bytes.len().max(piece) as u64;
    source.by_ref().take(most).read_to_end(bytes)
}

// Drops the first bytes.
fn drop_front(bytes: &mut Vec<u8>, count: usize)
    requires { count ≤ vec_len bytes.old }
    ensures { bytes.new.items ≡ drop count bytes.old.items }
{
    let left = bytes.len() - count;
    bytes.as_mut_slice().copy_within(count.., 0);
    bytes.truncate(left);
}
