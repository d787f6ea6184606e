//! The sum of a line, read back from a pad's file.
use std::alloc::Global;
use std::fs::File;
use std::os::unix::fs::FileExt;
use std::{io, str};

/// The number of bytes from the beginning of the sum to the end of its line: the sum, its closing quote, the bracket
/// and the line feed.
const SUM_AND_END: u64 = 67;

/// The number of bytes of a sum.
const SUM: usize = 64;

/// The sum of the line that ends at this byte of a file; empty at its beginning. None: the file is shorter, or no line ends
/// there.
pub fn sum_before(alloc: Global, file: &File, end: u64) -> io::Result<Option<String>> {
    if end == 0 {
        return Ok(Some(String::new(alloc)));
    }
    let Some(from) = end.checked_sub(SUM_AND_END) else {
        return Ok(None);
    };
    if file.metadata()?.len() < end {
        return Ok(None);
    }
    let mut bytes = [0u8; SUM];
    file.read_exact_at(&mut bytes, from)?;
    match str::from_utf8(&bytes) {
        Ok(sum) => Ok(Some(String::from_str(alloc, sum)?)),
        Err(_) => Ok(None),
    }
}
