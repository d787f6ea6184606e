//! The numbers of the servers that wrote the files of a store.
use std::alloc::AllocError;
use std::str;

/// The beginning of each line from which on a server writes.
const HEADER: &[u8] = b"[{\"format\":";

/// The text before the server's number in such a line.
const FIELD: &str = "\"replica\":";

/// Adds the numbers that these whole lines of a pad's file name, each once.
pub fn note_numbers(numbers: &mut Vec<u16>, lines: &[u8]) -> Result<(), AllocError> {
    for line in lines.split(|byte| *byte == b'\n') {
        if line.starts_with(HEADER) {
            if let Some(number) = number_in(line) {
                add_number(numbers, number)?;
            }
        }
    }
    Ok(())
}

/// Adds each of these numbers that is not among the others.
pub fn add_numbers(numbers: &mut Vec<u16>, more: &[u16]) -> Result<(), AllocError> {
    for number in more {
        add_number(numbers, *number)?;
    }
    Ok(())
}

// Adds a number, if it is not among the others.
fn add_number(numbers: &mut Vec<u16>, number: u16) -> Result<(), AllocError> {
    if numbers.iter().any(|other| *other == number) {
        return Ok(());
    }
    numbers.push(number)?;
    Ok(())
}

// The number of a server in a line from which on it writes.
fn number_in(line: &[u8]) -> Option<u16> {
    let text = str::from_utf8(line).ok()?;
    let (_before, behind) = text.split_once(FIELD)?;
    let digits = behind.split(|c: char| !c.is_ascii_digit()).next()?;
    digits.parse::<u16>().ok()
}
