//! Frames as a browser sends them.
use std::alloc::{AllocError, Global};

const KEY: [u8; 4] = [0x37, 0xFA, 0x21, 0x3D];

/// Appends a frame with this first byte, whose payload is masked.
pub fn put_frame(first: u8, payload: &[u8], bytes: &mut Vec<u8>) -> Result<(), AllocError> {
    bytes.push(first)?;
    put_length(payload.len(), bytes)?;
    bytes.extend_from_slice(&KEY)?;
    let mut at = 0usize;
    for byte in payload {
        bytes.push(*byte ^ KEY[at % 4])?;
        at = at.wrapping_add(1);
    }
    Ok(())
}

// Appends the shortest form of a length, with the mask's bit.
fn put_length(length: usize, bytes: &mut Vec<u8>) -> Result<(), AllocError> {
    if length < 126 {
        bytes.push(length as u8 | 0x80)?;
    } else if length < 65_536 {
        bytes.push(0xFE)?;
        bytes.extend_from_slice(&(length as u16).to_be_bytes())?;
    } else {
        bytes.push(0xFF)?;
        bytes.extend_from_slice(&(length as u64).to_be_bytes())?;
    }
    Ok(())
}

/// The frames of a list, joined.
pub fn frames(alloc: Global, list: &[(u8, &[u8])]) -> Result<Vec<u8>, AllocError> {
    let mut bytes = Vec::new(alloc);
    for (first, payload) in list {
        put_frame(*first, payload, &mut bytes)?;
    }
    Ok(bytes)
}
