//! Bytes as a failing test shows them.

pub fn text_of(bytes: &[u8]) -> &str {
    match str::from_utf8(bytes) {
        Ok(text) => text,
        Err(_) => "bytes that are no UTF-8",
    }
}
