//! A line: a text, and a checksum of all texts up to it.
ghost use Rattle.std.specs.Prelude.{◌≡◌, ◌&&◌, ◌∷◌, [], ◌++◌, bytes_eq, codes, IfOk, IfSome, option_map, string_bytes};
ghost use Rattle.std.specs.List.{list_all, position};
ghost use Rattle.store_format.specs.Lines.{framed, is_feed, line_text, text_behind, text_within};
ghost use Rattle.store_format.specs.Lines as lines;

use sha2::{Digest, Sha256};
use std::alloc::{AllocError, Global};

/// The number of bytes of a line beside its text: the brackets, the comma, the quotes and the 64 digits of the sum.
const AROUND: usize = 69;

/// The number of those bytes that end the line: the sum, its closing quote and the bracket.
const SUM_AND_END: usize = 66;

/// A line, and its sum, to which the next line is linked.
#[derive(Debug, Drop)]
pub struct Linked {
    pub line: String,
    pub sum: String,
}

/// The line of a text after the line with this sum. The sum before the first line is empty.
pub fn link(alloc: Global, before: &str, text: &str) -> Result<Linked, AllocError>
    ensures line { IfOk result (λ made. string_bytes made.line
        ≡ line_text before.now text.now ++ 10 ∷ []) }
    ensures sum { IfOk result (λ made. string_bytes made.sum ≡ lines.sum_after before.now text.now) }
{
    let sum = sum_after(alloc, before.as_bytes(), text.as_bytes())?;
    let line = format!(in alloc; "[{text},\"{sum}\"]\n")?;
    Ok(Linked { line, sum })
}

/// The text and the sum of a line, if it is linked to the sum before it; otherwise None.
pub fn text_of<'a>(
    alloc: Global,
    before: &str,
    line: &'a [u8],
) -> Result<Option<(&'a [u8], String)>, AllocError>
    ensures text { IfOk result (λ found. text_behind before.now line.now
        ≡ option_map (λ pair. pair.0.now) found) }
    ensures line { IfOk result (λ found. IfSome found
        (λ pair. line.now ≡ line_text before.now pair.0.now)) }
    ensures sum { IfOk result (λ found. IfSome found
        (λ pair. string_bytes pair.1 ≡ lines.sum_after before.now pair.0.now)) }
{
    if line.len() < AROUND {
        return Ok(None);
    }
    let text = &line[1..line.len() - (AROUND - 1)];
    let sum = sum_after(alloc, before.as_bytes(), text)?;
    let linked = line_bytes(alloc, text, sum.as_bytes())?;
    if line == linked.as_slice() {
        Ok(Some((text, sum)))
    } else {
        Ok(None)
    }
}

/// The text of a line with the form of one, whatever line it is linked to; None if it has another form.
pub fn text_within_line<'a>(alloc: Global, line: &'a [u8]) -> Result<Option<&'a [u8]>, AllocError>
    ensures { IfOk result (λ found. text_within line.now ≡ option_map (λ text. text.now) found) }
{
    if line.len() < AROUND {
        return Ok(None);
    }
    let text = &line[1..line.len() - (AROUND - 1)];
    let sum = &line[line.len() - SUM_AND_END..line.len() - 2];
    let framed = line_bytes(alloc, text, sum)?;
    if is_framed(line, framed.as_slice(), sum) {
        Ok(Some(text))
    } else {
        Ok(None)
    }
}

/// Returns true if a line equals the framed one, and its sum consists of digits.
fn is_framed(line: &[u8], framed: &[u8], sum: &[u8]) -> bool
    ensures { result ≡ (bytes_eq line.now framed.now && list_all lines.is_digit sum.now) }
{
    line == framed && has_digits(sum)
}

/// Returns true if a sum consists of digits.
fn has_digits(sum: &[u8]) -> bool
    ensures { result ≡ list_all lines.is_digit sum.now }
{
    sum.iter().all(|byte| is_digit(*byte))
}

/// Returns true if a byte is a digit of a sum: 0-9 or a-f.
fn is_digit(byte: u8) -> bool
    ensures { result ≡ lines.is_digit byte }
{
    (48 <= byte && byte <= 57) || (97 <= byte && byte <= 102)
}

/// The bytes of a line without its line feed.
fn line_bytes(alloc: Global, text: &[u8], sum: &[u8]) -> Result<Vec<u8>, AllocError>
    ensures { IfOk result (λ bytes. bytes.items ≡ framed text.now sum.now) }
{
    let mut bytes = Vec::new(alloc);
    bytes.extend_from_slice(b"[")?;
    bytes.extend_from_slice(text)?;
    bytes.extend_from_slice(b",\"")?;
    bytes.extend_from_slice(sum)?;
    bytes.extend_from_slice(b"\"]")?;
    Ok(bytes)
}

/// The sum of a text after an earlier sum.
fn sum_after(alloc: Global, before: &[u8], text: &[u8]) -> Result<String, AllocError>
    ensures { IfOk result (λ sum. string_bytes sum ≡ lines.sum_after before.now text.now) }
{
    let mut hasher = Sha256::new();
    hasher.update(before);
    hasher.update(text);
    hex::encode(alloc, hasher.finalize())
}

/// The index of the first line feed.
pub fn find_feed(bytes: &[u8]) -> Option<usize>
    ensures { result ≡ position is_feed bytes.now }
{
    bytes.iter().position(|byte| *byte == b'\n')
}
