//! The two parts of a line: its text and its sum.
ghost use Rattle.std.specs.Prelude.{◌≡◌, option_map};
ghost use Rattle.pad_store.specs.Partings as partings;

/// The number of bytes of a line beside its text: the brackets, the comma, the quotes and the 64 digits of the sum.
const AROUND: usize = 69;

/// The number of those bytes that end the line: the sum, its closing quote and the bracket.
const SUM_AND_END: usize = 66;

/// The text of a line; None if the line is too short to have one.
pub fn text_on(line: &[u8]) -> Option<&[u8]> {
    if line.len() < AROUND {
        return None;
    }
    Some(&line[1..line.len() - (AROUND - 1)])
}

/// The sum at the end of a line; None if the line is too short to have one.
pub fn sum_on(line: &[u8]) -> Option<&[u8]>
    ensures { option_map (λ sum. sum.now) result ≡ partings.sum_on line.now }
{
    if line.len() < AROUND {
        return None;
    }
    Some(&line[line.len() - SUM_AND_END..line.len() - 2])
}

/// Returns true if two lines have the same sum.
pub fn have_one_sum(line: &[u8], other: &[u8]) -> bool
    ensures { result ≡ partings.have_one_sum line.now other.now }
{
    match (sum_on(line), sum_on(other)) {
        (Some(sum), Some(same)) => sum == same,
        _ => false,
    }
}

/// The number of the line that has this sum, counted from 1.
pub fn line_with_sum(bytes: &[u8], sum: &[u8]) -> Option<usize> {
    let mut number: usize = 0;
    for line in bytes.split(|byte| *byte == b'\n') {
        number = number.saturating_add(1);
        if sum_on(line) == Some(sum) {
            return Some(number);
        }
    }
    None
}
