//! Finds the end of a line, and a carriage return before it.
ghost use Rattle.std.specs.Prelude.{◌≡◌, ◌+◌, ◌≤◌, length, drop, take};
ghost use Rattle.std.specs.List.{position};
ghost use Rattle.wire_lines.specs.Lines.{is_feed, line_end, without_return};

/// The most bytes of a line: 8 MiB. The line feed does not count, but a carriage return does.
pub const MAX_LINE: usize = 8_388_608;

/// The end of the line that contains `from`: the first line feed from there on, or the end of the bytes.
pub fn end_from(held: &[u8], from: usize) -> usize
    requires { from ≤ length held.now }
    ensures end { result ≡ from + line_end (drop from held.now) }
    ensures bound { result ≤ length held.now }
{
    match find_feed(&held[from..]) {
        Some(offset) => from + offset,
        None => held.len(),
    }
}

fn find_feed(bytes: &[u8]) -> Option<usize>
    ensures { result ≡ position is_feed bytes.now }
{
    bytes.iter().position(|byte| *byte == b'\n')
}

/// The end of the first line without one carriage return at its end. Its line feed is at `feed`.
pub fn end_without_return(bytes: &[u8], feed: usize) -> usize
    requires { feed ≤ length bytes.now }
    ensures line { take result bytes.now ≡ without_return (take feed bytes.now) }
    ensures bound { result ≤ feed }
{
    if feed > 0 && bytes[feed - 1] == b'\r' {
        feed - 1
    } else {
        feed
    }
}
