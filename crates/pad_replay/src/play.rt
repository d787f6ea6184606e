//! Plays a story: reads its lines, and writes the repeated lines and the replies.
use crate::fault::StoryFault;
use crate::line::StoryLine;
use crate::story_server::StoryServer;
use pad_model::Sequence;
use std::alloc::Global;
use std::io::{BufRead, Write};

/// Plays all lines of a reader. Each line is answered before the next one is read.
pub fn play<S: Sequence, R: BufRead, W: Write>(
    alloc: Global,
    server: &mut StoryServer<S>,
    reader: &mut R,
    writer: &mut W,
) -> Result<(), StoryFault> {
    let mut line = Vec::new(alloc);
    for number in 1..u64::MAX {
        line.clear();
        if reader.read_until(b'\n', &mut line)? == 0 {
            return Ok(());
        }
        play_line(alloc, server, without_end(line.as_slice()), number, writer)?;
        writer.flush()?;
    }
    Ok(())
}

// A line without the LF, or CR and LF, that ends it.
fn without_end(line: &[u8]) -> &[u8] {
    match line.strip_suffix(b"\n".as_slice()) {
        Some(text) => text.strip_suffix(b"\r".as_slice()).unwrap_or(text),
        None => line,
    }
}

fn play_line<S: Sequence, W: Write>(
    alloc: Global,
    server: &mut StoryServer<S>,
    line: &[u8],
    number: u64,
    writer: &mut W,
) -> Result<(), StoryFault> {
    match StoryLine::read(line) {
        StoryLine::Note => repeat(line, writer),
        StoryLine::Title { replica } => {
            server.renew(alloc, replica)?;
            repeat(line, writer)
        }
        StoryLine::End { name } => server.end(alloc, name),
        StoryLine::Ask { name, request } => tell(alloc, server, name, request, writer),
        StoryLine::NoReplica => Err(StoryFault::NoReplica { line: number }),
        StoryLine::Unknown => Err(StoryFault::NoStory { line: number }),
    }
}

fn repeat<W: Write>(line: &[u8], writer: &mut W) -> Result<(), StoryFault> {
    writer.write_all(line)?;
    writer.write_all(b"\n")?;
    Ok(())
}

/// Makes a request, and writes the reply after the session's name. An empty request has no reply.
fn tell<S: Sequence, W: Write>(
    alloc: Global,
    server: &mut StoryServer<S>,
    name: &[u8],
    request: &[u8],
    writer: &mut W,
) -> Result<(), StoryFault> {
    if request.is_empty() {
        return Ok(());
    }
    let reply = server.ask(alloc, name, request)?;
    writer.write_all(name)?;
    writer.write_all(b"\t")?;
    writer.write_all(reply.as_bytes())?;
    Ok(())
}
