//! The lines of a story.
ghost use Rattle.std.specs.Prelude.{◌≤◌, IfSome};

/// The meaning of a line of a story.
#[derive(Clone, Copy)]
pub enum StoryLine<'a> {
    /// A title: a new server begins, with this replica number if the title names one.
    Title { replica: Option<u16> },
    /// A note or an empty line.
    Note,
    /// The session with this name ends.
    End { name: &'a [u8] },
    /// The session with this name makes a request.
    Ask { name: &'a [u8], request: &'a [u8] },
    /// A title with a number that no replica can have.
    NoReplica,
    /// None of these: the line has no tab.
    Unknown,
}

impl<'a> StoryLine<'a> {
    /// Reads the bytes of a line, without its line feed. Names and requests need not be UTF-8.
    pub fn read(line: &'a [u8]) -> StoryLine<'a> {
        if line.is_empty() || line.starts_with(b"#") {
            return StoryLine::Note;
        }
        if let Some(title) = line.strip_prefix(b"=== ".as_slice()) {
            return StoryLine::title(title);
        }
        if let Some(name) = line.strip_prefix(b"!".as_slice()) {
            return StoryLine::End { name };
        }
        let mut parts = line.splitn(2, |byte| *byte == b'\t');
        match (parts.next(), parts.next()) {
            (Some(name), Some(request)) => StoryLine::Ask { name, request },
            _ => StoryLine::Unknown,
        }
    }

    // If the word before the last one of a title is `replica`, the last one has to be a replica number.
    fn title(title: &[u8]) -> StoryLine<'static> {
        let mut words = title.rsplitn(3, |byte| *byte == b' ');
        match (words.next(), words.next(), words.next()) {
            (Some(number), Some(b"replica"), Some(_)) => match read_replica(number) {
                Some(replica) => StoryLine::Title {
                    replica: Some(replica),
                },
                None => StoryLine::NoReplica,
            },
            _ => StoryLine::Title { replica: None },
        }
    }
}

/// The replica number that a word represents: 1 to 65,535.
fn read_replica(word: &[u8]) -> Option<u16>
    ensures { IfSome result (λ replica. 1 ≤ replica) }
{
    let number = str::from_utf8(word).ok()?;
    number.parse::<u16>().ok().filter(|replica| *replica >= 1)
}
