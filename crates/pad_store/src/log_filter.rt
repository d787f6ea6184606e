//! The operations that the log lists.
ghost use Rattle.std.specs.Prelude.{◌≡◌};
ghost use Rattle.pad_store.specs.Choices as choices;

/// The operations and the names of revisions that the log lists: those that meet all given conditions.
#[derive(Clone, Copy)]
pub struct LogFilter<'a> {
    /// The first revision.
    pub from: Option<u32>,
    /// The name of the author.
    pub by: Option<&'a str>,
    /// The moment before which nothing is listed, in milliseconds since 1970.
    pub since: Option<u64>,
    /// The moment after which nothing is listed, in milliseconds since 1970.
    pub until: Option<u64>,
}

impl LogFilter<'_> {
    /// Returns true if an author's action at a moment, which is in milliseconds since 1970, is listed. The present
    /// revision was then the one with this number.
    pub fn lists(self, rev: u64, author: &str, at: u64) -> bool
        ensures { result ≡ choices.lists self.entry rev author.now at }
    {
        self.is_from(rev) && self.is_by(author) && self.is_since(at) && self.is_until(at)
    }

    // Returns true if a revision is not before the first one.
    fn is_from(self, rev: u64) -> bool
        ensures { result ≡ choices.is_from self.entry.from rev }
    {
        match self.from {
            Some(from) => u64::from(from) <= rev,
            None => true,
        }
    }

    // Returns true if an author is the one whose operations are listed.
    fn is_by(self, author: &str) -> bool
        ensures { result ≡ choices.is_by self.entry.by author.now }
    {
        match self.by {
            Some(by) => author == by,
            None => true,
        }
    }

    // Returns true if a moment is not before the first one.
    fn is_since(self, at: u64) -> bool
        ensures { result ≡ choices.is_since self.entry.since at }
    {
        match self.since {
            Some(since) => since <= at,
            None => true,
        }
    }

    // Returns true if a moment is not after the last one.
    fn is_until(self, at: u64) -> bool
        ensures { result ≡ choices.is_until self.entry.until at }
    {
        match self.until {
            Some(until) => at <= until,
            None => true,
        }
    }
}
