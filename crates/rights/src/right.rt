ghost use Rattle.std.specs.Prelude.{◌≡◌};
ghost use Rattle.rights.specs.Rights.{includes, rank};

/// A right of an author on a pad. Each right includes those before it.
#[derive(Clone, Copy, Debug, PartialEq, Eq)]
pub enum Right {
    /// Join, and read texts, revisions and comments.
    Read,
    /// Comment, and resolve comments.
    Comment,
    /// Insert and erase.
    Write,
    /// Grant and revoke rights.
    Own,
}

impl Right {
    /// Returns true if an author with this right has the other one too.
    pub fn includes(self, other: Right) -> bool
        ensures { result ≡ includes self other }
    {
        rank(self) >= rank(other)
    }
}

fn rank(right: Right) -> u8
    ensures { result ≡ rank right }
{
    match right {
        Right::Read => 1,
        Right::Comment => 2,
        Right::Write => 3,
        Right::Own => 4,
    }
}
