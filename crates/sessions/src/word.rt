ghost use Rattle.std.specs.Prelude.{◌≡◌, IfOk, bytes_eq, length};
ghost use Rattle.sessions.specs.Tokens.{differences};

use std::alloc::{AllocError, Global};
use std::marker::Model;

/// A token, the hash of one, an address or a display name, which contracts see as its bytes.
#[derive(Debug, Drop)]
pub struct Word {
    text: String,
}

impl Model for Word {
    ghost use Rattle.std.specs.Prelude.{ℕ, List, string_bytes};

    ghost Value = { List ℕ };

    ghost view = { λ w. string_bytes w.text };
}

impl Clone for Word {
    ghost is_clone = { λ s t. t ≡ s };

    fn clone(&self) -> Result<Word, AllocError> {
        Ok(Word {
            text: self.text.clone()?,
        })
    }
}

impl Word {
    pub fn from_str(alloc: Global, text: &str) -> Result<Word, AllocError>
        ensures { IfOk result (λ w. w ≡ text.now) }
    {
        Ok(Word {
            text: String::from_str(alloc, text)?,
        })
    }

    pub fn as_str(&self) -> &str
        ensures { result.now ≡ self.now }
    {
        self.text.as_str()
    }

    /// Returns true if the token has exactly this text. If the lengths are equal, it counts the bytes that differ. So
    /// it reads every byte, and its steps do not reveal where a guess first differs. They do reveal whether the
    /// length is right, and nothing is promised about the time of a step.
    pub fn is(&self, text: &str) -> bool
        ensures { result ≡ bytes_eq self.now text.now }
    {
        self.is_bytes(text.as_bytes())
    }

    /// Returns true if the word has exactly these bytes. They are compared in the same way.
    pub fn is_bytes(&self, bytes: &[u8]) -> bool
        ensures { result ≡ bytes_eq self.now bytes.now }
    {
        are_same(self.as_str().as_bytes(), bytes)
    }
}

fn are_same(a: &[u8], b: &[u8]) -> bool
    ensures { result ≡ bytes_eq a.now b.now }
{
    a.len() == b.len() && count_differences(a, b) == 0
}

/// The number of places at which two texts differ.
fn count_differences(a: &[u8], b: &[u8]) -> usize
    requires { length a.now ≡ length b.now }
    ensures { result ≡ differences a.now b.now }
{
    let mut count = 0;
    for i in 0..a.len() {
        count += usize::from(a[i] != b[i]);
    }
    count
}
