//! Refusals, by the number that replies give.
ghost use Rattle.std.specs.Prelude.{◌≡◌};
ghost use Rattle.server_counts.specs.Codes.{code_of_reply, digit};

use crate::counter::Counter;
use std::alloc::{AllocError, Global};

/// The numbers of refusals are smaller.
const CODES: u16 = 1_000;

/// The beginning of a reply that is a refusal. Its number follows.
const BEGINNING: &[u8] = b"{\"code\":";

/// The count of each refusal that was answered.
#[derive(Drop)]
pub struct RefusalCounts {
    by_code: Vec<Counter>,
}

/// The count of a refusal that was answered.
#[derive(Clone, Copy)]
pub struct CodeCount {
    pub code: u16,
    pub count: u64,
}

impl RefusalCounts {
    /// Nothing was refused yet.
    pub fn new(alloc: Global) -> Result<RefusalCounts, AllocError> {
        let mut by_code = Vec::with_capacity(alloc, usize::from(CODES))?;
        for _ in 0..CODES {
            by_code.push(Counter::new())?;
        }
        Ok(RefusalCounts { by_code })
    }

    /// Counts a refusal with this number, which is less than 1,000.
    pub fn note(&self, code: u16) {
        if let Some(count) = self.by_code.get(usize::from(code)) {
            count.add_one();
        }
    }

    /// The numbers that were answered, in ascending order, each with its count.
    pub fn list(&self, alloc: Global) -> Result<Vec<CodeCount>, AllocError> {
        let mut listed = Vec::new(alloc);
        for code in 0..CODES {
            let count = match self.by_code.get(usize::from(code)) {
                Some(counter) => counter.read(),
                None => 0,
            };
            if count > 0 {
                listed.push(CodeCount { code, count })?;
            }
        }
        Ok(listed)
    }
}

/// The number of a refusal, by the line of its reply, such as `{"code":300,"error":"NoPad","ok":false}`. None: it is another
/// reply.
pub fn code_of_reply(line: &[u8]) -> Option<u16>
    ensures { result ≡ code_of_reply line.now }
{
    match line.strip_prefix(BEGINNING) {
        Some([hundreds, tens, ones, ..]) => {
            Some(100 * digit(*hundreds) + 10 * digit(*tens) + digit(*ones))
        }
        _ => None,
    }
}

// The value of a digit; 0 for another byte.
fn digit(byte: u8) -> u16
    ensures { result ≡ digit byte }
{
    match byte {
        b'0'..=b'9' => u16::from(byte - b'0'),
        _ => 0,
    }
}
