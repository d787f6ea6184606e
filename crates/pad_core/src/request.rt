//! A session's requests to its server.
ghost use Rattle.std.specs.Prelude.{◌≡◌};

use crate::act::Act;
use pad_model::{Items, Name, Version};
use sessions::Word;
use std::alloc::AllocError;

/// The most authors whose display names can be asked for at once.
pub const MAX_PEOPLE_ASKED: u64 = 100;

/// A session's requests to its server.
#[derive(Debug, Drop)]
pub enum Request {
    /// Begins an author's session.
    Hello {
        name: Name,
        token: Word,
    },
    /// Begins a peer's session. No account has a number that no replica can have.
    Peer {
        number: u64,
        token: Word,
        version: Version,
    },
    /// Creates a pad and joins it.
    Create {
        pad: Name,
    },
    /// Lists the pads that the author may read.
    Pads,
    /// Asks for the display names of these authors.
    People {
        names: Items<Name>,
    },
    /// Does an act on a pad.
    On {
        pad: Name,
        act: Act,
    },
}

impl Clone for Request {
    ghost is_clone = { λ s t. t ≡ s };

    fn clone(&self) -> Result<Request, AllocError> {
        Ok(match self {
            Request::Hello { name, token } => Request::Hello {
                name: name.clone()?,
                token: token.clone()?,
            },
            Request::Peer {
                number,
                token,
                version,
            } => Request::Peer {
                number: *number,
                token: token.clone()?,
                version: *version,
            },
            Request::Create { pad } => Request::Create { pad: pad.clone()? },
            Request::Pads => Request::Pads,
            Request::People { names } => Request::People {
                names: names.clone()?,
            },
            Request::On { pad, act } => Request::On {
                pad: pad.clone()?,
                act: act.clone()?,
            },
        })
    }
}
