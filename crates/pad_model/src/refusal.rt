//! The reasons to refuse a request: each refusal has a name and a number.
ghost use Rattle.std.specs.Prelude.{◌≡◌, codes};
ghost use Rattle.pad_model.specs.Refusals.{code_of, name_of};
ghost use Rattle.pad_model.specs.declared.refusal.Refusal.TheVariants.{Memory};

use std::alloc::{AllocError, AllocFailed};

/// The reason why a request or a call was refused. A refused call changes nothing, unless its documentation says
/// otherwise.
#[derive(Clone, Copy, Debug, PartialEq, Eq)]
pub enum Refusal {
    /// 100: a line is longer than 8 MiB.
    TooLong,
    /// 101: a line is not JSON.
    NotJson,
    /// 102: a line is JSON, but not a request.
    NotRequest,
    /// 200: the request needs an author's session.
    NoSession,
    /// 201: the name or number is unknown, or the token is wrong.
    BadToken,
    /// 202: the session has already logged in.
    HaveSession,
    /// 203: a scan is under way, or the session is ending.
    Busy,
    /// 300: no pad has this name.
    NoPad,
    /// 301: a pad with this name already exists.
    PadExists,
    /// 302: the server has no room for one more pad.
    NoSlot,
    /// 303: the name is not 1 to 32 characters of a-z, 0-9 and -.
    BadName,
    /// 310: the session has not joined the pad.
    NotJoined,
    /// 311: the session has already joined the pad.
    Joined,
    /// 312: the author lacks the right.
    Denied,
    /// 313: the pad has as many sessions present as the server allows.
    Crowded,
    /// 314: the pad has no visit number left.
    VisitsSpent,
    /// 315: the owner's right does not change by a grant.
    OwnerKept,
    /// 316: 256 names have a right on the pad, including the owner's.
    GrantsFull,
    /// 317: the pad has made all of its 64 seats.
    SeatsGone,
    /// 318: a seat does not match its pad, or is missing.
    SeatsOut,
    /// 319: the server has 1,024 actors.
    ActorsFull,
    /// 320: the pad has no such revision.
    NoRevision,
    /// 321: a position is past the end of the revision.
    OutOfRange,
    /// 322: a text or a length is empty.
    Empty,
    /// 323: a text, a length or a count is too large.
    TooMuch,
    /// 324: the pad has 4,000,000 characters.
    PadFull,
    /// 325: no counter is left for a new character.
    ClockFull,
    /// 326: there is no such comment.
    NoComment,
    /// 327: the pad has 200,000 operations.
    LogFull,
    /// 328: the pad has 10,000 comments.
    CommentsFull,
    /// 329: no visit of this author has the number.
    NoVisit,
    /// 330: the pad is closed.
    PadClosed,
    /// 400: the operation breaks a limit or has a faulty form.
    BadOp,
    /// 402: 256 operations are held back.
    HoldFull,
    /// 403: the operation does not fit the pad.
    PeerFault,
    /// 404: the request needs a peer's session.
    NotPeer,
    /// 405: version 1 of the wire cannot express the answer.
    OldPeer,
    /// 410: a stamp is outside its limits.
    BadStamp,
    /// 900: out of memory.
    Memory,
    /// 901: the disk that keeps the pads is full.
    StoreFull,
}

impl Refusal {
    /// The number that replies give.
    pub fn code(self) -> u16
        ensures { result ≡ code_of self }
    {
        match self {
            Refusal::TooLong => 100,
            Refusal::NotJson => 101,
            Refusal::NotRequest => 102,
            Refusal::NoSession => 200,
            Refusal::BadToken => 201,
            Refusal::HaveSession => 202,
            Refusal::Busy => 203,
            Refusal::NoPad => 300,
            Refusal::PadExists => 301,
            Refusal::NoSlot => 302,
            Refusal::BadName => 303,
            Refusal::NotJoined => 310,
            Refusal::Joined => 311,
            Refusal::Denied => 312,
            Refusal::Crowded => 313,
            Refusal::VisitsSpent => 314,
            Refusal::OwnerKept => 315,
            Refusal::GrantsFull => 316,
            Refusal::SeatsGone => 317,
            Refusal::SeatsOut => 318,
            Refusal::ActorsFull => 319,
            Refusal::NoRevision => 320,
            Refusal::OutOfRange => 321,
            Refusal::Empty => 322,
            Refusal::TooMuch => 323,
            Refusal::PadFull => 324,
            Refusal::ClockFull => 325,
            Refusal::NoComment => 326,
            Refusal::LogFull => 327,
            Refusal::CommentsFull => 328,
            Refusal::NoVisit => 329,
            Refusal::PadClosed => 330,
            Refusal::BadOp => 400,
            Refusal::HoldFull => 402,
            Refusal::PeerFault => 403,
            Refusal::NotPeer => 404,
            Refusal::OldPeer => 405,
            Refusal::BadStamp => 410,
            Refusal::Memory => 900,
            Refusal::StoreFull => 901,
        }
    }

    /// The name that replies give.
    pub fn name(self) -> &'static str
        ensures { result.now ≡ name_of self }
    {
        match self {
            Refusal::TooLong => "TooLong",
            Refusal::NotJson => "NotJson",
            Refusal::NotRequest => "NotRequest",
            Refusal::NoSession => "NoSession",
            Refusal::BadToken => "BadToken",
            Refusal::HaveSession => "HaveSession",
            Refusal::Busy => "Busy",
            Refusal::NoPad => "NoPad",
            Refusal::PadExists => "PadExists",
            Refusal::NoSlot => "NoSlot",
            Refusal::BadName => "BadName",
            Refusal::NotJoined => "NotJoined",
            Refusal::Joined => "Joined",
            Refusal::Denied => "Denied",
            Refusal::Crowded => "Crowded",
            Refusal::VisitsSpent => "VisitsSpent",
            Refusal::OwnerKept => "OwnerKept",
            Refusal::GrantsFull => "GrantsFull",
            Refusal::SeatsGone => "SeatsGone",
            Refusal::SeatsOut => "SeatsOut",
            Refusal::ActorsFull => "ActorsFull",
            Refusal::NoRevision => "NoRevision",
            Refusal::OutOfRange => "OutOfRange",
            Refusal::Empty => "Empty",
            Refusal::TooMuch => "TooMuch",
            Refusal::PadFull => "PadFull",
            Refusal::ClockFull => "ClockFull",
            Refusal::NoComment => "NoComment",
            Refusal::LogFull => "LogFull",
            Refusal::CommentsFull => "CommentsFull",
            Refusal::NoVisit => "NoVisit",
            Refusal::PadClosed => "PadClosed",
            Refusal::BadOp => "BadOp",
            Refusal::HoldFull => "HoldFull",
            Refusal::PeerFault => "PeerFault",
            Refusal::NotPeer => "NotPeer",
            Refusal::OldPeer => "OldPeer",
            Refusal::BadStamp => "BadStamp",
            Refusal::Memory => "Memory",
            Refusal::StoreFull => "StoreFull",
        }
    }
}

impl From<AllocError> for Refusal {
    ghost from_gives = { λ _ refusal. refusal ≡ Memory };

    fn from(_refused: AllocError) -> Refusal {
        Refusal::Memory
    }
}

impl<T: Drop> From<AllocFailed<T>> for Refusal {
    ghost from_gives = { λ _ refusal. refusal ≡ Memory };

    fn from(_refused: AllocFailed<T>) -> Refusal {
        Refusal::Memory
    }
}
