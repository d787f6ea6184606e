//! The user of a request, by the accounts file.
ghost use Rattle.std.specs.Prelude.{◌≡◌, true, Ok, Err, IfOk, MatchResult, option_map, string_bytes};
ghost use Rattle.wire_json.specs.Replies.{line_of};
ghost use Rattle.event_loop.specs.Users.{IsRequestUser, IsStranger, IsUserLine};

use pad_core::Reply;
use pad_model::{Author, Name, Refusal};
use sessions::{Accounts, Stranger};
use std::alloc::{AllocError, Global};
use wire_json::reply_line;

/// The authors of a server: those of its accounts file, and its replica number.
#[derive(Clone, Copy)]
pub struct Authors<'a> {
    pub accounts: &'a Accounts,
    pub replica: u16,
}

/// The user of a request.
#[derive(Drop)]
pub(crate) enum RequestUser {
    /// It names no user.
    Nobody,
    /// Its user is this author.
    Author(Name),
    /// Its user is no author.
    Stranger(Stranger),
}

/// Returns the reason, in words, why a user is no author.
pub(crate) fn words_of(stranger: &Stranger) -> &'static [u8] {
    match stranger {
        Stranger::NoLine =>
            b"no person line of this server's accounts file has this name. Please ask whoever runs the server to add one.\n",
        Stranger::NoName =>
            b"no name of an author, of 1 to 32 letters, can be made from this. Please ask whoever runs the server to add a person line for you.\n",
        Stranger::Taken(_) =>
            b"this server's accounts file gives your name to somebody else. Please ask whoever runs the server to add a person line for you.\n",
    }
}

/// The line that says who a user is: the answer to an author who has logged in, or that nobody has; or why the user is no
/// author.
pub(crate) fn user_line(
    alloc: Global,
    authors: Authors<'_>,
    user: Option<&[u8]>,
) -> Result<Result<String, Stranger>, AllocError>
    ensures { IfOk result (λ found. MatchResult found
        (λ line. IsUserLine authors.entry.accounts.now authors.entry.replica
        (option_map (λ u. u.now) user.entry) (string_bytes line))
        (IsStranger authors.entry.accounts.now (option_map (λ u. u.now) user.entry))) }
{
    match user_of_request(alloc, authors.accounts, user)? {
        RequestUser::Nobody => Ok(Ok(nobody_line(alloc)?)),
        RequestUser::Author(name) => Ok(Ok(author_line(alloc, name, authors.replica)?)),
        RequestUser::Stranger(stranger) => Ok(Err(stranger)),
    }
}

// The line that says which author of the server has logged in.
fn author_line(alloc: Global, name: Name, replica: u16) -> Result<String, AllocError>
    ensures { IfOk result (λ line. string_bytes line
        ≡ line_of (Ok (Reply.Hello (record { name = name; origin = replica })))) }
{
    let author = Author {
        name,
        origin: replica,
    };
    or_memory(reply_line(alloc, &Ok(Reply::Hello { author })))
}

// The line that says that nobody has logged in.
fn nobody_line(alloc: Global) -> Result<String, AllocError>
    ensures { IfOk result (λ line. string_bytes line ≡ line_of (Err Refusal.NoSession)) }
{
    or_memory(reply_line(alloc, &Err(Refusal::NoSession)))
}

// A line, or that memory ran out, which is the only reason why there is none.
fn or_memory(line: Result<String, Refusal>) -> Result<String, AllocError>
    ensures { IfOk result (λ told. line ≡ Ok told) }
{
    match line {
        Ok(line) => Ok(line),
        Err(_) => Err(AllocError),
    }
}

/// Returns the `RequestUser` of a request that names this user.
#[tactic(auto, unfolding(crate::specs::Users::author_of))]
pub(crate) fn user_of_request(
    alloc: Global,
    accounts: &Accounts,
    user: Option<&[u8]>,
) -> Result<RequestUser, AllocError>
    ensures { IfOk result (IsRequestUser accounts.now (option_map (λ u. u.now) user.entry)) }
{
    match user {
        None => Ok(RequestUser::Nobody),
        Some(user) => match accounts.author_or_stranger(alloc, user)? {
            Ok(name) => Ok(RequestUser::Author(name)),
            Err(stranger) => Ok(RequestUser::Stranger(stranger)),
        },
    }
}
