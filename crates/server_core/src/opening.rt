//! Makes a session an author's or a peer's, and checks the session that a request requires.
ghost use Rattle.std.specs.Prelude.{◌≡◌, MatchResult};
ghost use Rattle.pad_model.specs.Answers.{Answers};
ghost use Rattle.server_core.specs.Opening.{is_nobody, is_of_author, is_of_guest, is_unsayable};
ghost use Rattle.server_core.specs.Opening as opening;

use guests::is_guest;
use pad_core::{Act, Person, Reply, session_refusal};
use pad_model::{Author, Items, Name, OLD_REPLICA, Refusal, Version, Who};
use sessions::{Accounts, Session, Word};
use std::alloc::Global;

/// Logs in an author.
pub fn hello(
    alloc: Global,
    replica: u16,
    accounts: &Accounts,
    name: &Name,
    token: &Word,
    session: &mut Session,
) -> Result<Reply, Refusal>
    ensures who { Answers session.old.who
        (opening.hello replica accounts.now name.now token.now session.old.who) result
        session.new.who }
    ensures rooms { session.new.rooms ≡ session.old.rooms }
{
    if !is_nobody(session.who()) {
        return Err(Refusal::HaveSession);
    }
    if !(name.is_well_formed() && accounts.author(name.as_str(), token.as_str())) {
        return Err(Refusal::BadToken);
    }
    let author = Author {
        name: name.clone()?,
        origin: replica,
    };
    session.set(Who::Author(name.clone()?));
    Ok(Reply::Hello { author })
}

/// Logs in a peer. No peer has a number that is not a replica's.
pub fn peer(
    replica: u16,
    accounts: &Accounts,
    number: u64,
    token: &Word,
    version: Version,
    session: &mut Session,
) -> Result<Reply, Refusal>
    ensures who { opening.peer replica accounts.now number token.now version session.old.who
        ≡ (result, session.new.who) }
    ensures rooms { session.new.rooms ≡ session.old.rooms }
{
    if !is_nobody(session.who()) {
        return Err(Refusal::HaveSession);
    }
    let Ok(known) = u16::try_from(number) else {
        return Err(Refusal::BadToken);
    };
    if known == 0 || !accounts.peer(number, token.as_str()) {
        return Err(Refusal::BadToken);
    }
    if is_unsayable(replica, version) {
        return Err(Refusal::OldPeer);
    }
    session.set(Who::Peer {
        number: known,
        version,
    });
    Ok(Reply::Peer { replica, version })
}

/// Answers with the display names of those of these authors who have one.
pub fn people(
    alloc: Global,
    accounts: &Accounts,
    authors: &Items<Name>,
    who: &Who,
) -> Result<Reply, Refusal>
    ensures { Answers who.now (opening.people accounts.now authors.now who.now) result who.now }
{
    if !is_of_author(who) {
        return Err(Refusal::NoSession);
    }
    let people = people_of(alloc, accounts, authors.as_slice())?;
    Ok(Reply::People { people })
}

fn people_of(alloc: Global, accounts: &Accounts, authors: &[Name]) -> Result<Items<Person>, Refusal>
    ensures { MatchResult result (λ people. people ≡ opening.people_of accounts.now authors.now)
        (λ e. e ≡ Refusal.Memory) }
{
    let mut people = Items::new(alloc);
    for author in authors {
        if let Some(name) = accounts.shown_for(alloc, author)? {
            let author = author.clone()?;
            people.push(Person { author, name })?;
        }
    }
    Ok(people)
}

/// Makes a session that of a peer, for exchange with it.
pub fn relay(replica: u16, number: u16, session: &mut Session) -> Result<Reply, Refusal>
    ensures who { opening.relay replica number session.old.who ≡ (result, session.new.who) }
    ensures rooms { session.new.rooms ≡ session.old.rooms }
{
    let taken = !is_nobody(session.who());
    if taken {
        return Err(Refusal::HaveSession);
    }
    let version = Version::Two;
    session.set(Who::Peer { number, version });
    Ok(Reply::Peer { replica, version })
}

/// The reason to refuse a creation before any cell is visited, if there is one.
pub fn create_refusal(who: &Who, pad: &Name) -> Option<Refusal>
    ensures { result ≡ opening.create_refusal who.now pad.now }
{
    if !is_of_author(who) {
        return Some(Refusal::NoSession);
    }
    if !pad.is_well_formed() {
        return Some(Refusal::BadName);
    }
    if is_of_guest(who) {
        Some(Refusal::Denied)
    } else {
        None
    }
}

/// Returns true if a session is a guest's.
fn is_of_guest(who: &Who) -> bool
    ensures { result ≡ is_of_guest who.now }
{
    match who {
        Who::Author(name) => is_guest(name),
        Who::Nobody | Who::Peer { .. } => false,
    }
}

/// The reason to refuse a list of pads, if there is one.
pub fn pads_refusal(who: &Who) -> Option<Refusal>
    ensures { result ≡ opening.pads_refusal who.now }
{
    if is_of_author(who) {
        None
    } else {
        Some(Refusal::NoSession)
    }
}

/// The reason to refuse an act before any cell is visited, if there is one.
pub fn act_refusal(who: &Who, pad: &Name, act: &Act) -> Option<Refusal>
    ensures { result ≡ opening.act_refusal who.now pad.now act.now }
{
    match session_refusal(who, act) {
        Some(refusal) => Some(refusal),
        None if !pad.is_well_formed() => Some(Refusal::BadName),
        None => None,
    }
}

/// Returns true if a session is unauthenticated.
pub fn is_nobody(who: &Who) -> bool
    ensures { result ≡ is_nobody who.now }
{
    matches!(who, Who::Nobody)
}

fn is_of_author(who: &Who) -> bool
    ensures { result ≡ is_of_author who.now }
{
    matches!(who, Who::Author(_))
}

/// Returns true if this version of the wire cannot express a server's number.
fn is_unsayable(replica: u16, version: Version) -> bool
    ensures { result ≡ is_unsayable replica version }
{
    match version {
        Version::One => replica > OLD_REPLICA,
        Version::Two => false,
    }
}
