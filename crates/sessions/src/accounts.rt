//! The accounts that may log in.
ghost use Rattle.std.specs.Prelude.{◌≡◌, Ok, IfOk, IfErr, option_copied, option_map};
ghost use Rattle.std.specs.List.{list_any};
ghost use Rattle.sessions.specs.Accounts.{has_name, has_number, is_full, with_author, with_line, with_people, outcome};
ghost use Rattle.sessions.specs.Accounts.{accounts_of, Tells, has_account, is_author, is_peer, lets_in};
ghost use Rattle.sessions.specs.AccountsFile.{a_peer};
ghost use Rattle.sessions.specs.People.{author_of, display_of, with_person};
ghost use Rattle.sessions.specs.Said.{said};
ghost use Rattle.sessions.specs.declared.accounts.AccountsError.TheVariants.{Memory};

use crate::line::{AccountLine, cut_line, read_line};
use crate::mistake::Mistake;
use crate::people::People;
use crate::secret::Secret;
use crate::word::Word;
use guests::opens;
use pad_model::Name;
use std::alloc::{AllocError, AllocFailed, Global};
use std::marker::Model;

/// The most accounts that there can be, authors and peers together.
pub const MAX_ACCOUNTS: u64 = 1_000;

/// The reason an accounts file could not be read.
#[derive(Clone, Copy, Debug, PartialEq, Eq)]
pub enum AccountsError {
    /// 500: a line is invalid. `line` is the number of the first such line, from 1, and `mistake` is what is wrong with
    /// it.
    BadLine { line: u64, mistake: Mistake },
    /// 900: out of memory.
    Memory,
}

impl From<AllocError> for AccountsError {
    ghost from_gives = { λ _ error. error ≡ Memory };

    fn from(_refused: AllocError) -> AccountsError {
        AccountsError::Memory
    }
}

/// An author who may log in.
#[derive(Drop)]
pub struct AuthorAccount {
    name: Name,
    secret: Secret,
}

/// A peer: its replica number, its token for both directions, and the address at which it listens.
#[derive(Debug, Drop)]
pub struct Peer {
    pub number: u16,
    pub token: Word,
    pub address: Word,
}

/// The authors and peers that may log in, the persons, whether any user of a proxy is an author, and whether guests may log in.
#[derive(Drop)]
pub struct Accounts {
    authors: Vec<AuthorAccount>,
    peers: Vec<Peer>,
    people: People,
    any_user: bool,
    guests: bool,
}

impl Model for Accounts {
    ghost use Rattle.sessions.specs.Accounts.{Accounts};

    ghost Value = { Accounts };

    ghost view = { λ a. record {
      authors = a.authors.items;
      peers = a.peers.items;
      people = a.people;
      any_user = a.any_user;
      guests = a.guests;
    } };
}

impl Accounts {
    /// Reads a whole accounts file. By the file alone, a user of a proxy who is no person is no author, and nobody is a guest.
    pub fn read(alloc: Global, bytes: &[u8]) -> Result<Accounts, AccountsError>
        ensures ok { IfOk result (λ accounts. accounts_of bytes.now ≡ Ok accounts) }
        ensures refused { IfErr result (Tells bytes.now) }
    {
        let mut accounts = Accounts {
            authors: Vec::new(alloc),
            peers: Vec::new(alloc),
            people: People::new(alloc),
            any_user: false,
            guests: false,
        };
        let mut rest = bytes;
        let mut line = 0;
        while !rest.is_empty() {
            let (text, after) = cut_line(rest);
            line += 1;
            let mistake = match read_line(text) {
                Ok(said) => accounts.add(alloc, said)?,
                Err(mistake) => Some(mistake),
            };
            if let Some(mistake) = mistake {
                return Err(AccountsError::BadLine { line, mistake });
            }
            rest = after;
        }
        Ok(accounts)
    }

    /// These accounts, where any user of a proxy is an author, or only those are who are persons.
    pub fn with_any_user(self, any_user: bool) -> Accounts
        ensures { result ≡ record self { any_user = any_user } }
    {
        Accounts { any_user, ..self }
    }

    /// These accounts, where guests may log in or not.
    pub fn with_guests(self, guests: bool) -> Accounts
        ensures { result ≡ record self { guests = guests } }
    {
        Accounts { guests, ..self }
    }

    /// Returns true if any user of a proxy is an author.
    pub(crate) fn takes_any_user(&self) -> bool
        ensures { result ≡ self.now.any_user }
    {
        self.any_user
    }

    /// Returns true if the author has this token or its hash, or is the guest with this token. No guest has the name of an account.
    pub fn author(&self, name: &str, token: &str) -> bool
        ensures { result ≡ is_author name.now token.now self.now }
    {
        self.has_account(name, token) || self.lets_in(name, token)
    }

    /// Returns true if an account has this name, and this token or its hash.
    fn has_account(&self, name: &str, token: &str) -> bool
        ensures { result ≡ has_account name.now token.now self.now }
    {
        self.authors.iter().any(|account| account.name.is(name) && account.secret.opens(token))
    }

    /// Returns true if this is the name of the guest with this token, guests may log in, and no account has the name.
    fn lets_in(&self, name: &str, token: &str) -> bool
        ensures { result ≡ lets_in name.now token.now self.now }
    {
        self.guests && !self.has_author(name) && opens(name, token)
    }

    /// Returns true if the peer with this number has this token. No peer has a number above `MAX_REPLICA`.
    pub fn peer(&self, number: u64, token: &str) -> bool
        ensures { result ≡ is_peer number token.now self.now }
    {
        self.peers.iter().any(|peer| u64::from(peer.number) == number && peer.token.is(token))
    }

    /// The peers, in the order of their lines.
    pub fn peers(&self) -> &[Peer]
        ensures { result.now ≡ self.now.peers }
    {
        self.peers.as_slice()
    }

    /// The name of the person with this ID, by which a proxy knows it.
    pub fn author_of(&self, id: &[u8]) -> Option<&Name>
        ensures { option_copied result ≡ author_of id.now self.now.people }
    {
        self.people.author_of(id)
    }

    /// The display name of the person with this name.
    pub fn display_of(&self, name: &Name) -> Option<&str>
        ensures { option_map (λ display. display.now) result ≡ display_of name.now self.now.people }
    {
        self.people.display_of(name)
    }

    /// Adds what a line says, or returns why it cannot be added.
    fn add(&mut self, alloc: Global, line: AccountLine<'_>) -> Result<Option<Mistake>, AllocError>
        ensures { IfOk result (λ refused. with_line self.old (Ok (said line.entry))
            ≡ outcome refused self.new) }
    {
        match line {
            AccountLine::Skip => Ok(None),
            AccountLine::Author { name, token } => {
                let token = Word::from_str(alloc, token)?;
                self.add_author(alloc, name, Secret::Token(token))
            }
            AccountLine::Hash { name, hash } => {
                let hash = Word::from_str(alloc, hash)?;
                self.add_author(alloc, name, Secret::Hash(hash))
            }
            AccountLine::Peer {
                number,
                token,
                address,
            } => self.add_peer(alloc, number, token, address),
            AccountLine::Person { name, id, display } => self.add_person(alloc, name, id, display),
        }
    }

    fn add_author(
        &mut self,
        alloc: Global,
        name: &str,
        secret: Secret,
    ) -> Result<Option<Mistake>, AllocError>
        ensures { IfOk result (λ refused. with_author self.old name.now secret
            ≡ outcome refused self.new) }
    {
        if self.is_full() {
            return Ok(Some(Mistake::TooManyAccounts));
        }
        if self.has_author(name) {
            return Ok(Some(Mistake::NameTwice));
        }
        let account = AuthorAccount {
            name: Name::from_str(alloc, name)?,
            secret,
        };
        self.authors.push(account)?;
        Ok(None)
    }

    fn add_peer(
        &mut self,
        alloc: Global,
        number: u16,
        token: &str,
        address: &str,
    ) -> Result<Option<Mistake>, AllocError>
        ensures { IfOk result (λ refused. with_line self.old
            (Ok (a_peer number token.now address.now)) ≡ outcome refused self.new) }
    {
        if self.is_full() {
            return Ok(Some(Mistake::TooManyAccounts));
        }
        if self.has_peer(number) {
            return Ok(Some(Mistake::NumberTwice));
        }
        let peer = Peer {
            number,
            token: Word::from_str(alloc, token)?,
            address: Word::from_str(alloc, address)?,
        };
        self.peers.push(peer)?;
        Ok(None)
    }

    fn add_person(
        &mut self,
        alloc: Global,
        name: &str,
        id: &[u8],
        display: &str,
    ) -> Result<Option<Mistake>, AllocError>
        ensures { IfOk result (λ refused. with_people self.old
            (with_person name.now id.now display.now self.old.people) ≡ outcome refused self.new) }
    {
        self.people.add(alloc, name, id, display)
    }

    fn is_full(&self) -> bool
        ensures { result ≡ is_full self.now }
    {
        self.authors.len() as u64 + self.peers.len() as u64 >= MAX_ACCOUNTS
    }

    pub(crate) fn has_author(&self, name: &str) -> bool
        ensures { result ≡ list_any (has_name name.now) self.now.authors }
    {
        self.authors.iter().any(|account| account.name.is(name))
    }

    fn has_peer(&self, number: u16) -> bool
        ensures { result ≡ list_any (has_number number) self.now.peers }
    {
        self.peers.iter().any(|peer| peer.number == number)
    }
}
