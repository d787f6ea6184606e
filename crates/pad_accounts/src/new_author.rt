//! An author who is added.

/// An author who is added, with their token.
#[derive(Drop)]
pub struct NewAuthor<'a> {
    pub name: &'a [u8],
    pub token: Vec<u8>,
}

/// The form in which the accounts file has the token of an author who is added.
#[derive(Clone, Copy)]
pub enum SecretKind {
    /// The token.
    Token,
    /// Its SHA-256.
    Hash,
}
