//! The mistakes that a line of an accounts file can have.

/// The first mistake in a line. An author's line is `author NAME TOKEN` or `hash NAME SHA256`, a peer's is
/// `peer NUMBER TOKEN HOST:PORT`, a person's is `person NAME ID DISPLAY NAME`.
#[derive(Clone, Copy, Debug, PartialEq, Eq)]
pub enum Mistake {
    /// The line has a tab.
    Tab,
    /// The line has a space at its start, at its end or after another space.
    ExtraSpace,
    /// The first word is none of `author`, `hash`, `peer` and `person`.
    UnknownWord,
    /// The line ends after `author`.
    NoName,
    /// The line ends after `peer`.
    NoNumber,
    /// The line ends before its token.
    NoToken,
    /// The line ends before its address.
    NoAddress,
    /// The line ends after `hash`.
    NoHashName,
    /// The line ends before its hash.
    NoHash,
    /// The line ends after `person`.
    NoPerson,
    /// The line ends before its ID.
    NoId,
    /// The line ends before its display name.
    NoDisplay,
    /// The line has more words than its form.
    ExtraWord,
    /// The name has more than 32 bytes.
    LongName,
    /// The name has a byte other than `a-z`, `0-9` and `-`.
    NameByte,
    /// The number has a byte that is not a digit.
    NotDigits,
    /// The number begins with 0.
    LeadingZero,
    /// The number is above 65,535.
    LargeNumber,
    /// The token has more than 64 bytes.
    LongToken,
    /// The token has a byte outside 0x21 to 0x7E.
    TokenByte,
    /// The address has more than 255 bytes.
    LongAddress,
    /// The address has a byte outside 0x21 to 0x7E.
    AddressByte,
    /// The address has no colon.
    NoColon,
    /// The hash has not 64 bytes.
    HashLength,
    /// The hash has a byte other than `0-9` and `a-f`.
    HashDigit,
    /// The ID has more than 255 bytes.
    LongId,
    /// The ID has a byte outside 0x21 to 0x7E.
    IdByte,
    /// The display name is not UTF-8.
    DisplayBytes,
    /// The display name has a control character.
    DisplayControl,
    /// The display name has more than 60 characters.
    LongDisplay,
    /// An earlier line has the same name, as an author's.
    NameTwice,
    /// An earlier line has the same number.
    NumberTwice,
    /// 1,000 accounts come before it.
    TooManyAccounts,
    /// An earlier line has the same name, as a person's.
    PersonTwice,
    /// An earlier line has the same ID.
    IdTwice,
    /// 100,000 persons come before it.
    TooManyPeople,
}
