//! The mistakes of an accounts file in words.
use sessions::Mistake;

/// Returns the fault of a line of the accounts file, and the form that is expected.
pub fn reason_of(mistake: Mistake) -> &'static str {
    match mistake {
        Mistake::Tab => "the line has a tab; words are separated by one space",
        Mistake::ExtraSpace => "a space is at the start, at the end or after another space",
        Mistake::UnknownWord => "the first word is none of author, hash, peer and person",
        Mistake::NoName => "the name is missing: author NAME TOKEN",
        Mistake::NoNumber => "the number is missing: peer NUMBER TOKEN HOST:PORT",
        Mistake::NoToken => "the token is missing",
        Mistake::NoAddress => "the address is missing: peer NUMBER TOKEN HOST:PORT",
        Mistake::NoHashName => "the name is missing: hash NAME SHA256",
        Mistake::NoHash => "the hash is missing: hash NAME SHA256",
        Mistake::NoPerson => "the name is missing: person NAME ID DISPLAY NAME",
        Mistake::NoId => "the ID is missing: person NAME ID DISPLAY NAME, with - for no ID",
        Mistake::NoDisplay => "the display name is missing: person NAME ID DISPLAY NAME",
        Mistake::ExtraWord => "the line has too many words",
        Mistake::LongName => "the name is longer than 32 bytes",
        Mistake::NameByte => "the name has a character other than a-z, 0-9 and -",
        Mistake::NotDigits => "the number has a character that is not a digit",
        Mistake::LeadingZero => "the number is 0 or begins with 0",
        Mistake::LargeNumber => "the number is above 65535",
        Mistake::LongToken => "the token is longer than 64 bytes",
        Mistake::TokenByte => "the token has a byte other than 0x21 to 0x7E",
        Mistake::LongAddress => "the address is longer than 255 bytes",
        Mistake::AddressByte => "the address has a byte other than 0x21 to 0x7E",
        Mistake::NoColon => "the address has no colon: HOST:PORT",
        Mistake::HashLength => "the hash is not 64 digits long: the SHA-256 of the token in hex",
        Mistake::HashDigit => "the hash has a character other than 0-9 and a-f",
        Mistake::LongId => "the ID is longer than 255 bytes",
        Mistake::IdByte => "the ID has a byte other than 0x21 to 0x7E",
        Mistake::DisplayBytes => "the display name is not UTF-8",
        Mistake::DisplayControl => "the display name has a control character",
        Mistake::LongDisplay => "the display name is longer than 60 characters",
        Mistake::NameTwice => "an earlier line has this author's name",
        Mistake::NumberTwice => "an earlier line has this peer's number",
        Mistake::TooManyAccounts => "there are more than 1000 accounts",
        Mistake::PersonTwice => "an earlier line has this person's name",
        Mistake::IdTwice => "an earlier line has this person's ID",
        Mistake::TooManyPeople => "there are more than 100000 persons",
    }
}
