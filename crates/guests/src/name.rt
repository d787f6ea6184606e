//! The names of guests.
ghost use Rattle.std.specs.Prelude.{◌≡◌, bytes_eq};
ghost use Rattle.guests.specs.Guests.{is_guest, link_of};

use pad_model::Name;

/// The bytes of a guest's name.
pub const GUEST_NAME: usize = 32;

/// The bytes of the name of a link by which guests come.
pub const LINK_NAME: usize = 19;

/// Returns true if a name is a guest's, such as `guest-abcdefghijklmnopqrstuvwxyz`. No account has such a name unless its file
/// was written so.
pub fn is_guest(name: &Name) -> bool
    ensures { result ≡ is_guest name.now }
{
    let bytes = name.as_str().as_bytes();
    bytes.len() == GUEST_NAME && bytes.starts_with(b"guest-")
}

/// Returns true if this is the name of the link by which a guest came.
pub fn is_link_of(link: &Name, guest: &Name) -> bool
    ensures { result ≡ bytes_eq (link_of guest.now) link.now }
{
    let bytes = guest.as_str().as_bytes();
    &bytes[..bytes.len().min(LINK_NAME)] == link.as_str().as_bytes()
}
