//! Guests: who comes to a pad by a link, without an account.
//!
//! It depends on `pad_model`, and on `sha2`, since the names of guests and of their links are made from secrets.
#![tactic(auto)]

mod book;
mod guest;
pub mod laws;
mod name;
mod secret;

pub use book::{GuestBook, MAX_GUEST_DISPLAY, MAX_GUESTS};
pub use guest::Guest;
pub use name::{GUEST_NAME, LINK_NAME, is_guest, is_link_of};
pub use secret::{guest_name, link_name, opens};
