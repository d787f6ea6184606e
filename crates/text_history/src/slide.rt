//! A change to the visible text.
ghost use Rattle.std.specs.Prelude.{◌≡◌, ◌≤◌};

use pad_model::Stamp;
use std::marker::Model;

/// A stretch of characters that one revision showed or hid.
///
/// It takes 32 bytes: counts of a text's characters fit in 32 bits, and the stamp's replica shares a word with them.
#[derive(Clone, Copy, Debug)]
pub struct Slide {
    rev: u64,
    counter: u64,
    at: u32,
    len: u32,
    replica: u16,
    shows: bool,
}

impl Model for Slide {
    ghost use Rattle.pad_model.specs.Stamp.{IsInLimits};
    ghost use Rattle.text_history.specs.Slide.{Slide};

    ghost Value = { Slide };

    ghost view = { λ s. record {
      rev = s.rev;
      at = s.at;
      first = record { counter = s.counter; replica = s.replica };
      len = s.len;
      shows = s.shows;
    } };

    ghost invariant = { λ s. IsInLimits s.counter s.replica };

    ghost inverse = { λ v. record {
      rev = v.rev;
      counter = v.first.counter;
      at = v.at;
      len = v.len;
      replica = v.first.replica;
      shows = v.shows;
    } };
}

impl Slide {
    /// The slide of a stretch behind `at` visible characters. The stamp is that of its first character.
    pub fn new(rev: u64, at: u64, first: Stamp, len: u64, shows: bool) -> Slide
        requires place { at ≤ u32.MAX }
        requires len { len ≤ u32.MAX }
        ensures { result ≡ record {
          rev = rev;
          at = at;
          first = first;
          len = len;
          shows = shows;
        } }
    {
        Slide {
            rev,
            counter: first.counter(),
            at: at as u32,
            len: len as u32,
            replica: first.replica(),
            shows,
        }
    }

    /// The revision that did it.
    pub fn rev(&self) -> u64
        ensures { result ≡ self.now.rev }
    {
        self.rev
    }

    /// The number of visible characters before the stretch.
    pub fn at(&self) -> u64
        ensures { result ≡ self.now.at }
    {
        self.at as u64
    }

    /// The stamp of its first character; those of the others follow.
    pub fn first(&self) -> Stamp
        ensures { result ≡ self.now.first }
    {
        match Stamp::new(self.counter, self.replica) {
            Ok(stamp) => stamp,
            Err(_) => unreachable!(),
        }
    }

    /// The number of its characters.
    pub fn len(&self) -> u64
        ensures { result ≡ self.now.len }
    {
        self.len as u64
    }

    /// Returns true if an insertion showed them, and false if a deletion hid them.
    pub fn shows(&self) -> bool
        ensures { result ≡ self.now.shows }
    {
        self.shows
    }
}
