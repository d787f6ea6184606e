ghost use Rattle.std.specs.Prelude.{◌≡◌, ◌≤◌, ◌<◌};
ghost use Rattle.dice.specs.Dice.{next, face};

use std::marker::Model;

/// A pseudo-random number generator: the linear congruential one of Knuth's MMIX, of whose state the high bits are
/// used.
///
/// Two dice with the same seed give the same numbers.
#[derive(Debug, Drop)]
pub struct Dice {
    state: u64,
}

impl Model for Dice {
    ghost use Rattle.std.specs.Prelude.{ℕ};

    ghost Value = { ℕ };

    ghost view = { λ d. d.state };
}

impl Dice {
    pub fn new(seed: u64) -> Dice
        ensures { result ≡ seed }
    {
        Dice { state: seed }
    }

    /// The next number below `sides`, or 0 if `sides` is 0.
    pub fn roll(&mut self, sides: u64) -> u64
        ensures state { self.new ≡ next self.old }
        ensures value { result ≡ face sides self.new }
        ensures below { 1 ≤ sides → result < sides }
    {
        self.state = self
            .state
            .wrapping_mul(6_364_136_223_846_793_005)
            .wrapping_add(1_442_695_040_888_963_407);
        (self.state >> 33).checked_rem(sides).unwrap_or(0)
    }
}
