//! The weight of an item.
ghost use Rattle.std.specs.Prelude.{◌≡◌, ℕ};

/// An item that has a weight.
pub trait Weigh: Drop {
    ghost weight_of: { Self → ℕ };

    fn weight(&self) -> u64
        ensures { result ≡ weight_of self.now };
}
