ghost use Rattle.std.specs.Prelude.{◌≡◌, ℕ, ◌+◌, ◌-◌, ◌*◌, ◌/◌, ◌<◌, ◌≤◌, MatchOption};

/// A label halfway between two labels, or None if they are adjacent or equal.
pub fn between(a: u64, b: u64) -> Option<u64>
    requires { a ≤ b }
    ensures value { MatchOption result (b - a < 2)
        (λ label. (2 ≤ b - a) × (label ≡ a + (b - a) / 2)) }
    ensures within { MatchOption result (b ≤ a + 1) (λ label. (a < label) × (label < b)) }
{
    if b - a < 2 {
        return None;
    }
    Some(a + (b - a) / 2)
}

/// The label of the `i`th of `n` blocks that get new labels, counted from 1. The labels are spread evenly between 0 and
/// the greatest number, with room on both sides.
pub fn spaced(i: u64, n: u64) -> u64
    requires first { 1 ≤ i }
    requires last { i ≤ n }
    requires room { n < u64.MAX }
    ensures value { result ≡ i * (u64.MAX / (n + 1)) }
    ensures within { (1 ≤ result) × (result < u64.MAX) }
    ensures rises { (j : ℕ) → j < i → j * (u64.MAX / (n + 1)) < result }
{
    i * (u64::MAX / (n + 1))
}
