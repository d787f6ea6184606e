//! Pseudo-random numbers that are the same in every run, for tests and benchmarks.
#![tactic(auto)]

mod dice;

pub use dice::Dice;
