//! Tests of the limits of a pad that take many requests to reach.
#![tactic(auto)]

#[cfg(test)]
mod limits;
