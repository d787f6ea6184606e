//! Tests of relay rounds with a peer whose lines are given.
#![tactic(auto)]

#[cfg(test)]
mod answers;
#[cfg(test)]
mod authors;
#[cfg(test)]
mod batches;
#[cfg(test)]
mod gates;
#[cfg(test)]
mod known;
#[cfg(test)]
mod listed;
#[cfg(test)]
mod loopback;
#[cfg(test)]
mod rounds;
#[cfg(test)]
mod sides;
#[cfg(test)]
mod stage;
#[cfg(test)]
mod stress;
