//! Tests of threads at shared pads: four that write, cells and connections that do not block one another, conversations
//! in pieces, seats, names, audits, and the refusals while nothing can be kept.
#![tactic(auto)]

#[cfg(test)]
mod audits;
#[cfg(test)]
mod commits;
#[cfg(test)]
mod conversations;
#[cfg(test)]
mod creations;
#[cfg(test)]
mod held;
#[cfg(test)]
mod kept;
#[cfg(test)]
mod memory_files;
#[cfg(test)]
mod names;
#[cfg(test)]
mod pool;
#[cfg(test)]
mod rows;
#[cfg(test)]
mod seats;
#[cfg(test)]
mod stage;
#[cfg(test)]
mod writers;
