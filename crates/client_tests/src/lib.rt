//! Tests of a client as a worker has it, over a socket in memory: the bytes that it reads, answers and writes, in
//! pieces of each size, and its farewell.
#![tactic(auto)]

#[cfg(test)]
mod browsers;
#[cfg(test)]
mod farewells;
#[cfg(test)]
mod lines;
#[cfg(test)]
mod memory_socket;
#[cfg(test)]
mod stage;
#[cfg(test)]
mod users;
