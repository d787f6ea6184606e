//! Tests of a standby's rounds without a network and a disk: files and copies in memory.
#![tactic(auto)]

#[cfg(test)]
mod memory_copies;
#[cfg(test)]
mod rounds;
#[cfg(test)]
mod source_files;
