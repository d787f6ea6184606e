//! Tests of running servers: their lines, requests and replies, connections that fail, scans, and two servers.
#![tactic(auto)]

#[cfg(test)]
mod batch;
#[cfg(test)]
mod choice;
#[cfg(test)]
mod connection;
#[cfg(test)]
mod expected;
#[cfg(test)]
mod long_line;
#[cfg(test)]
mod plain_page;
#[cfg(test)]
mod runs;
#[cfg(test)]
mod same;
#[cfg(test)]
mod scan;
#[cfg(test)]
mod seeded;
#[cfg(test)]
mod shown;
#[cfg(test)]
mod waiting_client;
#[cfg(test)]
mod wire;
