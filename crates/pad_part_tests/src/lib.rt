//! Tests of the parts of a pad: its types, the log, author runs, comments, rights, named revisions, held operations, accounts, persons, users of a proxy, guests,
//! visits, and the tree and the index of the sequence of blocks.
#![tactic(auto)]

#[cfg(test)]
mod accounts;
#[cfg(test)]
mod author_runs;
#[cfg(test)]
mod comment_book;
#[cfg(test)]
mod grants;
#[cfg(test)]
mod guest_book;
#[cfg(test)]
mod guest_names;
#[cfg(test)]
mod held;
#[cfg(test)]
mod held_seeded;
#[cfg(test)]
mod index;
#[cfg(test)]
mod log;
#[cfg(test)]
mod made;
#[cfg(test)]
mod named;
#[cfg(test)]
mod packed_log;
#[cfg(test)]
mod people;
#[cfg(test)]
mod presence_book;
#[cfg(test)]
mod seeded;
#[cfg(test)]
mod sequence;
#[cfg(test)]
mod session_rooms;
#[cfg(test)]
mod users;
