//! Tests of the sequences of characters: the sequence of blocks and the plain one beside it.
#![tactic(auto)]

#[cfg(test)]
mod comment_ranges;
#[cfg(test)]
mod compared;
#[cfg(test)]
mod converge;
#[cfg(test)]
mod deletions;
#[cfg(test)]
mod forty_texts;
#[cfg(test)]
mod labels;
#[cfg(test)]
mod million;
#[cfg(test)]
mod pair;
#[cfg(test)]
mod readers;
#[cfg(test)]
mod replica;
#[cfg(test)]
mod sequences;
#[cfg(test)]
mod several;
#[cfg(test)]
mod side_by_side;
