//! Tests of the tree of weighted items and of the index of blocks, each alone and compared with a plain list.
mod block_run;
mod counts;
mod places;
mod removed;
mod stone;
mod stone_run;
mod trees;
mod visits;
