//! Tests of operations, stamps, names, and the types that hold them.
mod names;
mod old_wire;
mod operations;
mod rows;
mod stamps;
