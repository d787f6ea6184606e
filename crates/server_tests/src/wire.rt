//! Tests of the wire: bytes as lines, whole or in pieces, lines as requests, replies as lines, and operations as JSON values.
mod lines;
mod odd;
mod operations;
mod pieces;
mod replies;
mod requests;
mod samples;
