//! Tests of the server machine, step by step: scans of several actors in turn, which no story of whole lines can show.
mod stage;
mod steps;
