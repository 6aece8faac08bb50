//! What the lines of a script say, as definitions with their laws: each line's grammar, and the one spelling in which lines
//! are written.
//!
//! It runs nothing. A script is lines, each ended by a line feed, which the last one may lack; one carriage return at a
//! line's end is dropped. The words of a line are parted by one blank. Each law stands as the contract of a function of
//! [`laws`], so that the gate proves it.
#![tactic(auto)]

pub mod laws;
