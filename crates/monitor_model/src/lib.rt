//! What the monitor and the program say to each other, as definitions: the messages of a stream, the command that a message is
//! or why it is refused, and the text of each reply and notice (QEMU's QMP).
//!
//! It runs nothing. Each law stands as the contract of a function of [`laws`]. Text is what `serde_json` reads and writes.
#![tactic(auto)]

pub mod laws;
