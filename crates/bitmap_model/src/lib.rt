//! What a bitmap means, as definitions with their laws: sets of granules, runs, the state of a bitmap, and copies by units.
//!
//! It runs nothing. The crates that keep bitmaps and copy by them are judged against these definitions, and so is the plain
//! machine. Each law stands as the contract of a function of [`laws`], so that the gate proves it.
#![tactic(auto)]

pub mod laws;
