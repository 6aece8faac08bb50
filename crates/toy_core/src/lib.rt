//! A toy core: the smallest node with real work in it, over images of one form (`toy_image`).
//!
//! It serves reads, writes and flushes of the drive, and ticks; commands find no memory. It shows that the promise of a
//! core (`core_node`) can be met whole, crashes included, and that it binds: `must-fail/` has wrong cores.
#![tactic(auto)]

mod begin;
mod serve;
mod toy;

pub use toy::{Source, Toy};
