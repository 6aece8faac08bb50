//! A host in memory: files, printed text, and what a crash may leave of the files.
//!
//! It tells all that it holds. Where it keeps its calls, it tells what a crash may leave at each moment too. The
//! calls that are to fail are named by their numbers. The layers above may rely on `world_of` of `specs/Held.antt`.
#![tactic(auto)]

mod draft;
mod files;
mod host;
mod log;
mod outcomes;

pub use host::{Memory, MemoryHost};

#[cfg(test)]
mod tests;
