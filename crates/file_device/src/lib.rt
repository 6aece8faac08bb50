//! One file of a depot as one value.
//!
//! A layer that works on files calls [`read`], [`word`], [`write`], [`sync`], [`size`] and [`make`] in place of the
//! depot's own calls. Their contracts speak of [`file_of`](specs/File.antt): whether the file is told, its bytes as
//! reads give them, and what it may be after a crash. Layers above say what each call takes the file through
//! (`Goes`), and put calls in a row by the laws of [`Laws`](proofs/Laws.antt).
#![tactic(auto)]

mod calls;
mod copies;
mod names;

pub use calls::{read, size, sync, word, write};
pub use copies::copy;
pub use names::make;
