//! Sets of granules of a disk: the dirty granules of a bitmap, and the units that a job has copied.
//!
//! A disk is cut into granules of one size, of which the last may be short. A [`GranularBits`] is seen as the disk's size,
//! the granules' size and one truth value for each granule. Only the calls that make a value take memory. Inside, the
//! granules stand in words of 64 with layers of words above them, by which searches pass over what is all clean or all dirty.
#![tactic(auto)]

mod bits;
mod flags;
pub mod laws;
mod layers;
mod spelling;
#[cfg(test)]
mod tests;
mod words;

pub use bits::{BitsRefusal, GranularBits, Memory};
