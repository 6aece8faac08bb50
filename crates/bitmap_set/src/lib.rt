//! The bitmaps of a disk, in order of adding: what each has, and what each change makes of them.
//!
//! A [`BitmapSet`] is seen as the disk's size, the granularity of bitmaps that are added without one, and the list of
//! the bitmaps' states. Each change leaves the list that `bitmap_model` says, or is refused by the first rule that
//! fails and changes nothing. Names differ, each set of granules is one of this disk, and there are 64 bitmaps at
//! most.
#![tactic(auto)]

mod bitmaps;
mod lookup;
mod names;
mod refusals;
mod set;
#[cfg(test)]
mod tests;

pub use bitmaps::{Bitmap, StoredBitmap};
pub use refusals::BitmapRefusal;
pub use set::{BitmapSet, Memory};
