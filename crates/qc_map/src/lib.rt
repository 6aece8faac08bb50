//! The cluster map of an image: which clusters of its file a range of the guest's disk stands in.
//!
//! A [`Map`] keeps nothing of the file: each call reads the entries that it needs. Entries are read in one place, a part of a request
//! at a time, so slots of cached tables may stand behind it later. No call takes memory but the one that makes a map.
#![tactic(auto)]

mod failures;
mod filling;
pub mod laws;
mod layout;
mod map;
mod needing;
mod opening;
mod reading;
mod telling;
mod writing;
mod zeroing;

pub use failures::{Failing, NotWritten};
pub use map::Map;
pub use map_opening::MapRefusal;
