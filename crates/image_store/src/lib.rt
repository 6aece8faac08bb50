//! A source: an image whose disk a guest reads and writes, without bitmaps as yet.
//!
//! [`Source::open`] reads the whole of its header and tables by the rules of an opening, and draws the next epoch; [`Source::close`]
//! leaves each cluster that something refers to counted once, and no other. Between the two a crash at any moment leaves an image that
//! the next opening takes, each sector of whose disk is that of the disk at the last flush, or as after some write since. [`adopt`]
//! makes an image of another program a source.
#![tactic(auto)]

mod adopting;
mod closing;
mod finding;
pub mod laws;
mod opening;
mod refusals;
mod requests;
mod source;
mod starting;
mod telling;

pub use adopting::adopt;
pub use refusals::NotOpened;
pub use source::Source;
