//! Points of a disk's history, the spans between them that a bitmap covers, and how each change of a bitmap moves its span.
//!
//! Spans are judged against timelines: the points that were drawn and the ranges that were written between them, without
//! the bytes. A span is true of a set of bytes where the set has each byte that was written within the span. Each change
//! at the last point keeps true spans true, by the laws of [`laws`]. No call takes memory or refuses.
//!
//! Names, bytes and runs stand here too, below all crates that hand them on.
#![tactic(auto)]

pub mod laws;
mod lists;
mod points;
mod spans;

pub use lists::{Bytes, Name, Run, Runs};
pub use points::{End, Point, order};
pub use spans::{
    Base, Span, after_clear, after_disable, after_enable, after_merge, base_of, meets,
};
