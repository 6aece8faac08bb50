//! What the monitor is sent: the greeting, replies, refusals and notices, as JSON that each ends with CR LF (QEMU's QMP).
//!
//! Each call puts one message behind the bytes that it is given, or leaves them as they were for want of memory. The texts are
//! those of `monitor_model`, where each name in them is UTF-8; in a name of other bytes each part that isn't is sent as U+FFFD.
#![tactic(auto)]

mod listings;
mod messages;
mod words;
mod writing;

pub use writing::{answer, greeting, notice, refused};

#[cfg(test)]
mod tests;
