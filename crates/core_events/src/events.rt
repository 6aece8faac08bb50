//! Events: what a guest asks, what a monitor commands, and ticks.

use crate::commands::Command;
use span_algebra::{Bytes, Name};

/// How a request came.
#[derive(Debug, Drop)]
pub enum Way {
    /// To a node: the drive, or a view of it.
    Node(Name),
    /// Through an export, by the name that clients ask for.
    Export(Name),
}

/// What a guest asks.
#[derive(Debug, Drop)]
pub enum Work {
    /// The bytes of the range.
    Read,
    /// Puts the request's bytes at the range. With `fua` they are on the disk before the answer.
    Write { fua: bool },
    /// Makes the range read as zeros. With `no_hole` its clusters are stored, as by a write of zeros; with `fua` it is on the disk before the answer.
    Zero { fua: bool, no_hole: bool },
    /// Each write that was answered is on the disk before the answer.
    Flush,
    /// Runs of the range by a context: how it is stored, or what a bitmap has of it. With `one` the first run alone.
    Status { context: Name, one: bool },
}

/// A guest's request for a range of a disk.
///
/// A flush has no range, and its numbers aren't looked at.
#[derive(Debug, Drop)]
pub struct Request {
    pub way: Way,
    pub work: Work,
    /// Where the range begins, in bytes.
    pub offset: u64,
    /// How long the range is, in bytes.
    pub length: u64,
    /// What a write puts there. Of any other request they aren't looked at.
    pub bytes: Bytes,
}

/// What the core takes. Each is carried out whole, one after another.
#[derive(Debug, Drop)]
pub enum Event {
    /// A guest asks something of a disk.
    Guest(Request),
    /// The monitor commands something.
    Monitor(Command),
    /// There is time to copy a piece of a job.
    Tick,
}

/// What the bytes that came on a connection give next.
#[derive(Debug, Drop)]
pub enum Next {
    /// The bytes left are no whole message.
    More,
    /// A message was taken that gives no event. What is due to it was answered.
    Answered,
    /// A message was taken that is this event.
    Take(Event),
    /// The connection is to be hung up.
    HangUp,
}
