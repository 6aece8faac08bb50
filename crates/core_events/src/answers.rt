//! Answers: the reply to an event, and the notices after it.
//!
//! An answer is used again for one event after another. The room in it is made before an event, so that the core can carry
//! the event out without memory.

ghost use Rattle.std.specs.Prelude.{◌≡◌, ◌≤◌, ◌↔◌, [], IsTrue, IsOk, IfOk, OnOk, vec_capacity};
ghost use Rattle.core_events.specs.Answers.{bytes_needed, runs_needed, Fits, HasRoom, IsEmptyAnswer, KeepsContents, KeepsRoom};

use crate::events::{Event, Work};
use crate::infos::{JobInfos, NodeInfos};
use crate::refusals::Refusal;
use span_algebra::{Bytes, Name, Runs};
use std::alloc::{AllocError, Global};

/// Want of memory.
pub type Memory = AllocError;

/// The longest read that is carried out, in bytes.
const LONGEST_READ: u64 = 1 << 25;

/// How many runs a status replies at most.
const MOST_RUNS: usize = 1024;

/// How many notices an answer has room for: twice as many as jobs and views can end in one event.
const MOST_NOTICES: usize = 16;

/// Why a request failed, as clients know it.
#[derive(Clone, Copy, Debug, PartialEq, Eq)]
pub enum Errno {
    /// A write or zero came by a way that may not write.
    Perm,
    /// A device call failed, or the drive is broken.
    Io,
    /// For want of memory.
    NoMemory,
    /// The range isn't within the disk or is too long, a status asks nothing, or there is no such node or no consistent
    /// bitmap of the context.
    Invalid,
    /// The image has no room for what the write needs.
    NoSpace,
    /// The view has ended, or it is broken.
    Shutdown,
}

/// The reply to an event.
#[derive(Debug, Drop)]
pub enum Reply {
    /// It is done.
    Done,
    /// The bytes that were read, which stand in the answer.
    Bytes,
    /// The runs that were asked, which stand in the answer.
    Runs,
    /// The request failed.
    Fault(Errno),
    /// The jobs and views that were asked for.
    Jobs(JobInfos),
    /// The drive and the views that were asked for.
    Nodes(NodeInfos),
    /// The command is refused. The number is that of the action in its transaction, from 0; any other command has none, nor
    /// has an empty transaction.
    Refused(Option<u64>, Refusal),
}

/// Why a job or a view ended early.
#[derive(Clone, Copy, Debug, PartialEq, Eq)]
pub enum JobFault {
    /// A device call for it failed.
    Failed,
    /// Its target has no room for a unit of the copy.
    NoRoom,
    /// The drive broke.
    SourceBroken,
}

/// What the monitor is told of a job or a view, besides the reply.
#[derive(Debug, Drop)]
pub enum Notice {
    /// It has ended: whole, or by a fault. `length` is how many bytes were to be copied in all, `offset` how many were.
    Completed {
        job: Name,
        length: u64,
        offset: u64,
        fault: Option<JobFault>,
    },
    /// It was cancelled. The numbers are as those of one that has ended.
    Cancelled {
        job: Name,
        length: u64,
        offset: u64,
    },
}

/// Notices, in order.
#[derive(Debug, Drop)]
pub struct Notices {
    pub items: Vec<Notice>,
}

/// What an event gives. Its lists keep their room from one event to the next.
#[derive(Debug, Drop)]
pub struct Answer {
    pub reply: Reply,
    /// What was read, where the reply says so.
    pub bytes: Bytes,
    /// What status was asked, where the reply says so.
    pub runs: Runs,
    pub notices: Notices,
}

impl Answer {
    /// An empty answer with room for so many bytes, for the runs of a status and for the notices of an event.
    pub fn new(alloc: Global, bytes: usize) -> Result<Answer, Memory>
        ensures empty { IfOk result IsEmptyAnswer }
        ensures room { IfOk result (HasRoom bytes) }
    {
        Ok(Answer {
            reply: Reply::Done,
            bytes: Bytes {
                items: Vec::with_capacity(alloc, bytes)?,
            },
            runs: Runs {
                items: Vec::with_capacity(alloc, MOST_RUNS)?,
            },
            notices: Notices {
                items: Vec::with_capacity(alloc, MOST_NOTICES)?,
            },
        })
    }

    /// Whether the answer has the room that the event may need.
    ///
    /// That is the length of a read of at most 2^25 bytes, 1,024 runs for a status, and 16 notices for any event. The room
    /// is that of the whole lists, whatever stands in them.
    pub fn fits(&self, event: &Event) -> bool
        ensures { IsTrue result ↔ Fits self.now event.now }
    {
        bytes_for(event) <= self.bytes.items.capacity()
            && runs_for(event) <= self.runs.items.capacity()
            && MOST_NOTICES <= self.notices.items.capacity()
    }

    /// Makes the room that the event may need.
    ///
    /// Takes no memory where it is there. Whatever it answers, what stands in the answer stays, and so does the room.
    pub fn make_room(&mut self, alloc: Global, event: &Event) -> Result<(), Memory>
        ensures done { OnOk result (Fits self.new event.now) }
        ensures spare { Fits self.old event.now → IsOk result }
        ensures contents { KeepsContents self.old self.new }
        ensures room { KeepsRoom self.old self.new }
    {
        widen(alloc, &mut self.bytes.items, bytes_for(event))?;
        widen(alloc, &mut self.runs.items, runs_for(event))?;
        widen(alloc, &mut self.notices.items, MOST_NOTICES)
    }
}

// How many bytes the event may reply.
fn bytes_for(event: &Event) -> usize
    ensures { result ≡ bytes_needed event.now }
{
    match event {
        Event::Guest(request) => match request.work {
            Work::Read if request.length <= LONGEST_READ => request.length as usize,
            _ => 0,
        },
        _ => 0,
    }
}

// How many runs the event may reply.
fn runs_for(event: &Event) -> usize
    ensures { result ≡ runs_needed event.now }
{
    match event {
        Event::Guest(request) => match request.work {
            Work::Status { .. } => MOST_RUNS,
            _ => 0,
        },
        _ => 0,
    }
}

// Moves a list to one with room for so many items in all, where it has less.
fn widen<T: Drop>(alloc: Global, list: &mut Vec<T>, count: usize) -> Result<(), Memory>
    ensures items { list.new.items ≡ list.old.items }
    ensures done { OnOk result (count ≤ vec_capacity list.new) }
    ensures spare { count ≤ vec_capacity list.old → IsOk result }
    ensures room { vec_capacity list.old ≤ vec_capacity list.new }
{
    if count <= list.capacity() {
        return Ok(());
    }
    let mut wider = Vec::with_capacity(alloc, count)?;
    wider.append(list)?;
    *list = wider;
    Ok(())
}
