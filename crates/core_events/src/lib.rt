//! What the core takes and what it gives, as plain data: requests, commands and ticks; replies, notices and refusals.
//!
//! Contracts see each of these types as data without memory, but for the bytes of a request and for an answer, where a
//! call can ask for room. `specs/Views.antt` turns events and answers into plain values, those of `specs/Events.antt` and
//! `specs/Answers.antt`. The layers above may rely on the room: what [`Answer::make_room`] makes is what [`Answer::fits`]
//! tests; the core will carry an event out within it.
#![tactic(auto)]

mod answers;
mod commands;
mod events;
mod infos;
pub mod laws;
mod refusals;

pub use answers::{Answer, Errno, JobFault, Memory, Notice, Notices, Reply};
pub use commands::{
    Action, Actions, BackupArgs, Command, ExportArgs, Mode, Names, SourceName, Sources, SyncKind,
};
pub use events::{Event, Next, Request, Way, Work};
pub use infos::{
    BitmapInfo, BitmapInfos, ExportInfo, ExportList, JobInfo, JobInfos, NodeInfo, NodeInfos,
};
pub use refusals::Refusal;

#[cfg(test)]
mod tests;
