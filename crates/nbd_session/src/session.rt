//! A client's connection.

ghost use Rattle.std.specs.Prelude.{◌≡◌, ◌≢◌, ◌<◌, ◌≤◌, ◌^◌, ℕ, List, [], ◌++◌, drop, Bool, IsTrue, length, if◌then◌else◌, IfOk, OnOk, OnErr};
ghost use Rattle.core_events.specs.Events as events;
ghost use Rattle.core_events.specs.Views.{plain_reply};
ghost use Rattle.nbd_model.specs.Requests.{Head};
ghost use Rattle.nbd_model.specs.Sessions.{greeting};
ghost use Rattle.nbd_session.specs.Turns as turns;
ghost use Rattle.nbd_session.specs.Turns.{part_of, after_reply};
ghost use Rattle.nbd_session.specs.Connections.{Connection, new_connection, fed, Gives};
ghost use Rattle.nbd_session.specs.Reading.{IsAt, skips, without};

use crate::agreed::Agreed;
use crate::unread::Unread;
use core_events::{Answer, ExportList, Memory, Next};
use nbd_codec::{OptionHead, RequestHead, write_greeting};
use span_algebra::Bytes;
use std::alloc::Global;

/// What was read of a message that isn't whole.
#[derive(Clone, Copy, Debug, PartialEq, Eq)]
pub(crate) enum Reading {
    /// Nothing: the client's flags or a head are due.
    Head,
    /// An option's head: its content is due.
    Content(OptionHead),
    /// The head of an option that is too long: so many bytes are to be skipped.
    LongOption { number: u32, left: u32 },
    /// A request's head: its bytes are due.
    Bytes(RequestHead),
    /// The head of a request that is refused, or whose bytes are too many: so many are to be skipped.
    Skipped { head: RequestHead, left: u32 },
}

impl Reading {
    /// How many bytes are to be skipped.
    pub(crate) fn skips(self) -> usize
        ensures { result ≡ skips self }
    {
        match self {
            Reading::LongOption { number: _, left } => left as usize,
            Reading::Skipped { head: _, left } => left as usize,
            _ => 0,
        }
    }

    /// So many of those bytes were skipped.
    pub(crate) fn without(self, count: usize) -> Reading
        requires { count ≤ skips self }
        ensures { result ≡ without self count }
    {
        match self {
            Reading::LongOption { number, left } => Reading::LongOption {
                number,
                left: left - count as u32,
            },
            Reading::Skipped { head, left } => Reading::Skipped {
                head,
                left: left - count as u32,
            },
            reading => reading,
        }
    }
}

/// A request that was taken.
#[derive(Clone, Copy, Debug, PartialEq, Eq)]
pub(crate) struct Asked {
    pub(crate) head: RequestHead,
    /// How many contexts of a status were answered.
    pub(crate) answered: u8,
    /// Whether an error ended its reply.
    pub(crate) ended: bool,
}

/// Whether a request waits.
#[derive(Clone, Copy, Debug, PartialEq, Eq)]
pub(crate) enum Turn {
    /// None does.
    Idle,
    /// A reply is due.
    Due(Asked),
    /// The status of the next context is to be asked.
    Left(Asked),
}

/// A client's connection. What a call finds doesn't depend on how the bytes were cut when they were fed.
#[derive(Debug, Drop)]
pub struct Session {
    pub(crate) unread: Unread,
    pub(crate) reading: Reading,
    pub(crate) agreed: Agreed,
    pub(crate) turn: Turn,
}

impl Session {
    /// A new connection, and its greeting.
    pub fn new(alloc: Global, out: &mut Bytes) -> Result<Session, Memory>
        ensures new { IfOk result (λ s. IsAt s new_connection) }
        ensures greeted { OnOk result (out.new.items.items ≡ out.old.items.items ++ greeting) }
        ensures kept { OnErr result (out.new.items.items ≡ out.old.items.items) }
    {
        write_greeting(alloc, out)?;
        Ok(Session {
            unread: Unread::new(alloc),
            reading: Reading::Head,
            agreed: Agreed::new(alloc),
            turn: Turn::Idle,
        })
    }

    /// Bytes that came. Those that are to be skipped aren't kept.
    pub fn feed(&mut self, bytes: &[u8]) -> Result<(), Memory>
        ensures fed { OnOk result ((c : Connection) → IsAt self.old c → IsAt self.new (fed bytes.now c)) }
        ensures kept { OnErr result (self.new ≡ self.old) }
        ensures skipped { OnOk result (self.new.unread ≡ self.old.unread ++ drop (skips self.old.reading) bytes.now) }
    {
        let count = self.reading.skips().min(bytes.len());
        let (_, kept) = bytes.split_at(count);
        self.unread.add(kept)?;
        self.reading = self.reading.without(count);
        Ok(())
    }

    /// The next request: one that is left of a status of several contexts, or what the first whole message gives. An `Err` changes
    /// nothing, and tells that there was no memory even for an error's reply.
    #[tactic(auto, using(crate::proofs::Answering::given_of, crate::proofs::Answering::bounded_of, crate::proofs::Answering::kept_by, crate::proofs::Answering::sent_by))]
    pub fn next_request(
        &mut self,
        alloc: Global,
        exports: &ExportList,
        out: &mut Bytes,
    ) -> Result<Next, Memory>
        ensures given { IfOk result (λ next. (c : Connection) → IsAt self.old c → Gives exports.now c out.old.items.items out.new.items.items (IsAt self.new) next) }
        ensures bounded { IfOk result (λ next. (c : Connection) → IsAt self.old c → c.turn ≡ turns.Idle → next ≡ Next.More → length self.new.unread < 2 ^ 25) }
        ensures kept { OnErr result ((c : Connection) → IsAt self.old c → IsAt self.new c) }
        ensures sent { OnErr result (out.new.items.items ≡ out.old.items.items) }
    {
        let turn = self.turn;
        match turn {
            Turn::Due(_) => Ok(Next::More),
            Turn::Left(asked) => self.ask_left(alloc, asked),
            Turn::Idle => self.take_message(alloc, exports, out),
        }
    }
}
