//! How it serves requests.

ghost use Rattle.std.specs.Prelude.{◌≡◌, ◌⊎◌, ◌+◌, ◌^◌, ◌<◌, ◌≤◌, ℕ, List, [], length, IsTrue, false, IsOk, OnOk, OnErr, IfOk, MatchResult, None, Some, vec_capacity};
ghost use Rattle.disk_model.specs.Files.{reading};
ghost use Rattle.disk_model.specs.World.{World, Runs, nothing, Writes, HasWritten, Syncs, HasSynced, Rose, reads_of, writes_of, ReadCause, WriteCause, versions};
ghost use Rattle.core_events.specs.Answers.{Fits, bytes_of_work, bytes_needed};
ghost use Rattle.core_events.specs.Events as events;
ghost use Rattle.core_events.specs.declared.answers.Reply.TheVariants as reply;
ghost use Rattle.core_events.specs.declared.answers.Errno.TheVariants as errno;
ghost use Rattle.core_events.specs.declared.events.Work.TheVariants as work;
ghost use Rattle.span_algebra.specs.declared.lists.Run.{Run};
ghost use Rattle.core_node.specs.Touches.{is_denied, SameSource, AddsTargets, works_on, is_command};
ghost use Rattle.core_events.specs.declared.events.Event.TheVariants as event;
ghost use Rattle.core_events.specs.Views.{plain_reply, plain_event, plain_answer, plain_request};
ghost use Rattle.plain_model.specs.Step.{IsWhole};
ghost use Rattle.plain_model.specs.Requests.{HasBytes};
ghost use Rattle.core_node.specs.Standing.{HasFiles};
ghost use Rattle.core_node.specs.Step.{DeniesAs, NodeSteps};
ghost use Rattle.core_node.specs.Causes.{Causes};
ghost use Rattle.core_node.specs.Rest.{State};
ghost use Rattle.core_node.specs.Files.{Reading};
ghost use Rattle.toy_core.specs.Toy.{Takes, IsBuilt, on_drive, denies, no_targets, shown, Keeps, next, broke};

use crate::toy::Toy;
use core_events::{Answer, Errno, Event, Memory, Reply, Request, Way, Work};
use disk_model::{Depot, FileNo};
use std::alloc::AllocError;

/// The longest read or write, in bytes.
const LONGEST: u64 = 1 << 25;

// Whether a request's way leads to the drive.
fn is_on_drive(way: &Way) -> bool
    ensures { result ≡ on_drive way.now }
{
    match way {
        Way::Node(name) => name.items.as_slice() == b"drive0".as_slice(),
        Way::Export(_) => false,
    }
}

impl Toy {
    fn deny(&self, request: &Request) -> Option<Errno>
        requires { IsBuilt request.now.work }
        ensures { result ≡ denies self.now (plain_request request.now) }
    {
        let bad = match request.work {
            Work::Flush => false,
            _ => {
                request.offset > self.source.image.size
                    || request.length > self.source.image.size - request.offset
                    || request.length > LONGEST
            }
        };
        if !is_on_drive(&request.way) || bad {
            Some(Errno::Invalid)
        } else if self.broken.is_some() {
            Some(Errno::Io)
        } else {
            None
        }
    }

    fn write<D: Depot>(&mut self, depot: &mut D, request: &Request) -> Reply
        requires given { self.old.source.file.0 < (D.world depot.old).given }
        requires whole { HasBytes (plain_request request.now) request.now.work }
        requires granted { denies self.old (plain_request request.now) ≡ None }
        requires work { request.now.work ≡ work.Write false }
        ensures steps { (bytes : List ℕ) (runs : List Run) → IsTrue (D.world depot.old).tells →
            NodeSteps no_targets (shown self.old) (Keeps self.old (D.world depot.old)) (Keeps self.new (D.world depot.new)) (D.world depot.old) (D.world depot.new) (events.Guest (plain_request request.now)) (record { reply = plain_reply result bytes runs; notices = [] }) }
        ensures causes { (bytes : List ℕ) (runs : List Run) → Causes (shown self.old) (shown self.new) (D.world depot.old) (D.world depot.new) (events.Guest (plain_request request.now)) (record { reply = plain_reply result bytes runs; notices = [] }) }
        ensures source { SameSource (shown self.old) (shown self.new) }
        ensures run { Runs (writes_of self.old.source.file.0) (D.world depot.old) (D.world depot.new) }
        ensures carried { (held : List ℕ) (runs : List Run) → is_denied (plain_reply result held runs) ≡ false }
    {
        self.event = self.event.saturating_add(1);
        let at = self.source.image.base + request.offset;
        match depot.write_at(self.source.file, at, request.bytes.items.as_slice()) {
            Ok(_written) => Reply::Done,
            Err(_unwritten) => Reply::Fault(Errno::Io),
        }
    }

    fn flush<D: Depot>(&mut self, depot: &mut D, request: &Request) -> Reply
        requires given { self.old.source.file.0 < (D.world depot.old).given }
        requires whole { HasBytes (plain_request request.now) request.now.work }
        requires granted { denies self.old (plain_request request.now) ≡ None }
        requires work { request.now.work ≡ work.Flush }
        ensures steps { (bytes : List ℕ) (runs : List Run) → IsTrue (D.world depot.old).tells →
            NodeSteps no_targets (shown self.old) (Keeps self.old (D.world depot.old)) (Keeps self.new (D.world depot.new)) (D.world depot.old) (D.world depot.new) (events.Guest (plain_request request.now)) (record { reply = plain_reply result bytes runs; notices = [] }) }
        ensures causes { (bytes : List ℕ) (runs : List Run) → Causes (shown self.old) (shown self.new) (D.world depot.old) (D.world depot.new) (events.Guest (plain_request request.now)) (record { reply = plain_reply result bytes runs; notices = [] }) }
        ensures source { SameSource (shown self.old) (shown self.new) }
        ensures run { Runs (writes_of self.old.source.file.0) (D.world depot.old) (D.world depot.new) }
        ensures carried { (held : List ℕ) (runs : List Run) → is_denied (plain_reply result held runs) ≡ false }
    {
        self.event = self.event.saturating_add(1);
        match depot.sync(self.source.file) {
            Ok(_synced) => Reply::Done,
            Err(_unsynced) => {
                self.broken = Some(self.event);
                Reply::Fault(Errno::Io)
            }
        }
    }

    fn read<D: Depot>(&mut self, depot: &mut D, request: &Request, bytes: &mut Vec<u8>) -> Reply
        requires given { self.old.source.file.0 < (D.world depot.old).given }
        requires whole { HasBytes (plain_request request.now) request.now.work }
        requires granted { denies self.old (plain_request request.now) ≡ None }
        requires work { request.now.work ≡ work.Read }
        requires room { request.now.length ≤ vec_capacity bytes.old }
        ensures steps { (runs : List Run) → IsTrue (D.world depot.old).tells →
            NodeSteps no_targets (shown self.old) (Keeps self.old (D.world depot.old)) (Keeps self.new (D.world depot.new)) (D.world depot.old) (D.world depot.new) (events.Guest (plain_request request.now)) (record { reply = plain_reply result bytes.new.items runs; notices = [] }) }
        ensures causes { (runs : List Run) → Causes (shown self.old) (shown self.new) (D.world depot.old) (D.world depot.new) (events.Guest (plain_request request.now)) (record { reply = plain_reply result bytes.new.items runs; notices = [] }) }
        ensures source { SameSource (shown self.old) (shown self.new) }
        ensures run { Runs (reads_of self.old.source.file.0) (D.world depot.old) (D.world depot.new) }
        ensures carried { (held : List ℕ) (runs : List Run) → is_denied (plain_reply result held runs) ≡ false }
    {
        self.event = self.event.saturating_add(1);
        let at = self.source.image.base + request.offset;
        bytes.clear();
        bytes.resize(request.length as usize, 0).unwrap();
        match depot.read_at(self.source.file, at, bytes.as_mut_slice()) {
            Ok(()) => Reply::Bytes,
            Err(_unread) => Reply::Fault(Errno::Io),
        }
    }

    /// Carries out a request.
    fn serve<D: Depot>(&mut self, depot: &mut D, request: &Request, bytes: &mut Vec<u8>) -> Reply
        requires given { self.old.source.file.0 < (D.world depot.old).given }
        requires whole { HasBytes (plain_request request.now) request.now.work }
        requires built { IsBuilt request.now.work }
        requires room { bytes_of_work request.now.work request.now.length ≤ vec_capacity bytes.old }
        ensures steps { (runs : List Run) → IsTrue (D.world depot.old).tells →
            NodeSteps no_targets (shown self.old) (Keeps self.old (D.world depot.old)) (Keeps self.new (D.world depot.new)) (D.world depot.old) (D.world depot.new) (events.Guest (plain_request request.now)) (record { reply = plain_reply result bytes.new.items runs; notices = [] }) }
        ensures denied { (runs : List Run) → DeniesAs (shown self.old) (events.Guest (plain_request request.now)) (record { reply = plain_reply result bytes.new.items runs; notices = [] }) }
        ensures causes { (runs : List Run) → Causes (shown self.old) (shown self.new) (D.world depot.old) (D.world depot.new) (events.Guest (plain_request request.now)) (record { reply = plain_reply result bytes.new.items runs; notices = [] }) }
        ensures source { SameSource (shown self.old) (shown self.new) }
        ensures run { (runs : List Run) → Runs (works_on (shown self.old) (shown self.new) (D.world depot.new) (events.Guest (plain_request request.now)) (record { reply = plain_reply result bytes.new.items runs; notices = [] })) (D.world depot.old) (D.world depot.new) }
    {
        if let Some(errno) = self.deny(request) {
            self.event = self.event.saturating_add(1);
            return Reply::Fault(errno);
        }
        match request.work {
            Work::Read => self.read(depot, request, bytes),
            Work::Write { .. } => self.write(depot, request),
            _ => self.flush(depot, request),
        }
    }

    // Carries out an event.
    fn carry_out<D: Depot>(
        &mut self,
        depot: &mut D,
        event: &Event,
        bytes: &mut Vec<u8>,
    ) -> Result<Reply, Memory>
        requires given { self.old.source.file.0 < (D.world depot.old).given }
        requires whole { IsWhole (plain_event event.now) }
        requires takes { Takes (plain_event event.now) }
        requires room { bytes_needed event.now ≤ vec_capacity bytes.old }
        ensures steps { IfOk result (λ reply. (runs : List Run) → IsTrue (D.world depot.old).tells →
            NodeSteps no_targets (shown self.old) (Keeps self.old (D.world depot.old)) (Keeps self.new (D.world depot.new)) (D.world depot.old) (D.world depot.new) (plain_event event.now) (record { reply = plain_reply reply bytes.new.items runs; notices = [] })) }
        ensures denied { IfOk result (λ reply. (runs : List Run) → DeniesAs (shown self.old) (plain_event event.now) (record { reply = plain_reply reply bytes.new.items runs; notices = [] })) }
        ensures command { OnErr result (IsTrue (is_command (plain_event event.now))) }
        ensures kept { OnErr result (self.new ≡ self.old) }
        ensures undone { OnErr result (D.world depot.new ≡ D.world depot.old) }
        ensures causes { IfOk result (λ reply. (runs : List Run) → Causes (shown self.old) (shown self.new) (D.world depot.old) (D.world depot.new) (plain_event event.now) (record { reply = plain_reply reply bytes.new.items runs; notices = [] })) }
        ensures source { SameSource (shown self.old) (shown self.new) }
        ensures run { MatchResult result
            (λ reply. (runs : List Run) → Runs (works_on (shown self.old) (shown self.new) (D.world depot.new) (plain_event event.now) (record { reply = plain_reply reply bytes.new.items runs; notices = [] })) (D.world depot.old) (D.world depot.new))
            (λ _. Runs nothing (D.world depot.old) (D.world depot.new)) }
    {
        match event {
            Event::Monitor(_) => Err(AllocError),
            Event::Tick => {
                self.event = self.event.saturating_add(1);
                Ok(Reply::Done)
            }
            Event::Guest(request) => Ok(self.serve(depot, request, bytes)),
        }
    }

    /// Carries out one event, and answers it.
    pub fn take_event<D: Depot>(
        &mut self,
        depot: &mut D,
        event: &Event,
        answer: &mut Answer,
    ) -> Result<(), Memory>
        requires room { Fits answer.old event.now }
        requires whole { IsWhole (plain_event event.now) }
        requires takes { Takes (plain_event event.now) }
        requires files { HasFiles (shown self.old) (D.world depot.old) }
        ensures steps { OnOk result (IsTrue (D.world depot.old).tells →
            NodeSteps no_targets (shown self.old) (Keeps self.old (D.world depot.old)) (Keeps self.new (D.world depot.new)) (D.world depot.old) (D.world depot.new) (plain_event event.now) (plain_answer answer.new)) }
        ensures denied { OnOk result (DeniesAs (shown self.old) (plain_event event.now) (plain_answer answer.new)) }
        ensures command { OnErr result (IsTrue (is_command (plain_event event.now))) }
        ensures kept { OnErr result (self.new ≡ self.old) }
        ensures undone { OnErr result (D.world depot.new ≡ D.world depot.old) }
        ensures causes { OnOk result (Causes (shown self.old) (shown self.new) (D.world depot.old) (D.world depot.new) (plain_event event.now) (plain_answer answer.new)) }
        ensures source { SameSource (shown self.old) (shown self.new) }
        ensures run { Runs (works_on (shown self.old) (shown self.new) (D.world depot.new) (plain_event event.now) (plain_answer answer.new)) (D.world depot.old) (D.world depot.new) }
    {
        let reply = self.carry_out(depot, event, &mut answer.bytes.items)?;
        answer.reply = reply;
        answer.notices.items.clear();
        Ok(())
    }
}
