//! What a drive answers to each event.

ghost use Rattle.std.specs.Prelude.{◌≡◌, ◌+◌, ◌<◌, ◌≤◌, ℕ, List, [], true, false, Some, None, IsTrue, IfOk, OnErr, vec_len, vec_capacity};
ghost use Rattle.disk_model.specs.World.{World};
ghost use Rattle.core_events.specs.Answers.{bytes_needed, runs_needed};
ghost use Rattle.core_events.specs.Events as events;
ghost use Rattle.core_events.specs.declared.events.Work.TheVariants as work;
ghost use Rattle.core_events.specs.Views.{plain_reply, plain_event, plain_request};
ghost use Rattle.span_algebra.specs.declared.lists.Run.{Run};
ghost use Rattle.plain_model.specs.Requests.{HasBytes, is_write};
ghost use Rattle.plain_model.specs.Step.{IsWhole};
ghost use Rattle.core_node.specs.Standing.{Shown};
ghost use Rattle.core_node.specs.Rest.{State};
ghost use Rattle.core_node.specs.Step.{DeniesAs};
ghost use Rattle.core_node.specs.Touches.{is_command};
ghost use Rattle.drive_core.specs.Drive.{denies, Answers};

use core_events::{Errno, Event, Memory, Reply, Request};
use disk_model::Depot;
use span_algebra::Runs;

/// What serves the requests of a drive, one after another.
pub trait Serves: Sized {
    /// What it shows, and what it knows of its file.
    ghost shown: { Self → Shown };

    ghost keeps: { Self → World → State → Type 0 };

    /// Why it denies a request before anything is done for it.
    fn deny(&self, request: &Request) -> Option<Errno>
        ensures { result ≡ denies (shown self.now) (plain_request request.now) };

    /// Denies it.
    fn answer_denied<D: Depot>(&mut self, depot: &mut D, request: &Request, errno: Errno) -> Reply
        requires given { (shown self.old).file < (D.world depot.old).given }
        requires whole { HasBytes (plain_request request.now) request.now.work }
        requires denied { denies (shown self.old) (plain_request request.now) ≡ Some errno }
        ensures answers { (bytes : List ℕ) (runs : List Run) → Answers (shown self.old) (shown self.new) (keeps self.old (D.world depot.old)) (keeps self.new (D.world depot.new)) (D.world depot.old) (D.world depot.new) (events.Guest (plain_request request.now)) (plain_reply result bytes runs) }
        ensures denied { (bytes : List ℕ) (runs : List Run) → DeniesAs (shown self.old) (events.Guest (plain_request request.now)) (record { reply = plain_reply result bytes runs; notices = [] }) };

    fn read<D: Depot>(&mut self, depot: &mut D, request: &Request, bytes: &mut Vec<u8>) -> Reply
        requires given { (shown self.old).file < (D.world depot.old).given }
        requires granted { denies (shown self.old) (plain_request request.now) ≡ None }
        requires work { request.now.work ≡ work.Read }
        requires room { request.now.length ≤ vec_capacity bytes.old }
        ensures answers { (runs : List Run) → Answers (shown self.old) (shown self.new) (keeps self.old (D.world depot.old)) (keeps self.new (D.world depot.new)) (D.world depot.old) (D.world depot.new) (events.Guest (plain_request request.now)) (plain_reply result bytes.new.items runs) };

    fn status<D: Depot>(
        &mut self,
        depot: &mut D,
        request: &Request,
        one: bool,
        runs: &mut Runs,
    ) -> Reply
        requires given { (shown self.old).file < (D.world depot.old).given }
        requires granted { denies (shown self.old) (plain_request request.now) ≡ None }
        requires work { (context : List ℕ) × (request.now.work ≡ work.Status context one) }
        requires room { 1024 ≤ vec_capacity runs.old.items }
        ensures answers { (bytes : List ℕ) → Answers (shown self.old) (shown self.new) (keeps self.old (D.world depot.old)) (keeps self.new (D.world depot.new)) (D.world depot.old) (D.world depot.new) (events.Guest (plain_request request.now)) (plain_reply result bytes runs.new.items.items) };

    fn write<D: Depot>(&mut self, depot: &mut D, request: &Request, fua: bool) -> Reply
        requires given { (shown self.old).file < (D.world depot.old).given }
        requires whole { HasBytes (plain_request request.now) request.now.work }
        requires granted { denies (shown self.old) (plain_request request.now) ≡ None }
        requires work { request.now.work ≡ work.Write fua }
        ensures answers { (bytes : List ℕ) (runs : List Run) → Answers (shown self.old) (shown self.new) (keeps self.old (D.world depot.old)) (keeps self.new (D.world depot.new)) (D.world depot.old) (D.world depot.new) (events.Guest (plain_request request.now)) (plain_reply result bytes runs) };

    /// Makes holes of the clusters that the range covers whole.
    fn zero<D: Depot>(&mut self, depot: &mut D, request: &Request, fua: bool) -> Reply
        requires given { (shown self.old).file < (D.world depot.old).given }
        requires granted { denies (shown self.old) (plain_request request.now) ≡ None }
        requires work { request.now.work ≡ work.Zero fua false }
        ensures answers { (bytes : List ℕ) (runs : List Run) → Answers (shown self.old) (shown self.new) (keeps self.old (D.world depot.old)) (keeps self.new (D.world depot.new)) (D.world depot.old) (D.world depot.new) (events.Guest (plain_request request.now)) (plain_reply result bytes runs) };

    /// Stores zeros.
    fn write_zeros<D: Depot>(&mut self, depot: &mut D, request: &Request, fua: bool) -> Reply
        requires given { (shown self.old).file < (D.world depot.old).given }
        requires granted { denies (shown self.old) (plain_request request.now) ≡ None }
        requires work { request.now.work ≡ work.Zero fua true }
        ensures answers { (bytes : List ℕ) (runs : List Run) → Answers (shown self.old) (shown self.new) (keeps self.old (D.world depot.old)) (keeps self.new (D.world depot.new)) (D.world depot.old) (D.world depot.new) (events.Guest (plain_request request.now)) (plain_reply result bytes runs) };

    fn flush<D: Depot>(&mut self, depot: &mut D, request: &Request) -> Reply
        requires given { (shown self.old).file < (D.world depot.old).given }
        requires granted { denies (shown self.old) (plain_request request.now) ≡ None }
        requires work { request.now.work ≡ work.Flush }
        ensures answers { (bytes : List ℕ) (runs : List Run) → Answers (shown self.old) (shown self.new) (keeps self.old (D.world depot.old)) (keeps self.new (D.world depot.new)) (D.world depot.old) (D.world depot.new) (events.Guest (plain_request request.now)) (plain_reply result bytes runs) };

    /// Carries out what is no request: a tick finds nothing to do, `quit` ends the session, and any other command finds no memory.
    fn tell<D: Depot>(&mut self, depot: &mut D, event: &Event) -> Result<Reply, Memory>
        requires given { (shown self.old).file < (D.world depot.old).given }
        requires running { (shown self.old).ended ≡ false }
        requires talk { (r : events.Request) → plain_event event.now ≡ events.Guest r → ⊥ }
        ensures answers { IfOk result (λ reply. (bytes : List ℕ) (runs : List Run) → Answers (shown self.old) (shown self.new) (keeps self.old (D.world depot.old)) (keeps self.new (D.world depot.new)) (D.world depot.old) (D.world depot.new) (plain_event event.now) (plain_reply reply bytes runs)) }
        ensures command { OnErr result (IsTrue (is_command (plain_event event.now))) }
        ensures kept { OnErr result (self.new ≡ self.old) }
        ensures undone { D.world depot.new ≡ D.world depot.old };

    /// It has no bitmaps, no exports, no views and no targets.
    ghost alone: { (served : Self) → ((shown served).bitmaps ≡ []) × ((shown served).exports ≡ []) × ((shown served).views ≡ []) × ((shown served).gone ≡ []) × ((shown served).targets ≡ []) };
}
