//! How a drive carries out one event.

ghost use Rattle.std.specs.Prelude.{◌≡◌, ◌<◌, ◌≤◌, ℕ, List, [], false, None, IsTrue, IfOk, OnOk, OnErr, MatchResult, vec_capacity};
ghost use Rattle.disk_model.specs.World.{World, Runs};
ghost use Rattle.core_events.specs.Answers.{Fits, bytes_of_work, runs_of_work, bytes_needed, runs_needed};
ghost use Rattle.core_events.specs.Events as events;
ghost use Rattle.core_events.specs.Views.{plain_answer, plain_reply, plain_event, plain_request};
ghost use Rattle.plain_model.specs.Requests.{HasBytes};
ghost use Rattle.plain_model.specs.Step.{IsWhole};
ghost use Rattle.core_node.specs.Files.{BlanksAreEmpty};
ghost use Rattle.core_node.specs.Standing.{HasFiles};
ghost use Rattle.core_node.specs.Rest.{State};
ghost use Rattle.core_node.specs.Step.{DeniesAs, NodeSteps};
ghost use Rattle.core_node.specs.Causes.{Causes};
ghost use Rattle.core_node.specs.Touches.{SameSource, AddsTargets, works_on, is_command};
ghost use Rattle.drive_core.specs.Drive.{Answers, denies, no_targets};

use crate::serving::Serves;
use core_events::{Answer, Event, Memory, Reply, Request, Work};
use disk_model::Depot;

// Carries out a request that isn't denied.
fn serve_granted<S: Serves, D: Depot>(
    served: &mut S,
    depot: &mut D,
    request: &Request,
    bytes: &mut Vec<u8>,
    runs: &mut span_algebra::Runs,
) -> Reply
    requires given { (S.shown served.old).file < (D.world depot.old).given }
    requires whole { HasBytes (plain_request request.now) request.now.work }
    requires granted { denies (S.shown served.old) (plain_request request.now) ≡ None }
    requires bytes { bytes_of_work request.now.work request.now.length ≤ vec_capacity bytes.old }
    requires runs { runs_of_work request.now.work ≤ vec_capacity runs.old.items }
    ensures { Answers (S.shown served.old) (S.shown served.new) (S.keeps served.old (D.world depot.old)) (S.keeps served.new (D.world depot.new)) (D.world depot.old) (D.world depot.new) (events.Guest (plain_request request.now)) (plain_reply result bytes.new.items runs.new.items.items) }
{
    match &request.work {
        Work::Read => served.read(depot, request, bytes),
        Work::Write { fua } => served.write(depot, request, *fua),
        Work::Zero { fua, no_hole: true } => served.write_zeros(depot, request, *fua),
        Work::Zero {
            fua,
            no_hole: false,
        } => served.zero(depot, request, *fua),
        Work::Flush => served.flush(depot, request),
        Work::Status { one, .. } => served.status(depot, request, *one, runs),
    }
}

// Carries out a request.
fn serve<S: Serves, D: Depot>(
    served: &mut S,
    depot: &mut D,
    request: &Request,
    bytes: &mut Vec<u8>,
    runs: &mut span_algebra::Runs,
) -> Reply
    requires given { (S.shown served.old).file < (D.world depot.old).given }
    requires whole { HasBytes (plain_request request.now) request.now.work }
    requires bytes { bytes_of_work request.now.work request.now.length ≤ vec_capacity bytes.old }
    requires runs { runs_of_work request.now.work ≤ vec_capacity runs.old.items }
    ensures answers { Answers (S.shown served.old) (S.shown served.new) (S.keeps served.old (D.world depot.old)) (S.keeps served.new (D.world depot.new)) (D.world depot.old) (D.world depot.new) (events.Guest (plain_request request.now)) (plain_reply result bytes.new.items runs.new.items.items) }
    ensures denied { DeniesAs (S.shown served.old) (events.Guest (plain_request request.now)) (record { reply = plain_reply result bytes.new.items runs.new.items.items; notices = [] }) }
{
    match served.deny(request) {
        Some(errno) => served.answer_denied(depot, request, errno),
        None => serve_granted(served, depot, request, bytes, runs),
    }
}

// Carries out an event.
fn carry_out<S: Serves, D: Depot>(
    served: &mut S,
    depot: &mut D,
    event: &Event,
    bytes: &mut Vec<u8>,
    runs: &mut span_algebra::Runs,
) -> Result<Reply, Memory>
    requires given { (S.shown served.old).file < (D.world depot.old).given }
    requires whole { IsWhole (plain_event event.now) }
    requires running { (S.shown served.old).ended ≡ false }
    requires bytes { bytes_needed event.now ≤ vec_capacity bytes.old }
    requires runs { runs_needed event.now ≤ vec_capacity runs.old.items }
    ensures answers { IfOk result (λ reply. Answers (S.shown served.old) (S.shown served.new) (S.keeps served.old (D.world depot.old)) (S.keeps served.new (D.world depot.new)) (D.world depot.old) (D.world depot.new) (plain_event event.now) (plain_reply reply bytes.new.items runs.new.items.items)) }
    ensures denied { IfOk result (λ reply. DeniesAs (S.shown served.old) (plain_event event.now) (record { reply = plain_reply reply bytes.new.items runs.new.items.items; notices = [] })) }
    ensures command { OnErr result (IsTrue (is_command (plain_event event.now))) }
    ensures kept { OnErr result (served.new ≡ served.old) }
    ensures undone { OnErr result (D.world depot.new ≡ D.world depot.old) }
{
    match event {
        Event::Guest(request) => Ok(serve(served, depot, request, bytes, runs)),
        _ => served.tell(depot, event),
    }
}

/// Carries out one event, and answers it. On a request or a tick it always answers `Ok`; a command for which there was no memory has changed nothing.
pub fn step<S: Serves, D: Depot>(
    served: &mut S,
    depot: &mut D,
    event: &Event,
    answer: &mut Answer,
) -> Result<(), Memory>
    requires room { Fits answer.old event.now }
    requires whole { IsWhole (plain_event event.now) }
    requires running { (S.shown served.old).ended ≡ false }
    requires files { HasFiles (S.shown served.old) (D.world depot.old) }
    ensures steps { OnOk result (IsTrue (D.world depot.old).tells → BlanksAreEmpty (D.world depot.old) (plain_event event.now) →
        NodeSteps no_targets (S.shown served.old) (S.keeps served.old (D.world depot.old)) (S.keeps served.new (D.world depot.new)) (D.world depot.old) (D.world depot.new) (plain_event event.now) (plain_answer answer.new)) }
    ensures causes { OnOk result (Causes (S.shown served.old) (S.shown served.new) (D.world depot.old) (D.world depot.new) (plain_event event.now) (plain_answer answer.new)) }
    ensures denied { OnOk result (DeniesAs (S.shown served.old) (plain_event event.now) (plain_answer answer.new)) }
    ensures command { OnErr result (IsTrue (is_command (plain_event event.now))) }
    ensures kept { OnErr result (S.shown served.new ≡ S.shown served.old) }
    ensures undone { OnErr result ((s : State) → S.keeps served.old (D.world depot.old) s → S.keeps served.new (D.world depot.new) s) }
    ensures source { SameSource (S.shown served.old) (S.shown served.new) }
    ensures added { AddsTargets (S.shown served.old) (S.shown served.new) (plain_event event.now) }
    ensures given { HasFiles (S.shown served.new) (D.world depot.new) }
    ensures run { Runs (works_on (S.shown served.old) (S.shown served.new) (D.world depot.new) (plain_event event.now) (plain_answer answer.new)) (D.world depot.old) (D.world depot.new) }
{
    let reply = carry_out(
        served,
        depot,
        event,
        &mut answer.bytes.items,
        &mut answer.runs,
    )?;
    answer.reply = reply;
    answer.notices.items.clear();
    Ok(())
}
