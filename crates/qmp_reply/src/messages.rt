//! The messages, as JSON values.

ghost use Rattle.std.specs.Prelude.{◌≡◌, ℕ, List, codes, string_bytes, option_map, false, Option, IsUtf8, IfOk};
ghost use Rattle.std.specs.Str.Lossy.{utf8_lossy};
ghost use Rattle.serde_json.specs.Data.{object, member, no_members, string};
ghost use Rattle.serde_json.specs.View.{view};
ghost use Rattle.serde_json.specs.Written.{compact_text};
ghost use Rattle.span_algebra.specs.declared.lists.Run.{Run};
ghost use Rattle.core_events.specs.declared.answers.Reply.TheVariants.{Refused};
ghost use Rattle.core_events.specs.declared.refusals.Refusal.{Refusal};
ghost use Rattle.core_events.specs.Views.{plain_reply};
ghost use Rattle.monitor_model.specs.Commands.{Fault, id_has_float};
ghost use Rattle.monitor_model.specs.Replies as model;
ghost use Rattle.qmp_command.specs.Views.{seen, told_fault};
ghost use Rattle.qmp_command.specs.declared.orders.QmpFault.{QmpFault};
ghost use Rattle.qmp_reply.specs.Sent.{AreText, NoticeIsText, told_notice, refusal_data};

use crate::listings::{job_listing, node_listing};
use crate::words::{fault_class, fault_text, job_fault_text, of_action, refusal_text, text};
use core_events::{JobFault, Memory, Notice, Reply};
use qmp_command::{Id, QmpRefusal};
use serde_json::{Value, json};
use span_algebra::Name;
use std::alloc::Global;

/// The value of the id, where there is one.
pub(crate) fn value_of(id: Option<&Id>) -> Option<&Value>
    ensures text { option_map compact_text (seen result) ≡ option_map (λ i. i.now) id.entry }
    ensures whole { id_has_float (seen result) ≡ false }
{
    match id {
        None => None,
        Some(id) => Some(id.value()),
    }
}

/// The greeting.
pub(crate) fn greeting_value(alloc: Global) -> Result<Value, Memory>
    ensures { IfOk result (λ v. view v ≡ model.greeting_data) }
{
    json!(in alloc; {
        "QMP": {
            "capabilities": [],
            "version": {
                "package": "qback",
                "qemu": {"major": 1u64, "micro": 0u64, "minor": 0u64}
            }
        }
    })
}

/// The reply of a value, with the id where there is one.
fn returned(alloc: Global, value: Value, id: Option<&Value>) -> Result<Value, Memory>
    ensures { IfOk result (λ v. view v ≡ model.returned (seen id.entry) (view value)) }
{
    match id {
        None => json!(in alloc; {"return": value}),
        Some(id) => json!(in alloc; {"id": id, "return": value}),
    }
}

fn error(alloc: Global, class: &str, desc: String) -> Result<Value, Memory>
    ensures { IfOk result (λ v. view v ≡ model.error class.now (string_bytes desc)) }
{
    json!(in alloc; {"class": class, "desc": desc})
}

/// The reply of an error of this class with this text, with the id where there is one.
fn failed(alloc: Global, class: &str, desc: String, id: Option<&Value>) -> Result<Value, Memory>
    ensures { IfOk result (λ v. view v ≡ model.failed (seen id.entry) (model.error class.now (string_bytes desc))) }
{
    let error = error(alloc, class, desc)?;
    match id {
        None => json!(in alloc; {"error": error}),
        Some(id) => json!(in alloc; {"error": error, "id": id}),
    }
}

/// The reply to a command.
pub(crate) fn reply_value(alloc: Global, reply: &Reply, id: Option<&Value>) -> Result<Value, Memory>
    ensures plain { IfOk result (λ v. (bytes : List ℕ) (runs : List Run) → let r = plain_reply reply.now bytes runs in
        AreText r → view v ≡ model.reply_data (seen id.entry) r) }
    ensures refusal { IfOk result (λ v. (action : Option ℕ) (refusal : Refusal) → reply.now ≡ Refused action refusal
        → view v ≡ refusal_data model.generic action (model.refusal_text refusal) (seen id.entry)) }
{
    match reply {
        Reply::Done | Reply::Bytes | Reply::Runs | Reply::Fault(_) => {
            returned(alloc, json!(in alloc; {})?, id)
        }
        Reply::Jobs(jobs) => returned(alloc, job_listing(alloc, jobs)?, id),
        Reply::Nodes(nodes) => returned(alloc, node_listing(alloc, nodes)?, id),
        Reply::Refused(action, refusal) => {
            let said = refusal_text(alloc, refusal)?;
            let desc = of_action(alloc, *action, &said)?;
            failed(alloc, "GenericError", desc, id)
        }
    }
}

/// The reply to a message that is refused.
pub(crate) fn refused_value(
    alloc: Global,
    refusal: &QmpRefusal,
    id: Option<&Value>,
) -> Result<Value, Memory>
    ensures told { IfOk result (λ v. (fault : Fault) → told_fault fault ≡ refusal.now.fault → IsUtf8 (model.message_fault_text fault)
        → view v ≡ model.refused_data (record { fault = fault; action = refusal.now.action; id = seen id.entry })) }
    ensures any { IfOk result (λ v. (fault : Fault) → told_fault fault ≡ refusal.now.fault
        → view v ≡ refusal_data (model.fault_class fault) refusal.now.action (model.message_fault_text fault) (seen id.entry)) }
    ensures memory { IfOk result (λ v. refusal.now.fault ≡ QmpFault.Memory
        → view v ≡ model.failed (seen id.entry) (model.error model.generic (model.of_action refusal.now.action (codes "OutOfMemory")))) }
{
    let said = fault_text(alloc, &refusal.fault)?;
    let desc = of_action(alloc, refusal.action, &said)?;
    failed(alloc, fault_class(&refusal.fault), desc, id)
}

/// An event of this name with these details.
fn event(alloc: Global, name: &str, details: Value, moment: u64) -> Result<Value, Memory>
    ensures { IfOk result (λ v. view v ≡ object (member (codes "data") (view details)
        (member (codes "event") (string name.now) (member (codes "timestamp") (model.timestamp moment) no_members)))) }
{
    json!(in alloc; {
        "data": details,
        "event": name,
        "timestamp": {"microseconds": moment % 1_000_000, "seconds": moment / 1_000_000}
    })
}

/// How a job or a view ended, with its fault where it has one.
fn job_details(
    alloc: Global,
    job: &Name,
    fault: Option<JobFault>,
    length: u64,
    offset: u64,
) -> Result<Value, Memory>
    ensures plain { IfOk result (λ v. IsUtf8 job.now → view v ≡ object (member (codes "device") (string job.now) (model.with_error fault
        (member (codes "len") (model.count length) (member (codes "offset") (model.count offset) (member (codes "speed") (model.count 0)
        (member (codes "type") (string (codes "backup")) no_members))))))) }
    ensures any { IfOk result (λ v. view v ≡ object (member (codes "device") (string (utf8_lossy job.now)) (model.with_error fault
        (member (codes "len") (model.count length) (member (codes "offset") (model.count offset) (member (codes "speed") (model.count 0)
        (member (codes "type") (string (codes "backup")) no_members))))))) }
{
    let device = text(alloc, job)?;
    match fault {
        None => json!(in alloc; {
            "device": device,
            "len": length,
            "offset": offset,
            "speed": 0u64,
            "type": "backup"
        }),
        Some(fault) => json!(in alloc; {
            "device": device,
            "error": job_fault_text(fault),
            "len": length,
            "offset": offset,
            "speed": 0u64,
            "type": "backup"
        }),
    }
}

/// The event of a notice, at this moment in microseconds.
pub(crate) fn notice_value(alloc: Global, notice: &Notice, moment: u64) -> Result<Value, Memory>
    ensures plain { IfOk result (λ v. NoticeIsText notice.now → view v ≡ model.notice_data moment notice.now) }
    ensures any { IfOk result (λ v. view v ≡ model.notice_data moment (told_notice notice.now)) }
{
    match notice {
        Notice::Completed {
            job,
            length,
            offset,
            fault,
        } => {
            let details = job_details(alloc, job, *fault, *length, *offset)?;
            event(alloc, "BLOCK_JOB_COMPLETED", details, moment)
        }
        Notice::Cancelled {
            job,
            length,
            offset,
        } => {
            let details = job_details(alloc, job, None, *length, *offset)?;
            event(alloc, "BLOCK_JOB_CANCELLED", details, moment)
        }
    }
}
