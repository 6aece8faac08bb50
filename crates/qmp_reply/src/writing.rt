//! The greeting, replies, refusals and notices, as they are sent.

ghost use Rattle.std.specs.Prelude.{◌≡◌, ◌++◌, ℕ, List, Option, option_map, codes, false, IsUtf8, OnOk, OnErr};
ghost use Rattle.serde_json.specs.View.{view};
ghost use Rattle.serde_json.specs.Written.{has_float};
ghost use Rattle.span_algebra.specs.declared.lists.Run.{Run};
ghost use Rattle.core_events.specs.declared.answers.Reply.TheVariants.{Refused};
ghost use Rattle.core_events.specs.declared.refusals.Refusal.{Refusal};
ghost use Rattle.core_events.specs.Views.{plain_reply};
ghost use Rattle.monitor_model.specs.Commands.{Fault};
ghost use Rattle.monitor_model.specs.Replies as model;
ghost use Rattle.qmp_command.specs.Views.{told_fault};
ghost use Rattle.qmp_command.specs.declared.orders.QmpFault.{QmpFault};
ghost use Rattle.qmp_reply.specs.Sent.{AreText, NoticeIsText, told_notice, refusal_data, Adds};

use crate::messages::{greeting_value, notice_value, refused_value, reply_value, value_of};
use core_events::{Memory, Notice, Reply};
use qmp_command::{Id, QmpRefusal};
use serde_json::Value;
use span_algebra::Bytes;
use std::alloc::Global;

/// Puts a message behind the bytes.
fn send(alloc: Global, message: &Value, out: &mut Bytes) -> Result<(), Memory>
    ensures sent { OnOk result (has_float (view message.now) ≡ false
        → out.new.items.items ≡ out.old.items.items ++ model.message_text (view message.now)) }
    ensures rest { OnErr result (out.new.items.items ≡ out.old.items.items) }
{
    let mut text = message.to_vec(alloc)?;
    text.extend_from_slice(b"\r\n")?;
    out.items.append(&mut text)
}

/// Greets a monitor.
pub fn greeting(alloc: Global, out: &mut Bytes) -> Result<(), Memory>
    ensures sent { OnOk result (out.new.items.items ≡ out.old.items.items ++ model.message_text model.greeting_data) }
    ensures rest { OnErr result (out.new.items.items ≡ out.old.items.items) }
{
    let message = greeting_value(alloc)?;
    send(alloc, &message, out)
}

/// Replies to a command, with the id of its message where it had one.
///
/// In a name that is no UTF-8 each part that isn't is replied as U+FFFD.
pub fn answer(alloc: Global, reply: &Reply, id: Option<&Id>, out: &mut Bytes) -> Result<(), Memory>
    ensures sent { OnOk result ((bytes : List ℕ) (runs : List Run) → let r = plain_reply reply.now bytes runs in
        AreText r → Adds out.old.items.items out.new.items.items (option_map (λ i. i.now) id.entry) (λ d. model.reply_data d r)) }
    ensures refusal { OnOk result ((action : Option ℕ) (refusal : Refusal) → reply.now ≡ Refused action refusal
        → Adds out.old.items.items out.new.items.items (option_map (λ i. i.now) id.entry)
        (refusal_data model.generic action (model.refusal_text refusal))) }
    ensures rest { OnErr result (out.new.items.items ≡ out.old.items.items) }
{
    let message = reply_value(alloc, reply, value_of(id))?;
    send(alloc, &message, out)
}

/// Replies to a message that is refused, with this id where it has one; the refusal's own isn't looked at.
///
/// Want of memory is told as `OutOfMemory`. In a name that is no UTF-8 each part that isn't is replied as U+FFFD.
pub fn refused(
    alloc: Global,
    refusal: &QmpRefusal,
    id: Option<&Id>,
    out: &mut Bytes,
) -> Result<(), Memory>
    ensures sent { OnOk result ((fault : Fault) → told_fault fault ≡ refusal.now.fault → IsUtf8 (model.message_fault_text fault)
        → Adds out.old.items.items out.new.items.items (option_map (λ i. i.now) id.entry)
        (λ d. model.refused_data (record { fault = fault; action = refusal.now.action; id = d }))) }
    ensures any { OnOk result ((fault : Fault) → told_fault fault ≡ refusal.now.fault
        → Adds out.old.items.items out.new.items.items (option_map (λ i. i.now) id.entry)
        (refusal_data (model.fault_class fault) refusal.now.action (model.message_fault_text fault))) }
    ensures memory { OnOk result (refusal.now.fault ≡ QmpFault.Memory
        → Adds out.old.items.items out.new.items.items (option_map (λ i. i.now) id.entry)
        (λ d. model.failed d (model.error model.generic (model.of_action refusal.now.action (codes "OutOfMemory"))))) }
    ensures rest { OnErr result (out.new.items.items ≡ out.old.items.items) }
{
    let message = refused_value(alloc, refusal, value_of(id))?;
    send(alloc, &message, out)
}

/// Tells how a job or a view ended, at this moment in microseconds.
///
/// In a name that is no UTF-8 each part that isn't is told as U+FFFD.
pub fn notice(alloc: Global, notice: &Notice, moment: u64, out: &mut Bytes) -> Result<(), Memory>
    ensures sent { OnOk result (NoticeIsText notice.now
        → out.new.items.items ≡ out.old.items.items ++ model.message_text (model.notice_data moment notice.now)) }
    ensures any { OnOk result (out.new.items.items ≡ out.old.items.items ++ model.message_text (model.notice_data moment (told_notice notice.now))) }
    ensures rest { OnErr result (out.new.items.items ≡ out.old.items.items) }
{
    let message = notice_value(alloc, notice, moment)?;
    send(alloc, &message, out)
}
