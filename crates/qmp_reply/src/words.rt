//! The texts of refusals, faults, points and spans.

ghost use Rattle.std.specs.Prelude.{◌≡◌, codes, decimal, string_bytes, IsUtf8, IfOk};
ghost use Rattle.std.specs.Str.Lossy.{utf8_lossy};
ghost use Rattle.monitor_model.specs.Commands.{Fault};
ghost use Rattle.monitor_model.specs.Replies as model;
ghost use Rattle.qmp_command.specs.Views.{told_fault};

use core_events::{JobFault, Memory, Refusal};
use qmp_command::QmpFault;
use span_algebra::{End, Name, Point, Span};
use std::alloc::Global;

/// The name as text.
pub(crate) fn text(alloc: Global, name: &Name) -> Result<String, Memory>
    ensures plain { IfOk result (λ s. IsUtf8 name.now → string_bytes s ≡ name.now) }
    ensures any { IfOk result (λ s. string_bytes s ≡ utf8_lossy name.now) }
{
    String::from_utf8_lossy(alloc, &name.items)
}

/// What is said of an action of a transaction, or of a command.
pub(crate) fn of_action(alloc: Global, action: Option<u64>, said: &[u8]) -> Result<String, Memory>
    ensures plain { IfOk result (λ s. IsUtf8 said.now → string_bytes s ≡ model.of_action action said.now) }
    ensures any { IfOk result (λ s. string_bytes s ≡ model.of_action action (utf8_lossy said.now)) }
{
    let said = String::from_utf8_lossy(alloc, said)?;
    match action {
        None => Ok(said),
        Some(k) => {
            let mut text = format!(in alloc; "action {k}: ")?;
            text.push_str(&said)?;
            Ok(text)
        }
    }
}

fn bare(alloc: Global, label: &str) -> Result<Vec<u8>, Memory>
    ensures { IfOk result (λ b. b.items ≡ label.now) }
{
    label.as_bytes().to_vec(alloc)
}

fn named(alloc: Global, label: &str, name: &Name) -> Result<Vec<u8>, Memory>
    ensures { IfOk result (λ b. b.items ≡ model.named label.now name.now) }
{
    let mut text = bare(alloc, label)?;
    text.extend_from_slice(b": ")?;
    text.extend_from_slice(&name.items)?;
    Ok(text)
}

fn counted(alloc: Global, label: &str, count: u64) -> Result<Vec<u8>, Memory>
    ensures { IfOk result (λ b. b.items ≡ model.named label.now (decimal count)) }
{
    let text = format!(in alloc; "{label}: {count}")?;
    Ok(text.into_bytes())
}

/// The name of a refusal, and its value where it has one.
pub(crate) fn refusal_text(alloc: Global, refusal: &Refusal) -> Result<Vec<u8>, Memory>
    ensures { IfOk result (λ b. b.items ≡ model.refusal_text refusal.now) }
{
    match refusal {
        Refusal::Unbuilt(word) => named(alloc, "Unbuilt", word),
        Refusal::SerialSpent => bare(alloc, "SerialSpent"),
        Refusal::NodeUnknown(node) => named(alloc, "NodeUnknown", node),
        Refusal::BadName => bare(alloc, "BadName"),
        Refusal::NameTaken(name) => named(alloc, "NameTaken", name),
        Refusal::TooMany(n) => counted(alloc, "TooMany", *n),
        Refusal::BadGranularity(n) => counted(alloc, "BadGranularity", *n),
        Refusal::TooFine(n) => counted(alloc, "TooFine", *n),
        Refusal::NoSuchBitmap(name) => named(alloc, "NoSuchBitmap", name),
        Refusal::Busy(name) => named(alloc, "Busy", name),
        Refusal::Inconsistent(name) => named(alloc, "Inconsistent", name),
        Refusal::JobTaken(id) => named(alloc, "JobTaken", id),
        Refusal::TooManyJobs(n) => counted(alloc, "TooManyJobs", *n),
        Refusal::BitmapNeeded => bare(alloc, "BitmapNeeded"),
        Refusal::BitmapForbidden(word) => named(alloc, "BitmapForbidden", word),
        Refusal::SourceBroken(event) => counted(alloc, "SourceBroken", *event),
        Refusal::TargetBusy(target) => named(alloc, "TargetBusy", target),
        Refusal::DeviceFailed(target) => named(alloc, "DeviceFailed", target),
        Refusal::TargetMissing(target) => named(alloc, "TargetMissing", target),
        Refusal::TargetFault(reason) => named(alloc, "TargetFault", reason),
        Refusal::TargetUsed(target) => named(alloc, "TargetUsed", target),
        Refusal::OtherSize(target) => named(alloc, "OtherSize", target),
        Refusal::Aborted => bare(alloc, "Aborted"),
        Refusal::JobUnknown(id) => named(alloc, "JobUnknown", id),
        Refusal::ReadOnlyNode(node) => named(alloc, "ReadOnlyNode", node),
        Refusal::ExportTaken(name) => named(alloc, "ExportTaken", name),
        Refusal::TooManyExports(n) => counted(alloc, "TooManyExports", *n),
        Refusal::OutOfMemory => bare(alloc, "OutOfMemory"),
    }
}

/// The name of a message's fault, and its value where it has one. Want of memory has the text of the core's refusal for it.
pub(crate) fn fault_text(alloc: Global, fault: &QmpFault) -> Result<Vec<u8>, Memory>
    ensures told { IfOk result (λ b. (f : Fault) → told_fault f ≡ fault.now → b.items ≡ model.message_fault_text f) }
    ensures memory { IfOk result (λ b. fault.now ≡ QmpFault.Memory → b.items ≡ codes "OutOfMemory") }
{
    match fault {
        QmpFault::BadJson => bare(alloc, "BadJson"),
        QmpFault::NoExecute => bare(alloc, "NoExecute"),
        QmpFault::WrongType(name) => named(alloc, "WrongType", name),
        QmpFault::UnknownMember(name) => named(alloc, "UnknownMember", name),
        QmpFault::NotNegotiated(command) => named(alloc, "NotNegotiated", command),
        QmpFault::UnknownCommand(command) => named(alloc, "UnknownCommand", command),
        QmpFault::MissingMember(name) => named(alloc, "MissingMember", name),
        QmpFault::UnknownAction(kind) => named(alloc, "UnknownAction", kind),
        QmpFault::TooLong => bare(alloc, "TooLong"),
        QmpFault::Memory => bare(alloc, "OutOfMemory"),
    }
}

/// The class of a message's fault.
pub(crate) fn fault_class(fault: &QmpFault) -> &'static str
    ensures told { (f : Fault) → told_fault f ≡ fault.now → result.now ≡ model.fault_class f }
    ensures memory { fault.now ≡ QmpFault.Memory → result.now ≡ model.generic }
{
    match fault {
        QmpFault::NotNegotiated(_) | QmpFault::UnknownCommand(_) => "CommandNotFound",
        _ => "GenericError",
    }
}

/// Why a job ended early.
pub(crate) fn job_fault_text(fault: JobFault) -> &'static str
    ensures { result.now ≡ model.fault_text fault }
{
    match fault {
        JobFault::Failed => "Failed",
        JobFault::NoRoom => "NoRoom",
        JobFault::SourceBroken => "SourceBroken",
    }
}

fn point_text(alloc: Global, point: Point) -> Result<String, Memory>
    ensures { IfOk result (λ s. string_bytes s ≡ model.point_text point) }
{
    format!(in alloc; "{}.{}", point.epoch, point.serial)
}

fn end_text(alloc: Global, end: End) -> Result<String, Memory>
    ensures { IfOk result (λ s. string_bytes s ≡ model.end_text end) }
{
    match end {
        End::Now => String::from_str(alloc, "now"),
        End::At(point) => point_text(alloc, point),
    }
}

/// From when to when a bitmap has all that was written.
pub(crate) fn span_text(alloc: Global, span: Span) -> Result<String, Memory>
    ensures { IfOk result (λ s. string_bytes s ≡ model.span_text span) }
{
    match span {
        Span::Unknown => String::from_str(alloc, "unknown"),
        Span::Known { from, to } => {
            let from = point_text(alloc, from)?;
            let to = end_text(alloc, to)?;
            format!(in alloc; "{from} {to}")
        }
    }
}
